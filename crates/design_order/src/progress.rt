//! The nets that are listed so far, and those that can come next.

ghost use Rattle.std.specs.Prelude.{◌≡◌, ◌<◌, ◌↔◌, [], IfOk, IfSome, IfNone, IsSome, length};
ghost use Rattle.std.specs.BTreeSet.{btree_set_len, contains, IsUnchanged};
ghost use Rattle.std.specs.Ordering.{nat_cmp};
ghost use Rattle.design_circuit.specs.Job.{driver_in};
ghost use Rattle.design_circuit.specs.Order.{arguments_of_driver};
ghost use Rattle.design_circuit.specs.Design.{FitsDesign};
ghost use Rattle.design_order.specs.Progress.{first_open, can_come};
ghost use Rattle.design_order.specs.Held.{InProgress, HasOnly, HasAll, HasAllBut, OffersNet, Lists, IsStuck};
ghost use Rattle.design_order.specs.Popped.{Popped};
ghost use Rattle.design_order.specs.Readers.{head_at, IsTableOf, AreReaders};

use crate::arguments::first_open;
use crate::readers::Readers;
use base_lists::Memory;
use design_circuit::Design;
use std::alloc::Global;
use std::collections::BTreeSet;

/// The nets listed so far, a flag for each net that says whether it is listed, and the nets that can come next.
#[derive(Drop)]
pub struct Progress {
    pub listed: Vec<u32>,
    pub flags: Vec<bool>,
    pub ready: BTreeSet<u32>,
}

/// Nothing is listed yet. Takes up to some 40 bytes for each net.
pub fn no_progress(alloc: Global, design: &Design) -> Result<Progress, Memory>
    requires { FitsDesign design.now }
    ensures progress { IfOk result (λ p. InProgress design.now p) }
    ensures none { IfOk result (λ p. p.listed.items ≡ []) }
{
    let count = design.nets.as_slice().len();
    let mut progress = Progress {
        listed: Vec::new(alloc),
        flags: vec![in alloc; false; count]?,
        ready: BTreeSet::new(alloc),
    };
    for net in 0..count as u32 {
        progress.offer(design, net)?;
    }
    Ok(progress)
}

impl Progress {
    /// The least net that can come next is listed. None where no net can come.
    pub fn list_next(&mut self, design: &Design, readers: &Readers) -> Result<Option<u32>, Memory>
        requires design { FitsDesign design.now }
        requires table { IsTableOf (length design.now.nets) readers.now }
        requires readers { AreReaders (driver_in design.now) (length design.now.nets) readers.now }
        requires progress { InProgress design.now self.old }
        ensures progress { IfOk result (λ _. InProgress design.now self.new) }
        ensures listed { IfOk result (λ next. Lists self.old self.new next) }
        ensures stuck { IfOk result (λ next. IfNone next (IsStuck design.now self.new)) }
    {
        let Some(net) = take_least(&mut self.ready) else {
            return Ok(None);
        };
        self.listed.push(net)?;
        self.flags[net as usize] = true;
        self.offer_readers(design, readers, net)?;
        Ok(Some(net))
    }

    /// The readers of a net that can come now.
    fn offer_readers(&mut self, design: &Design, readers: &Readers, net: u32) -> Result<(), Memory>
        requires design { FitsDesign design.now }
        requires long { length self.old.flags.items ≡ length design.now.nets }
        requires net { net < length design.now.nets }
        requires table { IsTableOf (length design.now.nets) readers.now }
        requires sound { HasOnly design.now self.old.flags.items self.old }
        requires pending { HasAllBut design.now readers.now (head_at readers.now.heads.items net) self.old }
        ensures sound { IfOk result (λ _. HasOnly design.now self.old.flags.items self.new) }
        ensures complete { IfOk result (λ _. HasAll design.now self.old.flags.items self.new) }
        ensures same { IfOk result (λ _. self.new.listed.items ≡ self.old.listed.items) }
        ensures flags { IfOk result (λ _. self.new.flags.items ≡ self.old.flags.items) }
    {
        let mut at = readers.heads[net as usize];
        'chain: while let Some(e) = at {
            let link = readers.links[e];
            self.offer(design, link.reader)?;
            at = link.next;
        }
        Ok(())
    }

    /// A net joins those that can come next, if it can.
    fn offer(&mut self, design: &Design, net: u32) -> Result<(), Memory>
        requires design { FitsDesign design.now }
        requires long { length self.old.flags.items ≡ length design.now.nets }
        requires net { net < length design.now.nets }
        ensures offered { IfOk result (λ _. OffersNet design.now self.old self.new net) }
        ensures same { IfOk result (λ _. self.new.listed.items ≡ self.old.listed.items) }
        ensures flags { IfOk result (λ _. self.new.flags.items ≡ self.old.flags.items) }
    {
        if can_come(design, &self.flags, net) {
            self.ready.insert(net)?;
        }
        Ok(())
    }
}

/// The least net of a set leaves it. None where there is none.
#[tactic(auto, using(crate::proofs::Sets::popped))]
fn take_least(ready: &mut BTreeSet<u32>) -> Option<u32>
    ensures taken { IfSome result (Popped (contains nat_cmp ready.old) (contains nat_cmp ready.new)) }
    ensures some { IsSome result ↔ (0 < btree_set_len ready.old) }
    ensures unchanged { IfNone result (IsUnchanged ready.old ready.new) }
{
    ready.pop_first()
}

/// Whether a net can come next.
#[tactic(auto, unfolding(crate::specs::Progress::can_come))]
fn can_come(design: &Design, flags: &[bool], net: u32) -> bool
    requires design { FitsDesign design.now }
    requires long { length flags.now ≡ length design.now.nets }
    requires net { net < length design.now.nets }
    ensures { result ≡ can_come (driver_in design.now) flags.now net }
{
    !flags[net as usize] && first_open_of(design, flags, net).is_none()
}

/// The first argument of a net that isn't listed.
pub fn first_open_of(design: &Design, flags: &[bool], net: u32) -> Option<u32>
    requires design { FitsDesign design.now }
    requires long { length flags.now ≡ length design.now.nets }
    requires net { net < length design.now.nets }
    ensures { result ≡ first_open flags.now (arguments_of_driver (driver_in design.now net)) }
{
    first_open(&design.nets.as_slice()[net as usize].driver, flags)
}
