//! The nets so far, and their drivers.

ghost use Rattle.std.specs.Prelude.{◌≡◌, ◌<◌, ◌≤◌, ◌+◌, ◌^◌, ◌++◌, ◌∷◌, [], IfOk, OnOk, length};
ghost use Rattle.elab_nets.specs.Board.{state_of, names_of, drivers_of, IsBoard};
ghost use Rattle.elab_nets.specs.State as spec;

use crate::fault::ElabErr;
use crate::ranges::{bit_at, width_of};
use base_lists::Items;
use design_cell::Udp;
use design_circuit::{Bytes, Design, Driver, Name, NamePart, Net};
use netlist_grammar::{NetKind, Word};
use std::alloc::{AllocError, Global};
use std::marker::Model;

/// The most nets of a design.
pub const MOST_NETS: usize = 1 << 20;

/// A declaration that makes nets: their kind, their range, and the word that names them.
#[derive(Clone, Copy)]
pub struct NetDeclaration<'t> {
    pub what: NetKind,
    pub range: Option<(u32, u32)>,
    pub name: &'t Word,
}

/// The name of each net, and its driver where it has one: at most 2^20 of them. Takes 81 bytes for each, its name and
/// its pins apart.
#[derive(Drop)]
pub struct Nets {
    nets: Vec<Net>,
    /// Whether a net has a driver. One that has none is Undriven meanwhile.
    driven: Vec<bool>,
}

impl Model for Nets {
    ghost use Rattle.elab_nets.specs.State.{State};
    ghost use Rattle.elab_nets.specs.Board.{state_of, IsBoard};

    ghost Value = { State };

    ghost view = { λ n. state_of n.nets.items n.driven.items };

    ghost invariant = { λ n. IsBoard n.nets.items n.driven.items };
}

impl Nets {
    ghost use Rattle.std.specs.Prelude.{◌≡◌, ◌≤◌, ◌+◌, ◌^◌, IfOk, length};
    ghost use Rattle.elab_nets.specs.Outcome.{Gives};
    ghost use Rattle.elab_nets.specs.State as spec;

    /// No nets.
    pub fn new(alloc: Global) -> Nets
        ensures { result ≡ spec.nothing_made }
    {
        Nets {
            nets: Vec::new(alloc),
            driven: Vec::new(alloc),
        }
    }

    /// Makes the nets of a declaration, and answers the number of the first. `prefix` are the instances that lead to
    /// its module.
    #[tactic(auto, unfolding(crate::specs::State::made))]
    pub fn make(
        &mut self,
        alloc: Global,
        prefix: &[NamePart],
        net: &NetDeclaration<'_>,
    ) -> Result<u32, ElabErr>
        ensures made { let wanted = spec.made prefix.now net.now.what net.now.range net.now.name.now self.old in
            Gives wanted result (λ base. (base, self.new)) }
        ensures few { IfOk result (λ base. base + spec.net_count net.now.what net.now.range ≤ 2 ^ 20) }
    {
        let base = self.nets.len();
        if net_count(net.what, net.range) > MOST_NETS - base {
            return Err(ElabErr::TooManyNets { at: net.name.at });
        }
        push_nets(alloc, &mut self.nets, &mut self.driven, prefix, net)?;
        Ok(base as u32)
    }

    /// How many nets there are.
    pub fn count(&self) -> usize
        ensures count { result ≡ length self.now.names }
        ensures few { result ≤ 2 ^ 20 }
    {
        self.nets.len()
    }

    /// Whether a net has a driver. A number that is no net has one.
    #[tactic(auto, using(crate::proofs::BoardLemmas::driven_at))]
    pub fn has_driver(&self, net: u32) -> bool
        ensures { result ≡ spec.has_driver self.now net }
    {
        match self.driven.get(net as usize) {
            Some(driven) => *driven,
            None => true,
        }
    }

    /// Gives a net this driver, whatever it has. A number that is no net changes nothing.
    pub fn set(&mut self, net: u32, driver: Driver)
        ensures { self.new ≡ spec.with_driver net driver self.old }
    {
        set_driver(&mut self.nets, &mut self.driven, net as usize, driver);
    }

    /// Gives a net its driver. `at` is where that is asked for.
    pub fn drive(&mut self, at: usize, net: u32, driver: Driver) -> Result<(), ElabErr>
        ensures { Gives (spec.driven at net driver self.old) result (λ _. self.new) }
    {
        if self.has_driver(net) {
            return Err(ElabErr::TwoDrivers { net, at });
        }
        self.set(net, driver);
        Ok(())
    }

    /// The design of these nets and the primitives that their drivers name.
    #[tactic(auto, using(crate::proofs::BoardLemmas::nets_at_end))]
    pub fn into_design(self, udps: Vec<Udp>) -> Design
        ensures { result ≡ spec.finished udps.items self }
    {
        let Nets { nets, driven: _ } = self;
        Design {
            nets: Items::from_vec(nets),
            udps: Items::from_vec(udps),
        }
    }
}

/// How many nets a declaration makes.
fn net_count(what: NetKind, range: Option<(u32, u32)>) -> usize
    ensures { result ≡ spec.net_count what range }
{
    match what {
        NetKind::Reg => 0,
        _ => width_of(range),
    }
}

/// The nets of a declaration.
#[tactic(auto, using(crate::proofs::Making::one_more))]
fn push_nets(
    alloc: Global,
    nets: &mut Vec<Net>,
    driven: &mut Vec<bool>,
    prefix: &[NamePart],
    net: &NetDeclaration<'_>,
) -> Result<(), AllocError>
    requires few { length nets.old.items + spec.net_count net.now.what net.now.range ≤ 2 ^ 20 }
    requires board { IsBoard nets.old.items driven.old.items }
    ensures made { let state = state_of nets.old.items driven.old.items in
        let made = spec.with_nets prefix.now net.now.what net.now.range net.now.name.now state in
        OnOk result (state_of nets.new.items driven.new.items ≡ made) }
    ensures board { IsBoard nets.new.items driven.new.items }
{
    'bits: for bit in 0..net_count(net.what, net.range) {
        let path = name_of(alloc, prefix, net.name, bit_at(net.range, bit))?;
        push_net(nets, driven, path, first_driver(prefix, net.what))?;
    }
    Ok(())
}

/// A net more. Where memory runs out there is none.
#[tactic(auto, using(crate::proofs::BoardLemmas::driver_pushed, crate::proofs::BoardLemmas::board_pushed))]
fn push_net(
    nets: &mut Vec<Net>,
    driven: &mut Vec<bool>,
    path: Name,
    driver: Option<Driver>,
) -> Result<(), AllocError>
    requires few { length nets.old.items < 2 ^ 20 }
    requires board { IsBoard nets.old.items driven.old.items }
    ensures names { OnOk result (names_of nets.new.items ≡ names_of nets.old.items ++ path ∷ []) }
    ensures drivers { let old = drivers_of nets.old.items driven.old.items in
        OnOk result (drivers_of nets.new.items driven.new.items ≡ old ++ driver ∷ []) }
    ensures count { OnOk result (length nets.new.items ≡ length nets.old.items + 1) }
    ensures board { IsBoard nets.new.items driven.new.items }
{
    driven.reserve(1)?;
    let is_driven = driver.is_some();
    let driver = driver.unwrap_or(Driver::Undriven);
    nets.push(Net { path, driver })?;
    driven.push(is_driven)?;
    Ok(())
}

/// Gives the net at a place this driver, if a net is there.
#[tactic(auto, using(crate::proofs::BoardLemmas::as_many))]
fn set_driver(nets: &mut [Net], driven: &mut [bool], place: usize, driver: Driver)
    requires board { IsBoard nets.old driven.old }
    ensures given { state_of nets.new driven.new ≡ spec.with_driver place driver (state_of nets.old driven.old) }
    ensures board { IsBoard nets.new driven.new }
{
    if place < nets.len() {
        nets[place].driver = driver;
        driven[place] = true;
    }
}

fn first_driver(prefix: &[NamePart], what: NetKind) -> Option<Driver>
    ensures { result ≡ spec.first_driver prefix.now what }
{
    match what {
        NetKind::Input if prefix.is_empty() => Some(Driver::Input),
        NetKind::Input => Some(Driver::Undriven),
        NetKind::Supply0 => Some(Driver::Constant(false)),
        NetKind::Supply1 => Some(Driver::Constant(true)),
        NetKind::Output | NetKind::Wire | NetKind::Reg => None,
    }
}

fn name_of(
    alloc: Global,
    prefix: &[NamePart],
    word: &Word,
    bit: Option<u32>,
) -> Result<Name, AllocError>
    ensures { IfOk result (λ name. name ≡ spec.name_under prefix.now word.now bit) }
{
    let mut parts = Vec::with_capacity(alloc, prefix.len() + 1)?;
    'parts: for part in prefix {
        parts.push(copy_of(alloc, part)?)?;
    }
    parts.push(part_of(alloc, word)?)?;
    Ok(Name {
        parts: Items::from_vec(parts),
        bit,
    })
}

fn copy_of(alloc: Global, part: &NamePart) -> Result<NamePart, AllocError>
    ensures { IfOk result (λ copy. copy ≡ part.now) }
{
    let text = Bytes::from_vec(part.text.as_slice().to_vec(alloc)?);
    Ok(NamePart {
        text,
        escaped: part.escaped,
    })
}

/// The part of a name that a word of the text is.
pub fn part_of(alloc: Global, word: &Word) -> Result<NamePart, AllocError>
    ensures { IfOk result (λ part. part ≡ spec.part_of word.now) }
{
    let text = Bytes::from_vec(word.text.as_slice().to_vec(alloc)?);
    Ok(NamePart {
        text,
        escaped: word.escaped,
    })
}
