//! Lists of places, one after another.

ghost use Rattle.std.specs.Prelude.{◌≡◌, ◌<◌, ◌++◌, ◌∷◌, [], None, Some, IfOk, OnErr, OnOk, length, slice_index_or};

use base_lists::Memory;
use std::alloc::Global;
use std::marker::Model;

/// How many places the lists have at most together, about, in 256 megabytes.
const MOST_LISTED: usize = 67_108_864;

/// Where a list stands among the places of all lists: 8 bytes.
#[derive(Clone, Copy, Debug)]
pub struct Span {
    start: u32,
    count: u32,
}

/// Lists by number. Contracts see the lists. Takes 8 bytes a list, and 4 a place.
#[derive(Drop)]
pub struct Lists {
    spans: Vec<Span>,
    places: Vec<u32>,
}

impl Model for Lists {
    ghost use Rattle.std.specs.Prelude.{List, ℕ};
    ghost use Rattle.decide_lane_nodes.specs.Lists.{AreSpansWithin, seen_lists};

    ghost Value = { List (List ℕ) };

    ghost view = { λ lists. seen_lists lists.places.items lists.spans.items };

    ghost invariant = { λ lists. AreSpansWithin lists.places.items lists.spans.items };
}

impl Lists {
    /// No lists.
    pub fn new(alloc: Global) -> Lists
        ensures { result ≡ [] }
    {
        Lists {
            spans: Vec::new(alloc),
            places: Vec::new(alloc),
        }
    }

    /// How many there are.
    pub fn len(&self) -> usize
        ensures { result ≡ length self.now }
    {
        self.spans.len()
    }

    /// Whether they have so many places that no more are to come in.
    pub fn is_full(&self) -> bool {
        self.places.len() >= MOST_LISTED
    }

    /// A list comes in.
    pub fn push(&mut self, list: &[u32]) -> Result<(), Memory>
        ensures ok { OnOk result (self.new ≡ self.old ++ list.now ∷ []) }
        ensures err { OnErr result (self.new ≡ self.old) }
    {
        let span = Span {
            start: narrow(self.places.len())?,
            count: narrow(list.len())?,
        };
        self.places.extend_from_slice(list)?;
        self.spans.push(span)?;
        Ok(())
    }

    /// The list of a number.
    pub fn list(&self, number: usize) -> &[u32]
        requires { number < length self.now }
        ensures { result.now ≡ slice_index_or self.now number [] }
    {
        let span = self.spans[number];
        let start = span.start as usize;
        let end = start + span.count as usize;
        &self.places[start..end]
    }
}

/// The number of a list, or none, in 4 bytes: they hold 0 for none, else one more than the number. Contracts see which.
#[derive(Clone, Copy)]
pub struct ListNumber {
    code: u32,
}

impl Model for ListNumber {
    ghost use Rattle.std.proofs.Common.{ap};
    ghost use Rattle.std.specs.Prelude.{Option, ℕ};
    ghost use Rattle.decide_lane_nodes.specs.Lists.{code_of, code_stays, number_of};

    ghost Value = { Option ℕ };

    ghost view = { λ list. number_of list.code };

    ghost inverse = { λ number. record { code = code_of number } };

    ghost inverse_ok = { λ list _. ap (λ code. record { code = code }) (code_stays list.code) };
}

impl ListNumber {
    /// No list.
    pub fn none() -> ListNumber
        ensures { result ≡ None }
    {
        ListNumber { code: 0 }
    }

    /// A list by its number, if that fits.
    pub fn some(number: usize) -> Result<ListNumber, Memory>
        ensures { IfOk result (λ list. list ≡ Some number) }
    {
        let below = narrow(number)?;
        if below == u32::MAX {
            return Err(Memory);
        }
        Ok(ListNumber { code: below + 1 })
    }

    /// The number, if there is one.
    pub fn number(self) -> Option<usize>
        ensures { result ≡ self }
    {
        match self.code {
            0 => None,
            code => Some(code as usize - 1),
        }
    }
}

/// A number in four bytes, if it fits.
fn narrow(number: usize) -> Result<u32, Memory>
    ensures { IfOk result (λ narrow. narrow ≡ number) }
{
    if number > u32::MAX as usize {
        return Err(Memory);
    }
    Ok(number as u32)
}
