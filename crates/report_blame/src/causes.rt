//! What is to blame for unknown places. Places with the same root have the same causes, so each root is searched once.

ghost use Rattle.std.specs.Prelude.{◌≡◌, IfOk, IfSome, OnOk};
ghost use Rattle.decide_cone.specs.Cones.{AreRightOf};
ghost use Rattle.design_circuit.specs.Job.{number_of};
ghost use Rattle.law_model.specs.declared.class.ClassByNumber.TheVariants as class;
ghost use Rattle.wave_proved.specs.Contents.{Contents, IsWritten, class_in, job};
ghost use Rattle.wave_proved.specs.Pairs.{IsRootOf, IsUnknown};
ghost use Rattle.report_blame.specs.Causes.{AreCauses};
ghost use Rattle.report_blame.specs.Halves.{IsWay, TurnsAt};
ghost use Rattle.report_blame.specs.Roots.{IsNodeOf, IsRoot};
ghost use Rattle.report_blame.specs.ToBlame.{IsToBlame};

use crate::halves::{Cause, Way, cause_at, find_turn, listed_numbers, only_turn};
use crate::roots::{Root, cone_of, root_of};
use base_lists::{Items, Memory};
use decide_cone::Cones;
use design_circuit::Place;
use indexmap::IndexMap;
use law_model::ClassByNumber;
use std::alloc::Global;
use wave_proved::Wave;

/// What is to blame for those roots of places of a wave that were searched, by their numbers, and what helps to find
/// roots and their cones.
#[derive(Drop)]
pub struct Causes {
    pub found: IndexMap<usize, Cause>,
    pub cones: Cones,
}

impl Causes {
    /// No root was searched yet. Takes what new cones take.
    pub fn new(alloc: Global) -> Result<Causes, Memory>
        ensures { IfOk result (λ causes. (c : Contents) → AreCauses c causes) }
    {
        Ok(Causes {
            found: IndexMap::new(alloc),
            cones: Cones::new(alloc)?,
        })
    }

    /// What is to blame for an unknown place: its root alone where that is free, else what is found on the way between
    /// the two fillings of the place, in the cone of the root. Takes the memory of that cone, and keeps what it found.
    pub fn find(&mut self, alloc: Global, wave: &Wave<'_>, place: Place) -> Result<Cause, Memory>
        requires right { AreCauses wave.now self.old }
        requires written { IsWritten wave.now place }
        requires unknown { IsUnknown wave.now place }
        ensures cause { IfOk result
            (λ cause. IsToBlame wave.now (number_of (job wave.now) place) cause.source cause.others) }
        ensures right { OnOk result (AreCauses wave.now self.new) }
    {
        let root = root_of(alloc, wave, &mut self.cones.lanes, place)?;
        let number = wave.circuit().number_of(root.place);
        match wave.class_by_number(number) {
            ClassByNumber::Line => self.find_line(alloc, wave, place, root),
            _ => Ok(Cause {
                source: root.place,
                others: Items::from_vec(Vec::new(alloc)),
            }),
        }
    }

    /// What is to blame for a Line place that is the root of an unknown place.
    fn find_line(
        &mut self,
        alloc: Global,
        wave: &Wave<'_>,
        place: Place,
        root: Root,
    ) -> Result<Cause, Memory>
        requires right { AreCauses wave.now self.old }
        requires place { IsWritten wave.now place }
        requires unknown { IsUnknown wave.now place }
        requires root { IsRoot wave.now self.old.cones.lanes place root }
        requires line { class_in wave.now (number_of (job wave.now) root.place) ≡ class.Line }
        ensures cause { IfOk result
            (λ cause. IsToBlame wave.now (number_of (job wave.now) root.place) cause.source cause.others) }
        ensures right { OnOk result (AreCauses wave.now self.new) }
    {
        let number = wave.circuit().number_of(root.place);
        if let Some(cause) = self.found.get(&number) {
            return cause.copied(alloc);
        }
        let cause = line_cause(alloc, wave, &mut self.cones, place, root)?;
        let kept = cause.copied(alloc)?;
        self.found.insert(number, kept)?;
        Ok(cause)
    }
}

/// What is to blame for a Line place that is the root of an unknown place.
fn line_cause(
    alloc: Global,
    wave: &Wave<'_>,
    cones: &mut Cones,
    place: Place,
    root: Root,
) -> Result<Cause, Memory>
    requires right { AreRightOf wave.now cones.old }
    requires place { IsWritten wave.now place }
    requires unknown { IsUnknown wave.now place }
    requires root { IsRoot wave.now cones.old.lanes place root }
    requires line { class_in wave.now (number_of (job wave.now) root.place) ≡ class.Line }
    ensures cause { IfOk result
        (λ cause. IsToBlame wave.now (number_of (job wave.now) root.place) cause.source cause.others) }
    ensures right { OnOk result (AreRightOf wave.now cones.new) }
{
    match wave.pair_of(alloc, place)? {
        Some(pair) => {
            let way = Way {
                wave,
                number: wave.circuit().number_of(root.place),
                zero: pair.0.as_slice(),
                one: pair.1.as_slice(),
            };
            let cut = turn_of(alloc, &way, cones, root)?;
            cause_at(alloc, &way, cut)
        }
        None => unreachable!(),
    }
}

/// Where the bit of a Line place turns on a way. The cone is made only where the fillings list more than one place.
fn turn_of(alloc: Global, way: &Way<'_, '_>, cones: &mut Cones, root: Root) -> Result<usize, Memory>
    requires way { IsWay way.now }
    requires number { way.now.number ≡ number_of (job way.now.wave.now) root.place }
    requires right { AreRightOf way.now.wave.now cones.old }
    requires written { IsWritten way.now.wave.now root.place }
    requires node { IfSome root.node (IsNodeOf way.now.wave.now cones.old.lanes root.place) }
    requires line { class_in way.now.wave.now (number_of (job way.now.wave.now) root.place) ≡ class.Line }
    ensures turn { IfOk result (TurnsAt way.now) }
    ensures right { OnOk result (AreRightOf way.now.wave.now cones.new) }
{
    let listed = listed_numbers(alloc, way)?;
    if listed.len() <= 1 {
        return Ok(only_turn(way, listed.as_slice()));
    }
    let cone = cone_of(alloc, way.wave, cones, root.place, root.node)?;
    find_turn(alloc, way, &cone, listed.as_slice())
}
