//! The cone of a place of a wave.

ghost use Rattle.std.specs.Prelude.{◌≡◌, IfOk, OnOk};
ghost use Rattle.design_circuit.specs.Job.{number_of};
ghost use Rattle.law_model.specs.declared.class.ClassByNumber.TheVariants as class;
ghost use Rattle.wave_proved.specs.Contents.{IsReached, class_in, job, next_number};
ghost use Rattle.wave_proved.specs.Token.{IsLineNext};
ghost use Rattle.decide_nodes.specs.Traced.{IsConeOf, IsWholeCone};
ghost use Rattle.decide_graph.specs.InWave.{IsInReach};
ghost use Rattle.decide_cone.specs.Known.{IsRightOf};

use crate::descent::trace_places;
use crate::tracer::Tracer;
use base_lists::Memory;
use decide_nodes::{Cone, Node};
use design_circuit::Place;
use std::alloc::Global;
use wave_proved::Wave;

/// The cone of the next place, a Line place. Takes time and memory for the places of the cone, and for the slots of a
/// tracer.
pub fn trace(alloc: Global, wave: &Wave<'_>) -> Result<Cone, Memory>
    requires { IsLineNext wave.now }
    ensures cone { IfOk result (λ cone. IsConeOf wave.now (next_number wave.now) cone.nodes) }
    ensures whole { IfOk result (λ cone. IsWholeCone wave.now (next_number wave.now) cone.nodes) }
{
    Tracer::new(alloc).trace(alloc, wave)
}

/// The cone of a place that is written, or of the next one, whose class is Line: the same as when it was the next one.
pub fn trace_at(alloc: Global, wave: &Wave<'_>, place: Place) -> Result<Cone, Memory>
    requires reached { IsReached wave.now place }
    requires line { class_in wave.now (number_of (job wave.now) place) ≡ class.Line }
    ensures cone { IfOk result (λ cone. IsConeOf wave.now (number_of (job wave.now) place) cone.nodes) }
    ensures whole { IfOk result (λ cone. IsWholeCone wave.now (number_of (job wave.now) place) cone.nodes) }
{
    Tracer::new(alloc).trace_at(alloc, wave, place)
}

impl Tracer {
    /// The cone of the next place, a Line place, of a wave of which all that is known is right. What is found on the
    /// way is kept.
    pub fn trace(&mut self, alloc: Global, wave: &Wave<'_>) -> Result<Cone, Memory>
        requires right { IsRightOf wave.now self.old }
        requires line { IsLineNext wave.now }
        ensures cone { IfOk result (λ cone. IsConeOf wave.now (next_number wave.now) cone.nodes) }
        ensures whole { IfOk result (λ cone. IsWholeCone wave.now (next_number wave.now) cone.nodes) }
        ensures right { OnOk result (IsRightOf wave.now self.new) }
    {
        trace_root(alloc, wave, self, wave.count())
    }

    /// The cone of a place that is written, or of the next one, whose class is Line. What is found on the way is kept.
    pub fn trace_at(&mut self, alloc: Global, wave: &Wave<'_>, place: Place) -> Result<Cone, Memory>
        requires right { IsRightOf wave.now self.old }
        requires reached { IsReached wave.now place }
        requires line { class_in wave.now (number_of (job wave.now) place) ≡ class.Line }
        ensures cone { IfOk result (λ cone. IsConeOf wave.now (number_of (job wave.now) place) cone.nodes) }
        ensures whole { IfOk result (λ cone. IsWholeCone wave.now (number_of (job wave.now) place) cone.nodes) }
        ensures right { OnOk result (IsRightOf wave.now self.new) }
    {
        trace_root(alloc, wave, self, wave.circuit().number_of(place))
    }
}

fn trace_root(
    alloc: Global,
    wave: &Wave<'_>,
    tracer: &mut Tracer,
    root: usize,
) -> Result<Cone, Memory>
    requires reach { IsInReach wave.now root }
    requires line { class_in wave.now root ≡ class.Line }
    requires right { IsRightOf wave.now tracer.old }
    ensures cone { IfOk result (λ cone. IsConeOf wave.now root cone.nodes) }
    ensures whole { IfOk result (λ cone. IsWholeCone wave.now root cone.nodes) }
    ensures right { OnOk result (IsRightOf wave.now tracer.new) }
{
    let circuit = wave.circuit();
    let reached = root <= wave.count();
    prove!(reached);
    let mut rest = trace_places(alloc, wave, tracer, root)?;
    let mut places = Vec::with_capacity(alloc, rest.len())?;
    let mut nodes = Vec::with_capacity(alloc, rest.len())?;
    'rest: while let Some(place) = rest.pop() {
        tracer.find(alloc, wave, place)?;
        let body = tracer.place_body(alloc, places.as_slice(), place)?;
        nodes.push(Node {
            place: circuit.place_of(place),
            body,
        })?;
        tracer.hint(place, places.len());
        places.push(place)?;
    }
    Cone::new(alloc, nodes)
}
