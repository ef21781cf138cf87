//! The law of tracers. The function does nothing: what it ensures is proved here once.

ghost use Rattle.decide_cone.specs.Known as spec;

/// What a tracer knows of places stays right as the wave grows.
pub fn tracers_stay_right()
    ensures { spec.TracersStay }
{}
