//! The definitions worked by hand on made designs: what each function ensures, the definitions compute.

ghost use Rattle.law_model.specs.WorkedClasses as kinds;
ghost use Rattle.law_model.specs.WorkedMultiplexer as multiplexer;
ghost use Rattle.law_model.specs.WorkedRegisters as registers;

/// Each kind of class, and each way to be carried, once.
pub fn classes_by_hand()
    ensures { kinds.EachKind }
{}

/// Registers on an edge, a latch and a scan register at their first steps: cold and as recorded, with one round and
/// with four, with a constant clock pin and with an uncertain clock.
pub fn registers_by_hand()
    ensures free_start { registers.DffRises }
    ensures start_at_zero { registers.Dff0Rises }
    ensures latch { registers.LatchOpens }
    ensures latch_carries { registers.LatchCarries }
    ensures scan { registers.ScanSteps }
    ensures scan_classes { registers.ScanResets }

    ensures uncertain_clock { registers.Dff0Unknown }
    ensures uncertain_clock_kept { registers.DffpUnknown }
    ensures constant_clock { registers.ColdConstant }
    ensures constant_clock_rule { registers.ColdConstantRule }
    ensures constant_clock_recorded { registers.RecordedConstant }

    ensures cold { registers.ColdBegins }
    ensures recorded { registers.RecordedCarries }
    ensures four_rounds { registers.RoundsRise }
{}

/// A latch that is open from the start, and a register with an unknown reset after an uncertain clock: by levels that
/// decide when a pin changes, and by levels that hold.
pub fn levels_by_hand()
    ensures open_carries { registers.OpenCarries }
    ensures open_holds { registers.OpenHolds }
    ensures reset_carries { registers.ResetCarries }
    ensures reset_holds { registers.ResetHolds }
{}

/// The multiplexer with an unknown select and equal data: its cone, and the clauses of its query.
pub fn multiplexer_by_hand()
    ensures classes { multiplexer.MuxClasses }
    ensures essentials { multiplexer.MuxEssentials }
    ensures cone { multiplexer.MuxCone }
    ensures sources { multiplexer.MuxSources }
    ensures variables { multiplexer.MuxVariables }
    ensures denied { multiplexer.MuxDenied }
    ensures query { multiplexer.MuxQuery }
{}
