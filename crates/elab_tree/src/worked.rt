//! The definition worked by hand on small texts: what the function ensures, it computes.

ghost use Rattle.elab_tree.specs.Worked as worked;

/// A module with an instance; tops that are none; and each kind of item once, with its refusals.
pub fn texts_by_hand()
    ensures instance_names { worked.InstanceNames }
    ensures instance_drivers { worked.InstanceDrivers }
    ensures no_top { worked.NoTop }
    ensures primitive_top { worked.PrimitiveTop }
    ensures of_itself { worked.OfItself }

    ensures driven_twice { worked.DrivenTwice }
    ensures register_terminal { worked.RegisterTerminal }
    ensures constants { worked.Constants }
    ensures widths_differ { worked.WidthsDiffer }
    ensures primitive_cell { worked.PrimitiveCell }
    ensures primitive_register { worked.PrimitiveRegister }
{}
