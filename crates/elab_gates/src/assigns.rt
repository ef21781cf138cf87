//! Continuous assignments (IEEE 1364-2005, clause 6.1).

ghost use Rattle.std.specs.Prelude.{◌≡◌};
ghost use Rattle.elab_nets.specs.Outcome.{Gives};
ghost use Rattle.elab_gates.specs.Assigns as spec;

use elab_bits::{Role, Runs, bits_of, drive, name_bits};
use elab_names::Here;
use elab_nets::{ElabErr, Nets};
use netlist_grammar::{Declare, Expr};

/// An assignment: the bits on the left take those on the right. Takes memory for the parts of both sides, and for the
/// implicit wires.
pub fn add_assign<'t>(here: &mut Here<'t>, left: &'t Expr, right: &'t Expr) -> Result<(), ElabErr>
    ensures { Gives (spec.assign_item left.now right.now here.old) result (λ _. here.new) }
{
    let bits = bits_of(here, Role::Driven, left)?;
    assign(here, &bits, right)?;
    Ok(())
}

/// The `=` of a declaration, where it has one: an assignment to the whole name.
pub fn add_value<'t>(here: &mut Here<'t>, declare: &'t Declare) -> Result<(), ElabErr>
    ensures { Gives (spec.value_item declare.now here.old) result (λ _. here.new) }
{
    match &declare.value {
        None => Ok(()),
        Some(right) => {
            let bits = name_bits(here, Role::Driven, &declare.name)?;
            assign(here, &bits, right)?;
            Ok(())
        }
    }
}

/// The bits on the left take those of the expression on the right.
fn assign<'t>(here: &mut Here<'t>, left: &Runs, right: &'t Expr) -> Result<(), ElabErr>
    ensures { Gives (spec.assigned left.now right.now here.old) result (λ _. here.new) }
{
    let bits = bits_of(here, Role::Taken, right)?;
    drive_equal(&mut here.nets, right.at, left, &bits)?;
    Ok(())
}

/// Bits drive as many others. `at` is where those on the right stand.
fn drive_equal(nets: &mut Nets, at: usize, left: &Runs, right: &Runs) -> Result<(), ElabErr>
    ensures { Gives (spec.drives at left.now right.now nets.old) result (λ _. nets.new) }
{
    if !left.same_width(right) {
        return Err(ElabErr::Width { at });
    }
    drive(nets, left, right)?;
    Ok(())
}
