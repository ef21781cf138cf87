//! Whether the class of a place tells that it leaves its net's next place nothing to be due for.

ghost use Rattle.std.specs.Prelude.{◌≡◌, true};
ghost use Rattle.design_circuit.specs.declared.design.Driver.{Driver};
ghost use Rattle.wave_bytes.specs.OfQuiet.{by_change, cell_tells, register_tells, tells_calm_of};

use design_circuit::{Driver, Levels, Pin, Table};
use law_model::ClassByNumber;
use wave_bytes::cell_chooses;

/// Whether it does at a step, whatever drives the net: mostly so, and then no driver is looked up.
pub fn tells_by_class(levels: Levels, step: usize, class: ClassByNumber) -> bool
    ensures { result ≡ true → (driver : Driver) → tells_calm_of levels step driver class ≡ true }
{
    match class {
        ClassByNumber::Local(_) => step != 0 && by_change(levels),
        ClassByNumber::Free => false,
        ClassByNumber::Carried(_, _) => step != 0,
        ClassByNumber::Line => false,
    }
}

/// Whether it does, at a step, by its driver.
pub fn tells_calm(levels: Levels, step: usize, driver: &Driver, class: ClassByNumber) -> bool
    ensures { result ≡ tells_calm_of levels step driver.now class }
{
    match driver {
        Driver::Cell(table, pins) => is_calm_cell(*table, pins.as_slice(), class),
        Driver::Register(_) => step != 0 && is_calm_register(levels, class),
        Driver::Input => true,
        Driver::Undriven => true,
        Driver::Constant(_) => true,
        Driver::Copy(_) => true,
    }
}

fn is_calm_cell(table: Table, pins: &[Pin], class: ClassByNumber) -> bool
    ensures { result ≡ cell_tells table pins.now class }
{
    match class {
        ClassByNumber::Local(_) => true,
        ClassByNumber::Free => false,
        ClassByNumber::Carried(_, _) => true,
        ClassByNumber::Line => !cell_chooses(table, pins),
    }
}

fn is_calm_register(levels: Levels, class: ClassByNumber) -> bool
    ensures { result ≡ register_tells levels class }
{
    match class {
        ClassByNumber::Local(_) => by_change(levels),
        ClassByNumber::Free => false,
        ClassByNumber::Carried(_, _) => true,
        ClassByNumber::Line => true,
    }
}

fn by_change(levels: Levels) -> bool
    ensures { result ≡ by_change levels }
{
    match levels {
        Levels::Change => true,
        Levels::Hold => false,
    }
}
