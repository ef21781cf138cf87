//! The definitions of a text in text order.

ghost use Rattle.std.specs.Prelude.{◌≡◌, IfOk, option_copied};
ghost use Rattle.elab_prims.specs.Definitions as spec;

use elab_names::NameSet;
use netlist_grammar::{Module, Primitive, Source};
use std::alloc::{AllocError, Global};

/// The definitions that are still to come.
#[derive(Drop)]
struct InOrder<'t> {
    modules: &'t [Module],
    primitives: &'t [Primitive],
}

/// The name of the first definition in text order whose name an earlier one has.
pub(crate) fn repeated_name<'t>(
    alloc: Global,
    source: &'t Source,
) -> Result<Option<&'t [u8]>, AllocError>
    ensures { IfOk result (λ name. option_copied name ≡ spec.repeated source.now) }
{
    let mut order = InOrder {
        modules: source.modules.as_slice(),
        primitives: source.primitives.as_slice(),
    };
    let mut seen = NameSet::new(alloc);
    'names: while let Some(name) = order.next() {
        if !seen.add(name)? {
            return Ok(Some(name));
        }
    }
    Ok(None)
}

impl<'t> InOrder<'t> {
    /// The name of the next definition.
    fn next(&mut self) -> Option<&'t [u8]>
        ensures { spec.TakesName self.old result self.new }
    {
        let [module, modules @ ..] = self.modules else {
            return self.next_primitive();
        };
        if starts_before(self.primitives, module.name.at) {
            return self.next_primitive();
        }
        self.modules = modules;
        Some(module.name.text.as_slice())
    }

    fn next_primitive(&mut self) -> Option<&'t [u8]>
        ensures modules { self.new.modules.now ≡ self.old.modules.now }
        ensures primitives { spec.IsNextPrimitive self.old.primitives.now result self.new.primitives.now }
    {
        let [primitive, primitives @ ..] = self.primitives else {
            return None;
        };
        self.primitives = primitives;
        Some(primitive.name.text.as_slice())
    }
}

/// Whether the first of the primitives stands before a byte.
fn starts_before(primitives: &[Primitive], at: usize) -> bool
    ensures { result ≡ spec.starts_before primitives.now at }
{
    match primitives {
        [primitive, ..] => primitive.name.at < at,
        [] => false,
    }
}
