//! Names as they are written.

ghost use Rattle.std.specs.Prelude.{◌≡◌, IfOk, length};

use crate::asserted::same_items;
use crate::designs::nets::{one_net, part};
use design_circuit::{Design, NamePart};
use std::alloc::{AllocError, Global};
use std::test::Fail;

fn parts(alloc: Global) -> Result<Vec<NamePart>, AllocError> {
    let mut parts = Vec::new(alloc);
    parts.push(part(alloc, b"u/1", true)?)?;
    parts.push(part(alloc, b"a", false)?)?;
    Ok(parts)
}

fn design(alloc: Global) -> Result<Design, AllocError>
    ensures { IfOk result (λ design. length design.nets ≡ 1) }
{
    let parts = parts(alloc)?;
    one_net(alloc, parts, Some(3))
}

#[test]
fn names_are_written(rt: HostRuntime) -> Result<(), Fail> {
    let design = design(rt.alloc())?;
    let text = design.written_name(rt.alloc(), 0)?;
    same_items(&rt, "the name", text.as_slice(), b"\\u/1 .a[3]");
    Ok(())
}
