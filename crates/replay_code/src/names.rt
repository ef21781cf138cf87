//! Names of nets in code.

ghost use Rattle.std.specs.Prelude.{◌≡◌, ◌++◌, ◌<◌, OnOk, length};
ghost use Rattle.replay_code.specs.Names as names;

use crate::bytes::is_plain;
use base_lists::{Memory, put};
use design_circuit::{Bytes, Design};
use std::alloc::Global;

/// Puts the name of a net in a scope.
pub fn put_name(
    alloc: Global,
    text: &mut Vec<u8>,
    design: &Design,
    scope: &[Bytes],
    net: u32,
) -> Result<(), Memory>
    requires { net < length design.now.nets }
    ensures { OnOk result (text.new.items ≡ text.old.items ++ names.code_name design.now scope.now net) }
{
    put_scope(text, scope)?;
    let name = design.written_name(alloc, net)?;
    put(text, name.as_slice())
}

/// Puts the names of a scope, each with a dot behind it.
fn put_scope(text: &mut Vec<u8>, scope: &[Bytes]) -> Result<(), Memory>
    ensures { OnOk result (text.new.items ≡ text.old.items ++ names.scope_prefix scope.now) }
{
    'names: for name in scope {
        put_scope_name(text, name.as_slice())?;
        put(text, b".")?;
    }
    Ok(())
}

/// Puts a name of a scope, as an escaped one where it is no plain name.
fn put_scope_name(text: &mut Vec<u8>, name: &[u8]) -> Result<(), Memory>
    ensures { OnOk result (text.new.items ≡ text.old.items ++ names.scope_name name.now) }
{
    if is_plain(name) {
        return put(text, name);
    }
    put(text, b"\\")?;
    put(text, name)?;
    put(text, b" ")
}
