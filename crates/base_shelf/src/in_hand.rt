//! The file in hand of a shelf in memory.

ghost use Rattle.std.specs.Prelude.{◌≡◌, IfOk, IfErr};
ghost use Rattle.base_shelf.specs.Shelf.{Opened as OpenedFile};
ghost use Rattle.base_shelf.specs.InHand.{hand_of, unread_of};
ghost use Rattle.base_shelf.specs.declared.fault.IoErr.TheVariants.{Memory as OutOfCall};

use crate::fault::IoErr;
use crate::reader::Reader;
use std::alloc::Global;

/// The file in hand, by its name.
#[derive(Drop)]
pub enum InHand {
    Nothing,
    Opened(String, Reader),
    Created(String),
}

/// A file of which nothing is read. Copies the name and the bytes.
pub fn opened_file(alloc: Global, name: &str, bytes: &[u8]) -> Result<InHand, IoErr>
    ensures hand { IfOk result (λ h. hand_of h ≡ OpenedFile name.now) }
    ensures unread { IfOk result (λ h. unread_of h ≡ bytes.now) }
    ensures memory { IfErr result (λ e. e ≡ OutOfCall) }
{
    let name = String::from_str(alloc, name)?;
    let bytes = Vec::from_slice(alloc, bytes)?;
    Ok(InHand::Opened(name, Reader::new(bytes)))
}
