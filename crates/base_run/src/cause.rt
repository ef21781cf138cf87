//! How a refusal of texts is reported.

ghost use Rattle.std.specs.Prelude.{◌≡◌, ℕ, List, IfOk};
ghost use Rattle.base_lists.specs.Text.{line};

use base_lists::Memory;
use std::alloc::Global;

/// Why texts are refused: its status and its line.
pub trait Cause: Drop {
    /// The exit status.
    ghost status_of: { Self → ℕ };

    /// The words of the line.
    ghost text_of: { Self → List ℕ };

    /// The exit status of a run that ends so.
    fn status(&self) -> u8
        ensures { result ≡ status_of self.now };

    /// The line, with its newline.
    fn line(&self, alloc: Global) -> Result<Vec<u8>, Memory>
        ensures { IfOk result (λ bytes. bytes.items ≡ line (text_of self.now)) };
}
