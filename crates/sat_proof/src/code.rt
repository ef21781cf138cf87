//! The codes of literals, which are the places of their marks: 2n and 2n + 1 for variable n.

ghost use Rattle.std.specs.Prelude.{◌≡◌, ◌≢◌, pos, neg_ℤ};
ghost use Rattle.sat_proof.specs.Code.{code_of};

/// The place of a literal's mark: 2n for variable n, 2n + 1 for its complement.
pub fn code(literal: i32) -> usize
    requires { literal ≢ pos 0 }
    ensures { result ≡ code_of literal }
{
    if literal > 0 {
        2 * (literal.unsigned_abs() as usize)
    } else {
        2 * (literal.unsigned_abs() as usize) + 1
    }
}

/// The place of the mark of a literal's complement.
pub fn opposite(literal: i32) -> usize
    requires { literal ≢ pos 0 }
    ensures { result ≡ code_of (neg_ℤ literal) }
{
    if literal > 0 {
        2 * (literal.unsigned_abs() as usize) + 1
    } else {
        2 * (literal.unsigned_abs() as usize)
    }
}
