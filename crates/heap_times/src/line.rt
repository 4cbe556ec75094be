//! The line that is printed.
ghost use Rattle.std.specs.Prelude.{◌≡◌, ◌∷◌, [], ◌++◌, IfOk, string_bytes, codes, decimal};

use std::alloc::{AllocError, Global};

/// `ok` and the number.
///
/// # Errors
/// Memory ran out.
pub fn line_of(alloc: Global, number: u64) -> Result<String, AllocError>
    ensures { IfOk result (λ line. string_bytes line ≡ codes "ok " ++ (decimal number ++ 10 ∷ [])) }
{
    format!(in alloc; "ok {number}\n")
}
