//! Why a delivery isn't taken to its end.
ghost use Rattle.std.specs.Prelude.{◌≡◌};

use js_semantics::StepFault;
use std::alloc::AllocError;

// Want of memory. A closed state never comes to a location that stands nowhere.
pub(crate) fn out_of_memory(fault: StepFault) -> AllocError
    requires { fault ≡ StepFault.Memory }
{
    match fault {
        StepFault::Memory => AllocError,
        StepFault::Dangling => unreachable!(),
    }
}
