ghost use Rattle.std.specs.Prelude.{◌≡◌, ◌+◌, if◌then◌else◌, is_ok};
ghost use Rattle.std.specs.Result.{result_ok};
ghost use Rattle.io_edge.specs.Fault.{count_of};

use crate::folder::Failed;
use std::io;

// Hands the answer on, and counts one more fault where it is an error.
pub fn counted<T>(answer: io::Result<T>, faults: &mut u64) -> Result<T, Failed>
    ensures same { result_ok result ≡ result_ok answer }
    ensures count { faults.new ≡ (if is_ok result then faults.old else count_of (faults.old + 1)) }
{
    match answer {
        Ok(value) => Ok(value),
        Err(_) => {
            *faults = faults.saturating_add(1);
            Err(Failed)
        }
    }
}
