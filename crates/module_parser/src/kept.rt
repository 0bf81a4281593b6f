//! What was read, with what is read behind it.

ghost use Rattle.std.specs.Prelude.{◌≡◌, Ok, Err, IfOk, IfErr};

/// Both, where the second could be read. The first is lost where it could not.
pub fn kept<T: Drop, U, E>(first: T, second: Result<U, E>) -> Result<(T, U), E>
    ensures read { IfOk result (λ both. (both.0 ≡ first) × (second ≡ Ok both.1)) }
    ensures refused { IfErr result (λ fault. second ≡ Err fault) }
{
    match second {
        Ok(second) => Ok((first, second)),
        Err(fault) => Err(fault),
    }
}
