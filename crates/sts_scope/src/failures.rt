// Refusals by codes and places.
ghost use Rattle.std.specs.Prelude.{◌≡◌, Ok, IfOk, IfErr};
ghost use Rattle.sts_scope.specs.Failures as failure;

use sts_base::{Code, NoMemory, Refused};

/// Refused with a code and a place, unless this holds.
pub fn unless(holds: bool, code: Code, at: u32) -> Result<(), Refused>
    ensures { failure.Finds result (failure.unless holds code at) }
{
    if holds {
        Ok(())
    } else {
        Err(Refused::Program { code, at })
    }
}

/// Want of memory as a refusal.
pub fn or_no_memory<T: Drop>(outcome: Result<T, NoMemory>) -> Result<T, Refused>
    ensures ok { IfOk result (λ value. outcome ≡ Ok value) }
    ensures err { IfErr result (λ e. e ≡ Refused.NoMemory) }
{
    match outcome {
        Ok(value) => Ok(value),
        Err(NoMemory) => Err(Refused::NoMemory),
    }
}
