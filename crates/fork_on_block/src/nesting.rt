// A fiber is suspended on its live frames, and goes on.
ghost use Rattle.std.specs.Prelude.{◌≡◌, ◌<◌, ◌↔◌, [], length, Some, None, IsOk, OnOk, OnErr, IsSome};
ghost use Rattle.std.specs.Bool.{OnTrue, OnFalse};
ghost use Rattle.board_world.specs.Limits.{raiser_limit};
ghost use Rattle.fiber_runtime.specs.declared.turning.Turning.{Turning};
ghost use Rattle.fiber_runtime.specs.Moves.{suspended, Reinstated};

use fiber_runtime::Runtime;

/// 32 raisers stand.
#[derive(Clone, Copy, Debug, PartialEq, Eq)]
pub struct NestFull;

/// The running fiber is suspended: its registers and base go to the raisers, its words stay in RAM, and nobody runs. It
/// is refused exactly where 32 raisers stand; then nothing changes.
pub fn nest(runtime: &mut Runtime) -> Result<(), NestFull>
    requires { IsSome runtime.old.running }
    ensures room { IsOk result ↔ (length runtime.old.raisers < raiser_limit) }
    ensures full { OnErr result (runtime.new ≡ runtime.old) }
    ensures ok { OnOk result ((t : Turning) → runtime.old.running ≡ Some t → runtime.new ≡ suspended t runtime.old) }
{
    if runtime.suspend() {
        Ok(())
    } else {
        Err(NestFull)
    }
}

/// The innermost raiser goes on. False exactly where none stands; then nothing changes.
pub fn unnest(runtime: &mut Runtime) -> bool
    requires { runtime.old.running ≡ None }
    ensures none { OnFalse result (runtime.old.raisers ≡ []) }
    ensures same { OnFalse result (runtime.new ≡ runtime.old) }
    ensures done { OnTrue result (Reinstated runtime.old runtime.new) }
{
    runtime.reinstate()
}
