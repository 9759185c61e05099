// Puts after others, which were made or have failed.
ghost use Rattle.std.specs.Prelude.{◌++◌, List, ℕ, decimal};
ghost use Rattle.std.specs.declared.option.Option.{Option};
ghost use Rattle.tool_io.specs.Putting.{Puts};

use crate::{PutFailed, Sink};
use itoa::Buffer;

/// Goes on with a piece, unless a put before has failed: the puts before and this one are puts of all the bytes.
pub fn then_put<K: Sink>(
    before: Result<(), PutFailed>,
    out: &mut K,
    piece: &[u8],
) -> Result<(), PutFailed>
    ensures { (taken : Option (List ℕ)) (faults : ℕ) (text : List ℕ)
        → Puts taken (K.taken out.old) faults (K.faults out.old) text before
        → Puts taken (K.taken out.new) faults (K.faults out.new) (text ++ piece.now) result }
{
    match before {
        Ok(()) => out.put(piece),
        Err(PutFailed) => Err(PutFailed),
    }
}

/// Goes on with a number in decimal, unless a put before has failed.
pub fn then_put_decimal<K: Sink>(
    before: Result<(), PutFailed>,
    out: &mut K,
    number: u32,
) -> Result<(), PutFailed>
    ensures { (taken : Option (List ℕ)) (faults : ℕ) (text : List ℕ)
        → Puts taken (K.taken out.old) faults (K.faults out.old) text before
        → Puts taken (K.taken out.new) faults (K.faults out.new) (text ++ decimal number) result }
{
    let mut buffer = Buffer::new();
    then_put(before, out, buffer.format(number).as_bytes())
}
