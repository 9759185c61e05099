// The routine.
ghost use Rattle.std.specs.Prelude.{◌≡◌, IfOk};
ghost use Rattle.thumb_layout.specs.Cells.{laid};
ghost use Rattle.thumb_switch.specs.Routine.{routine_bytes, routine_pieces};

use std::alloc::Global;
use sts_base::{NoMemory, Seq};
use thumb_code::Instr;
use thumb_layout::{LayRefused, Piece, lay};

/// The condition that C is set.
const CS: u8 = 2;

/// The condition that C is clear.
const CC: u8 = 3;

/// R0 is the source, R1 the target, R2 the number of words, which is five less or one less as long as words are copied.
const PIECES: [Piece; 17] = [
    Piece::Plain(Instr::SubImm8 { rd: 2, imm: 5 }),
    Piece::Go { cond: CC, label: 1 },
    Piece::Label(0), // five words: R3 to R7
    Piece::Plain(Instr::Ldm { rn: 0, list: 0xF8 }),
    Piece::Plain(Instr::Stm { rn: 1, list: 0xF8 }),
    Piece::Plain(Instr::SubImm8 { rd: 2, imm: 5 }),
    Piece::Go { cond: CS, label: 0 },
    Piece::Label(1), // fewer than five are left
    Piece::Plain(Instr::AddImm8 { rd: 2, imm: 4 }),
    Piece::Go { cond: CC, label: 3 },
    Piece::Label(2), // one word: R3
    Piece::Plain(Instr::Ldm { rn: 0, list: 0x08 }),
    Piece::Plain(Instr::Stm { rn: 1, list: 0x08 }),
    Piece::Plain(Instr::SubImm8 { rd: 2, imm: 1 }),
    Piece::Go { cond: CS, label: 2 },
    Piece::Label(3), // back
    Piece::Plain(Instr::Bx { rm: 14 }),
];

/// The pieces as a list.
fn pieces(alloc: Global) -> Result<Seq<Piece>, NoMemory>
    ensures { IfOk result (λ all. all ≡ routine_pieces) }
{
    let mut all = Seq::new(alloc);
    for piece in PIECES.iter() {
        all.push(*piece)?;
    }
    Ok(all)
}

/// The bytes of the routine that copies words, from `lay`: with R0 the source, R1 the target and R2 the number of words it copies words between ranges that
/// don't overlap, changes no other word, and returns. `the_routine_copies` says this of all memories.
pub fn routine(alloc: Global) -> Result<Seq<u8>, NoMemory>
    ensures laid { IfOk result (λ bytes. bytes ≡ (laid routine_pieces).bytes) }
    ensures bytes { IfOk result (λ bytes. bytes ≡ routine_bytes) }
{
    let pieces = pieces(alloc)?;
    match lay(alloc, &pieces) {
        Ok(laid) => Ok(laid.bytes),
        Err(LayRefused::NoMemory) => Err(NoMemory),
        Err(LayRefused::TooLong) => unreachable!(),
    }
}
