//! Pieces behind others, and the tests that are met in more than one op.
ghost use Rattle.std.specs.Prelude.{◌≡◌, ◌++◌, OnOk};
ghost use Rattle.thumb_layout.specs.declared.pieces.Piece.TheVariants as p;
ghost use Rattle.thumb_code.specs.declared.instructions.Instr.TheVariants as i;
ghost use Rattle.thumb_emit.specs.Emit.{unless, tests_null, tests_index};

use sts_base::{NoMemory, Seq};
use thumb_code::Instr;
use thumb_layout::Piece;

/// The conditions of branches (ARM DDI 0419, table A6-1): equal, unequal; as words, at least and below; as signed numbers; and always.
pub(crate) const EQ: u8 = 0;

pub(crate) const NE: u8 = 1;

pub(crate) const CS: u8 = 2;

pub(crate) const CC: u8 = 3;

pub(crate) const GE: u8 = 10;

pub(crate) const LT: u8 = 11;

pub(crate) const GT: u8 = 12;

pub(crate) const LE: u8 = 13;

pub(crate) const ALWAYS: u8 = 14;

/// An op's number, and what is known of it.
#[derive(Clone, Copy, Drop)]
pub struct At {
    pub k: u32,
    /// whether nobody reads its result
    pub unread: bool,
    /// the condition on which it goes, where it is a branch that is joined with the op before it
    pub joined: Option<u8>,
    /// that of the next op
    pub next: Option<u8>,
}

/// Puts pieces behind others.
pub(crate) fn add(out: &mut Seq<Piece>, pieces: &[Piece]) -> Result<(), NoMemory>
    ensures { OnOk result (out.new ≡ out.old ++ pieces.now) }
{
    for piece in pieces {
        out.push(*piece)?;
    }
    Ok(())
}

/// A load of the word that stands so many words behind an address.
pub(crate) fn load(rt: u8, rn: u8, imm: u8) -> Piece
    ensures { result ≡ p.Plain (i.LdrImm rt rn imm) }
{
    Piece::Plain(Instr::LdrImm { rt, rn, imm })
}

/// A store there.
pub(crate) fn store(rt: u8, rn: u8, imm: u8) -> Piece
    ensures { result ≡ p.Plain (i.StrImm rt rn imm) }
{
    Piece::Plain(Instr::StrImm { rt, rn, imm })
}

/// A panic, unless the condition holds.
pub(crate) fn unless(out: &mut Seq<Piece>, cond: u8, code: u8, label: u32) -> Result<(), NoMemory>
    ensures { OnOk result (out.new ≡ out.old ++ unless cond code label) }
{
    add(
        out,
        &[
            Piece::Go { cond, label },
            Piece::Plain(Instr::MovImm { rd: 0, imm: code }),
            Piece::Plain(Instr::Svc { imm: 1 }),
            Piece::Label(label),
        ],
    )
}

/// Panic 105 where a register is null.
pub(crate) fn test_null(out: &mut Seq<Piece>, r: u8, label: u32) -> Result<(), NoMemory>
    ensures { OnOk result (out.new ≡ out.old ++ tests_null r label) }
{
    out.push(Piece::Plain(Instr::CmpImm { rd: r, imm: 0 }))?;
    unless(out, NE, 105, label)
}

/// Panic 104 where the index in a register isn't below the length of the array at another.
pub(crate) fn test_index(
    out: &mut Seq<Piece>,
    array: u8,
    index: u8,
    label: u32,
) -> Result<(), NoMemory>
    ensures { OnOk result (out.new ≡ out.old ++ tests_index array index label) }
{
    out.push(load(2, array, 1))?;
    out.push(Piece::Plain(Instr::CmpReg { rdn: index, rm: 2 }))?;
    unless(out, CC, 104, label)
}
