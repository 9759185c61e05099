//! The pieces of a function.
ghost use Rattle.std.specs.Prelude.{◌≡◌, ◌++◌, ◌≤◌, length, OnOk, IfOk};
ghost use Rattle.flat_ir.specs.WellFormed.{IsWellFormedFunction};
ghost use Rattle.register_assign.specs.Sound.{ArePlacesSound};
ghost use Rattle.thumb_layout.specs.Soundness.{IsSound};
ghost use Rattle.thumb_emit.specs.Emit.{function_pieces};
ghost use Rattle.thumb_emit.specs.Ready.{IsReadyAt, IsGoing, pieces_of};

use crate::calls::{ask, branch, call, call_slot, give, handler, jump};
use crate::entry::enter;
use crate::joined::told;
use crate::numbers::{Operands, binary, constant, copy, unary};
use crate::pieces::At;
use crate::things::{
    get_field, get_global, get_item, length, make_array, make_object, pop, set_field, set_global,
    set_item, text,
};
use flat_ir::Op;
use register_assign::{Placed, unread_results};
use std::alloc::Global;
use sts_base::{NoMemory, Seq};
use thumb_layout::Piece;

/// Op k, which calls, asks, makes a value of a function, or goes elsewhere.
fn put_going(out: &mut Seq<Piece>, placed: &Placed, at: At, op: &Op) -> Result<(), NoMemory>
    requires ready { IsReadyAt placed.now at op.now }
    requires going { IsGoing op.now }
    ensures { OnOk result (out.new ≡ out.old ++ pieces_of placed.now at.k op.now) }
{
    match op {
        Op::Call { to, function, args } => call(out, placed, at, *to, *function, args),
        Op::CallSlot { to, slot, args } => call_slot(out, placed, at, *to, *slot, args),
        Op::HandlerOf { to, function } => handler(out, placed, at, *to, *function),
        Op::Ask { to, service, args } => ask(out, placed, at, *to, *service, args),
        Op::Jump { target } => jump(out, placed, *target),
        Op::Branch { when, target } => branch(out, placed, at, *when, *target),
        Op::Return { from } => give(out, placed, *from),
        _ => Ok(()),
    }
}

/// Op k.
fn put_op(out: &mut Seq<Piece>, placed: &Placed, at: At, op: &Op) -> Result<(), NoMemory>
    requires { IsReadyAt placed.now at op.now }
    ensures { OnOk result (out.new ≡ out.old ++ pieces_of placed.now at.k op.now) }
{
    match op {
        Op::Const { to, value } => constant(out, placed, at, *to, *value),
        Op::Copy { to, from } => copy(out, placed, at, *to, *from),
        Op::Unary { to, op, from } => unary(out, placed, at, *to, *op, *from),
        Op::Binary {
            to,
            op,
            left,
            right,
        } => {
            let (left, right) = (*left, *right);
            binary(out, placed, at, *to, *op, Operands { left, right })
        }
        Op::GlobalGet { to, slot } => get_global(out, placed, at, *to, *slot),
        Op::GlobalSet { slot, from } => set_global(out, placed, *slot, *from),
        Op::FieldGet { to, object, field } => get_field(out, placed, at, *to, *object, *field),
        Op::FieldSet {
            object,
            field,
            from,
        } => set_field(out, placed, at, *object, *field, *from),
        Op::ItemGet { to, array, index } => get_item(out, placed, at, *to, *array, *index),
        Op::ItemSet { array, index, from } => set_item(out, placed, at, *array, *index, *from),
        Op::Length { to, array } => length(out, placed, at, *to, *array),
        Op::Pop { to, array } => pop(out, placed, at, *to, *array),
        Op::TextOf { to, text: number } => text(out, placed, at, *to, *number),
        Op::MakeObject { to, class } => make_object(out, placed, at, *to, *class),
        Op::MakeArray { to, room } => make_array(out, placed, at, *to, *room),
        _ => put_going(out, placed, at, op),
    }
}

/// The pieces of a function whose temporaries have places: its entry, and its ops in their order, each behind its label. They can be laid.
///
/// A function of up to 1,431,655,764 ops has labels of 32 bits. Want of memory is the only refusal.
pub fn emit(alloc: Global, placed: &Placed) -> Result<Seq<Piece>, NoMemory>
    requires formed { IsWellFormedFunction placed.now.function }
    requires sound { ArePlacesSound placed.now.function placed.now.places }
    requires few { length placed.now.function.ops ≤ 1431655764 }
    ensures pieces { IfOk result (λ pieces. pieces ≡ function_pieces placed.now) }
    ensures sound { IfOk result (λ pieces. IsSound pieces) }
{
    let ops = placed.function.ops.as_slice();
    let unread = unread_results(alloc, &placed.function)?;
    let mut out = Seq::new(alloc);
    enter(&mut out, placed)?;
    for (at, op) in ops.iter().enumerate() {
        let k = at as u32;
        out.push(Piece::Label(3 * k))?;
        put_op(&mut out, placed, told(placed, &unread, k), op)?;
    }
    Ok(out)
}
