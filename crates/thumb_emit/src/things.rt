//! Pieces of globals, objects, arrays and texts.
ghost use Rattle.std.specs.Prelude.{◌≡◌, ◌+◌, ◌*◌, ◌^◌, ◌<◌, ◌++◌, length, OnOk};
ghost use Rattle.thumb_layout.specs.declared.pieces.Piece.TheVariants as p;
ghost use Rattle.thumb_code.specs.declared.instructions.Instr.TheVariants as i;
ghost use Rattle.flat_ir.specs.declared.ops.Op.TheVariants as o;
ghost use Rattle.flat_ir.specs.WellFormed.{temporaries};
ghost use Rattle.thumb_emit.specs.Emit.{tests_null, tests_index, finds_item, loads_field, stores_field, field_offset, finds_global, pops};
ghost use Rattle.thumb_emit.specs.Ready.{IsReady, IsOpTold, pieces_of, reaches_item};

use crate::frame::{bring, keep, land, made_in, register};
use crate::pieces::{At, NE, add, load, store, test_index, test_null, unless};
use register_assign::Placed;
use sts_base::{NoMemory, Seq};
use thumb_code::Instr;
use thumb_layout::{Piece, What};

/// The address of the first global.
const GLOBALS: u32 = 0x2000_0000;

/// A load of the word that stands behind an address by as many bytes as a register says.
fn load_at(rt: u8, rn: u8, rm: u8) -> Piece
    ensures { result ≡ p.Plain (i.LdrReg rt rn rm) }
{
    Piece::Plain(Instr::LdrReg { rt, rn, rm })
}

/// A store there.
fn store_at(rt: u8, rn: u8, rm: u8) -> Piece
    ensures { result ≡ p.Plain (i.StrReg rt rn rm) }
{
    Piece::Plain(Instr::StrReg { rt, rn, rm })
}

/// The address of a global into r1.
fn find_global(slot: u32) -> Piece
    requires { slot < 256 }
    ensures { result ≡ finds_global slot }
{
    let value = GLOBALS + 4 * slot;
    Piece::Number { rd: 1, value }
}

/// Reads a global.
pub(crate) fn get_global(
    out: &mut Seq<Piece>,
    placed: &Placed,
    at: At,
    to: u32,
    slot: u32,
) -> Result<(), NoMemory>
    requires ready { IsReady placed.now }
    requires told { IsOpTold placed.now at }
    requires to { to < temporaries placed.now.function }
    requires slot { slot < 256 }
    requires labels { 3 * length placed.now.function.ops + 1 < 2 ^ 32 }
    ensures { OnOk result (out.new ≡ out.old ++ pieces_of placed.now at.k (o.GlobalGet to slot)) }
{
    let rd = made_in(placed, at, to);
    add(
        out,
        &[find_global(slot), load(rd, 1, 0), keep(placed, at, to)],
    )
}

/// Writes a global.
pub(crate) fn set_global(
    out: &mut Seq<Piece>,
    placed: &Placed,
    slot: u32,
    from: u32,
) -> Result<(), NoMemory>
    requires ready { IsReady placed.now }
    requires from { from < temporaries placed.now.function }
    requires slot { slot < 256 }
    requires labels { 3 * length placed.now.function.ops + 1 < 2 ^ 32 }
    ensures { OnOk result (out.new ≡ out.old ++ pieces_of placed.now 0 (o.GlobalSet slot from)) }
{
    let rs = register(placed, 0, from);
    add(
        out,
        &[bring(placed, 0, from), find_global(slot), store(rs, 1, 0)],
    )
}

/// How far behind an object's address a field stands.
fn field_offset(field: u32) -> u32
    ensures { result ≡ field_offset field }
{
    field.saturating_add(1).saturating_mul(4)
}

/// A field of the object at a register into another.
fn load_field(out: &mut Seq<Piece>, rd: u8, object: u8, field: u32) -> Result<(), NoMemory>
    ensures { OnOk result (out.new ≡ out.old ++ loads_field rd object field) }
{
    if field < 31 {
        return out.push(load(rd, object, (field + 1) as u8));
    }
    let value = field_offset(field);
    add(
        out,
        &[Piece::Number { rd: 2, value }, load_at(rd, object, 2)],
    )
}

/// A register into a field of the object at another.
fn store_field(out: &mut Seq<Piece>, rs: u8, object: u8, field: u32) -> Result<(), NoMemory>
    ensures { OnOk result (out.new ≡ out.old ++ stores_field rs object field) }
{
    if field < 31 {
        return out.push(store(rs, object, (field + 1) as u8));
    }
    let value = field_offset(field);
    add(
        out,
        &[Piece::Number { rd: 2, value }, store_at(rs, object, 2)],
    )
}

/// Reads a field.
pub(crate) fn get_field(
    out: &mut Seq<Piece>,
    placed: &Placed,
    at: At,
    to: u32,
    object: u32,
    field: u32,
) -> Result<(), NoMemory>
    requires ready { IsReady placed.now }
    requires told { IsOpTold placed.now at }
    requires to { to < temporaries placed.now.function }
    requires object { object < temporaries placed.now.function }
    requires label { 3 * at.k + 1 < 2 ^ 32 }
    requires labels { 3 * length placed.now.function.ops + 1 < 2 ^ 32 }
    ensures { OnOk result (out.new ≡ out.old ++ pieces_of placed.now at.k (o.FieldGet to object field)) }
{
    out.push(bring(placed, 0, object))?;
    let rn = register(placed, 0, object);
    test_null(out, rn, 3 * at.k + 1)?;
    load_field(out, made_in(placed, at, to), rn, field)?;
    out.push(keep(placed, at, to))
}

/// Writes a field.
pub(crate) fn set_field(
    out: &mut Seq<Piece>,
    placed: &Placed,
    at: At,
    object: u32,
    field: u32,
    from: u32,
) -> Result<(), NoMemory>
    requires ready { IsReady placed.now }
    requires object { object < temporaries placed.now.function }
    requires from { from < temporaries placed.now.function }
    requires label { 3 * at.k + 1 < 2 ^ 32 }
    requires labels { 3 * length placed.now.function.ops + 1 < 2 ^ 32 }
    ensures { OnOk result (out.new ≡ out.old ++ pieces_of placed.now at.k (o.FieldSet object field from)) }
{
    out.push(bring(placed, 0, object))?;
    let rn = register(placed, 0, object);
    test_null(out, rn, 3 * at.k + 1)?;
    out.push(bring(placed, 1, from))?;
    store_field(out, register(placed, 1, from), rn, field)
}

/// How far behind the items' address the one with the index in a register stands, into r1.
fn scaled(index: u8) -> Piece
    ensures { result ≡ p.Plain (i.LslImm 1 index 2) }
{
    Piece::Plain(Instr::LslImm {
        rd: 1,
        rm: index,
        imm: 2,
    })
}

/// The address of the items of the array at a register into r2, and how far behind it that of the index in another stands into r1.
fn find_item(out: &mut Seq<Piece>, array: u8, index: u8) -> Result<(), NoMemory>
    ensures { OnOk result (out.new ≡ out.old ++ finds_item array index) }
{
    add(out, &[load(2, array, 3), scaled(index)])
}

/// The array isn't null and the index is below its length; then the item's address.
fn test_item(
    out: &mut Seq<Piece>,
    array: u8,
    index: u8,
    null: u32,
    past: u32,
) -> Result<(), NoMemory>
    ensures { OnOk result
        (out.new ≡ out.old ++ (tests_null array null ++ (tests_index array index past ++ finds_item array index))) }
{
    test_null(out, array, null)?;
    test_index(out, array, index, past)?;
    find_item(out, array, index)
}

/// Comes to an item, whose address is then the sum of r2 and r1.
fn reach_item(
    out: &mut Seq<Piece>,
    placed: &Placed,
    at: At,
    array: u32,
    index: u32,
) -> Result<(), NoMemory>
    requires ready { IsReady placed.now }
    requires array { array < temporaries placed.now.function }
    requires index { index < temporaries placed.now.function }
    requires label { 3 * at.k + 2 < 2 ^ 32 }
    requires labels { 3 * length placed.now.function.ops + 1 < 2 ^ 32 }
    ensures { OnOk result (out.new ≡ out.old ++ reaches_item placed.now at.k array index) }
{
    add(out, &[bring(placed, 0, array), bring(placed, 1, index)])?;
    let rn = register(placed, 0, array);
    test_item(
        out,
        rn,
        register(placed, 1, index),
        3 * at.k + 1,
        3 * at.k + 2,
    )
}

/// Reads an item.
pub(crate) fn get_item(
    out: &mut Seq<Piece>,
    placed: &Placed,
    at: At,
    to: u32,
    array: u32,
    index: u32,
) -> Result<(), NoMemory>
    requires ready { IsReady placed.now }
    requires told { IsOpTold placed.now at }
    requires to { to < temporaries placed.now.function }
    requires array { array < temporaries placed.now.function }
    requires index { index < temporaries placed.now.function }
    requires label { 3 * at.k + 2 < 2 ^ 32 }
    requires labels { 3 * length placed.now.function.ops + 1 < 2 ^ 32 }
    ensures { OnOk result (out.new ≡ out.old ++ pieces_of placed.now at.k (o.ItemGet to array index)) }
{
    reach_item(out, placed, at, array, index)?;
    let rd = made_in(placed, at, to);
    add(out, &[load_at(rd, 2, 1), keep(placed, at, to)])
}

/// Writes an item.
pub(crate) fn set_item(
    out: &mut Seq<Piece>,
    placed: &Placed,
    at: At,
    array: u32,
    index: u32,
    from: u32,
) -> Result<(), NoMemory>
    requires ready { IsReady placed.now }
    requires array { array < temporaries placed.now.function }
    requires index { index < temporaries placed.now.function }
    requires from { from < temporaries placed.now.function }
    requires label { 3 * at.k + 2 < 2 ^ 32 }
    requires labels { 3 * length placed.now.function.ops + 1 < 2 ^ 32 }
    ensures { OnOk result (out.new ≡ out.old ++ pieces_of placed.now at.k (o.ItemSet array index from)) }
{
    reach_item(out, placed, at, array, index)?;
    let rs = register(placed, 3, from);
    add(out, &[bring(placed, 3, from), store_at(rs, 2, 1)])
}

/// The length of an array.
pub(crate) fn length(
    out: &mut Seq<Piece>,
    placed: &Placed,
    at: At,
    to: u32,
    array: u32,
) -> Result<(), NoMemory>
    requires ready { IsReady placed.now }
    requires told { IsOpTold placed.now at }
    requires to { to < temporaries placed.now.function }
    requires array { array < temporaries placed.now.function }
    requires label { 3 * at.k + 1 < 2 ^ 32 }
    requires labels { 3 * length placed.now.function.ops + 1 < 2 ^ 32 }
    ensures { OnOk result (out.new ≡ out.old ++ pieces_of placed.now at.k (o.Length to array)) }
{
    out.push(bring(placed, 0, array))?;
    let rn = register(placed, 0, array);
    test_null(out, rn, 3 * at.k + 1)?;
    out.push(load(made_in(placed, at, to), rn, 1))?;
    out.push(keep(placed, at, to))
}

/// The last item of the array at a register into another, and the array's length one less.
fn take_last(out: &mut Seq<Piece>, rd: u8, array: u8, label: u32) -> Result<(), NoMemory>
    ensures { OnOk result (out.new ≡ out.old ++ pops rd array label) }
{
    add(
        out,
        &[
            load(1, array, 1),
            Piece::Plain(Instr::CmpImm { rd: 1, imm: 0 }),
        ],
    )?;
    unless(out, NE, 104, label)?;
    add(
        out,
        &[
            Piece::Plain(Instr::SubImm8 { rd: 1, imm: 1 }),
            store(1, array, 1),
            load(2, array, 3),
            scaled(1),
            load_at(rd, 2, 1),
        ],
    )
}

/// Takes the last item off an array.
pub(crate) fn pop(
    out: &mut Seq<Piece>,
    placed: &Placed,
    at: At,
    to: u32,
    array: u32,
) -> Result<(), NoMemory>
    requires ready { IsReady placed.now }
    requires told { IsOpTold placed.now at }
    requires to { to < temporaries placed.now.function }
    requires array { array < temporaries placed.now.function }
    requires label { 3 * at.k + 2 < 2 ^ 32 }
    requires labels { 3 * length placed.now.function.ops + 1 < 2 ^ 32 }
    ensures { OnOk result (out.new ≡ out.old ++ pieces_of placed.now at.k (o.Pop to array)) }
{
    out.push(bring(placed, 0, array))?;
    let rn = register(placed, 0, array);
    test_null(out, rn, 3 * at.k + 1)?;
    take_last(out, made_in(placed, at, to), rn, 3 * at.k + 2)?;
    out.push(keep(placed, at, to))
}

/// A text.
pub(crate) fn text(
    out: &mut Seq<Piece>,
    placed: &Placed,
    at: At,
    to: u32,
    text: u32,
) -> Result<(), NoMemory>
    requires ready { IsReady placed.now }
    requires told { IsOpTold placed.now at }
    requires to { to < temporaries placed.now.function }
    requires labels { 3 * length placed.now.function.ops + 1 < 2 ^ 32 }
    ensures { OnOk result (out.new ≡ out.old ++ pieces_of placed.now at.k (o.TextOf to text)) }
{
    let what = What::Text(text);
    let rd = made_in(placed, at, to);
    add(out, &[Piece::Address { rd, what }, keep(placed, at, to)])
}

/// A new object.
pub(crate) fn make_object(
    out: &mut Seq<Piece>,
    placed: &Placed,
    at: At,
    to: u32,
    class: u32,
) -> Result<(), NoMemory>
    requires ready { IsReady placed.now }
    requires told { IsOpTold placed.now at }
    requires to { to < temporaries placed.now.function }
    requires labels { 3 * length placed.now.function.ops + 1 < 2 ^ 32 }
    ensures { OnOk result (out.new ≡ out.old ++ pieces_of placed.now at.k (o.MakeObject to class)) }
{
    let what = What::Class(class);
    add(
        out,
        &[
            Piece::Address { rd: 1, what },
            load(0, 1, 0),
            Piece::Plain(Instr::Svc { imm: 18 }),
            store(1, 0, 0),
            land(placed, at, to),
        ],
    )
}

/// A new array without items.
pub(crate) fn make_array(
    out: &mut Seq<Piece>,
    placed: &Placed,
    at: At,
    to: u32,
    room: u32,
) -> Result<(), NoMemory>
    requires ready { IsReady placed.now }
    requires told { IsOpTold placed.now at }
    requires to { to < temporaries placed.now.function }
    requires labels { 3 * length placed.now.function.ops + 1 < 2 ^ 32 }
    ensures { OnOk result (out.new ≡ out.old ++ pieces_of placed.now at.k (o.MakeArray to room)) }
{
    let words = room.saturating_add(4);
    add(
        out,
        &[
            Piece::Number {
                rd: 0,
                value: words,
            },
            Piece::Plain(Instr::Svc { imm: 18 }),
            Piece::Number { rd: 1, value: room },
            store(1, 0, 2),
            Piece::Plain(Instr::MovHigh { rd: 1, rm: 0 }),
            Piece::Plain(Instr::AddImm8 { rd: 1, imm: 16 }),
            store(1, 0, 3),
            land(placed, at, to),
        ],
    )
}
