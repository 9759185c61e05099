//! Pieces of calls, services, jumps and returns.
ghost use Rattle.std.specs.Prelude.{◌≡◌, ◌+◌, ◌*◌, ◌^◌, ◌<◌, ◌≤◌, ◌++◌, length, OnOk};
ghost use Rattle.std.specs.List.{AllByRecursion};
ghost use Rattle.flat_ir.specs.declared.ops.Op.TheVariants as o;
ghost use Rattle.flat_ir.specs.WellFormed.{temporaries};
ghost use Rattle.register_assign.specs.Sound.{place_of};
ghost use Rattle.thumb_emit.specs.Emit.{passes, loads, answers_in_r0, asks, calls_slot};
ghost use Rattle.thumb_emit.specs.Ready.{IsReady, IsOpTold, IsJoinTold, pieces_of};

use crate::frame::{below_saved, bring, get, keep, land, made_in, raise, register, saved_list};
use crate::pieces::{ALWAYS, At, NE, add, load, test_null};
use board_services::{BUTTON, EVENT_VALUE, NUMBER_GLYPH, TEXT_GLYPH, TIME};
use register_assign::Placed;
use sts_base::{NoMemory, Seq};
use thumb_code::Instr;
use thumb_layout::{Piece, What};

/// Arguments into outgoing words.
fn pass(out: &mut Seq<Piece>, placed: &Placed, args: &[u32]) -> Result<(), NoMemory>
    requires ready { IsReady placed.now }
    requires known { AllByRecursion (λ t. t < temporaries placed.now.function) args.now }
    requires few { length args.now ≤ placed.now.function.outgoing }
    requires labels { 3 * length placed.now.function.ops + 1 < 2 ^ 32 }
    ensures { OnOk result (out.new ≡ out.old ++ passes placed.now.function (place_of placed.now.places) 0 args.now) }
{
    for (at, t) in args.iter().enumerate() {
        out.push(bring(placed, 0, *t))?;
        let rt = register(placed, 0, *t);
        let imm = at as u8;
        out.push(Piece::Plain(Instr::StrSp { rt, imm }))?;
    }
    Ok(())
}

/// Arguments into registers, from r0 on.
fn load_arguments(out: &mut Seq<Piece>, placed: &Placed, args: &[u32]) -> Result<(), NoMemory>
    requires ready { IsReady placed.now }
    requires known { AllByRecursion (λ t. t < temporaries placed.now.function) args.now }
    requires few { length args.now ≤ 4 }
    ensures { OnOk result (out.new ≡ out.old ++ loads placed.now.function (place_of placed.now.places) 0 args.now) }
{
    for (at, t) in args.iter().enumerate() {
        out.push(get(placed, at as u8, *t))?;
    }
    Ok(())
}

/// Calls a function.
pub(crate) fn call(
    out: &mut Seq<Piece>,
    placed: &Placed,
    at: At,
    to: u32,
    function: u32,
    args: &Seq<u32>,
) -> Result<(), NoMemory>
    requires ready { IsReady placed.now }
    requires told { IsOpTold placed.now at }
    requires to { to < temporaries placed.now.function }
    requires known { AllByRecursion (λ t. t < temporaries placed.now.function) args.now }
    requires few { length args.now ≤ placed.now.function.outgoing }
    requires labels { 3 * length placed.now.function.ops + 1 < 2 ^ 32 }
    ensures { OnOk result (out.new ≡ out.old ++ pieces_of placed.now at.k (o.Call to function args.now)) }
{
    pass(out, placed, args.as_slice())?;
    add(out, &[Piece::CallTo { function }, land(placed, at, to)])
}

/// Calls the method in a slot of the class of the object in the first outgoing word.
fn call_method(out: &mut Seq<Piece>, slot: u32, label: u32) -> Result<(), NoMemory>
    requires { slot < 30 }
    ensures { OnOk result (out.new ≡ out.old ++ calls_slot slot label) }
{
    out.push(Piece::Plain(Instr::LdrSp { rt: 0, imm: 0 }))?;
    test_null(out, 0, label)?;
    let at = (slot + 1) as u8;
    add(
        out,
        &[
            load(1, 0, 0),
            load(1, 1, at),
            Piece::Plain(Instr::Blx { rm: 1 }),
        ],
    )
}

/// Calls a method through a slot.
pub(crate) fn call_slot(
    out: &mut Seq<Piece>,
    placed: &Placed,
    at: At,
    to: u32,
    slot: u32,
    args: &Seq<u32>,
) -> Result<(), NoMemory>
    requires ready { IsReady placed.now }
    requires told { IsOpTold placed.now at }
    requires to { to < temporaries placed.now.function }
    requires slot { slot < 30 }
    requires known { AllByRecursion (λ t. t < temporaries placed.now.function) args.now }
    requires few { length args.now ≤ placed.now.function.outgoing }
    requires label { 3 * at.k + 1 < 2 ^ 32 }
    requires labels { 3 * length placed.now.function.ops + 1 < 2 ^ 32 }
    ensures { OnOk result (out.new ≡ out.old ++ pieces_of placed.now at.k (o.CallSlot to slot args.now)) }
{
    pass(out, placed, args.as_slice())?;
    call_method(out, slot, 3 * at.k + 1)?;
    out.push(land(placed, at, to))
}

/// A function as a value.
pub(crate) fn handler(
    out: &mut Seq<Piece>,
    placed: &Placed,
    at: At,
    to: u32,
    function: u32,
) -> Result<(), NoMemory>
    requires ready { IsReady placed.now }
    requires told { IsOpTold placed.now at }
    requires to { to < temporaries placed.now.function }
    requires labels { 3 * length placed.now.function.ops + 1 < 2 ^ 32 }
    ensures { OnOk result (out.new ≡ out.old ++ pieces_of placed.now at.k (o.HandlerOf to function)) }
{
    let what = What::Function(function);
    let rd = made_in(placed, at, to);
    add(out, &[Piece::Address { rd, what }, keep(placed, at, to)])
}

/// The services that answer in r0.
fn answers_in_r0(service: u8) -> bool
    ensures { result ≡ answers_in_r0 service }
{
    service == TIME
        || service == EVENT_VALUE
        || service == BUTTON
        || service == TEXT_GLYPH
        || service == NUMBER_GLYPH
}

/// Asks for a service of the board.
pub(crate) fn ask(
    out: &mut Seq<Piece>,
    placed: &Placed,
    at: At,
    to: u32,
    service: u8,
    args: &Seq<u32>,
) -> Result<(), NoMemory>
    requires ready { IsReady placed.now }
    requires told { IsOpTold placed.now at }
    requires to { to < temporaries placed.now.function }
    requires known { AllByRecursion (λ t. t < temporaries placed.now.function) args.now }
    requires few { length args.now ≤ 4 }
    requires labels { 3 * length placed.now.function.ops + 1 < 2 ^ 32 }
    ensures { OnOk result (out.new ≡ out.old ++ pieces_of placed.now at.k (o.Ask to service args.now)) }
{
    load_arguments(out, placed, args.as_slice())?;
    put_service(out, at.unread, service)?;
    out.push(land(placed, at, to))
}

/// A service; behind one that doesn't answer r0 becomes 0, unless nobody reads that.
fn put_service(out: &mut Seq<Piece>, unread: bool, service: u8) -> Result<(), NoMemory>
    ensures { OnOk result (out.new ≡ out.old ++ asks unread service) }
{
    let asked = Piece::Plain(Instr::Svc { imm: service });
    if unread || answers_in_r0(service) {
        return out.push(asked);
    }
    add(out, &[asked, Piece::Plain(Instr::MovImm { rd: 0, imm: 0 })])
}

/// Goes on at another op.
pub(crate) fn jump(out: &mut Seq<Piece>, placed: &Placed, target: u32) -> Result<(), NoMemory>
    requires { 3 * target < 2 ^ 32 }
    ensures { OnOk result (out.new ≡ out.old ++ pieces_of placed.now 0 (o.Jump target)) }
{
    out.push(Piece::Go {
        cond: ALWAYS,
        label: 3 * target,
    })
}

/// Goes on at another op where a value isn't 0: by the flags, where the op before compared.
pub(crate) fn branch(
    out: &mut Seq<Piece>,
    placed: &Placed,
    at: At,
    when: u32,
    target: u32,
) -> Result<(), NoMemory>
    requires ready { IsReady placed.now }
    requires joins { IsJoinTold placed.now at }
    requires when { when < temporaries placed.now.function }
    requires label { 3 * target < 2 ^ 32 }
    requires labels { 3 * length placed.now.function.ops + 1 < 2 ^ 32 }
    ensures { OnOk result (out.new ≡ out.old ++ pieces_of placed.now at.k (o.Branch when target)) }
{
    let label = 3 * target;
    if let Some(cond) = at.joined {
        return out.push(Piece::Go { cond, label });
    }
    let rd = register(placed, 0, when);
    add(
        out,
        &[
            bring(placed, 0, when),
            Piece::Plain(Instr::CmpImm { rd, imm: 0 }),
            Piece::Go { cond: NE, label },
        ],
    )
}

/// Returns to the caller.
pub(crate) fn give(out: &mut Seq<Piece>, placed: &Placed, from: u32) -> Result<(), NoMemory>
    requires ready { IsReady placed.now }
    requires from { from < temporaries placed.now.function }
    ensures { OnOk result (out.new ≡ out.old ++ pieces_of placed.now 0 (o.Return from)) }
{
    out.push(get(placed, 0, from))?;
    raise(out, below_saved(placed))?;
    let list = saved_list(placed);
    out.push(Piece::Plain(Instr::Pop { list, p: true }))
}
