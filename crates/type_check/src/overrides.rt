// Methods against those of bases that they stand in for.
ghost use Rattle.std.specs.Prelude.{◌≡◌, ◌+◌, ◌^◌, ◌<◌, length, IfOk};
ghost use Rattle.sts_base.specs.declared.refused.Code.TheVariants as code;
ghost use Rattle.sts_syntax.specs.Programs.{class_member, class_members, top_level, top_levels};
ghost use Rattle.sts_syntax.specs.Views.{routine};
ghost use Rattle.sts_scope.specs.Entries as entry;
ghost use Rattle.sts_scope.specs.Failures as failure;
ghost use Rattle.sts_scope.specs.Failures.{Finds};
ghost use Rattle.sts_scope.specs.Headings as heading;
ghost use Rattle.sts_scope.specs.Lookup as look;
ghost use Rattle.text_headings.specs.Standing.{classes_before, IsItemAt, IsTextAt};
ghost use Rattle.type_derive.specs.Passes as pass;
ghost use Rattle.type_derive.specs.Scopes.{naming};
ghost use Rattle.type_check.specs.Texts.{override_failure};

use sts_base::{Code, Refused};
use sts_scope::{Environment, StaticType, same, unless};
use sts_syntax::{Body, Item, Member};
use text_headings::{class_at, globals_in};
use type_derive::{Context, kind_at, takes_at};

/// Whether two lists of types are the same.
fn same_kinds(ss: &[StaticType], ts: &[StaticType]) -> bool
    ensures { result ≡ pass.same_kinds ss.now ts.now }
{
    if ss.len() != ts.len() {
        return false;
    }
    for i in 0..ss.len() {
        if !same(ss[i], ts[i]) {
            return false;
        }
    }
    true
}

/// Whether two results are the same; one that can't be derived counts as equal to every other.
fn same_result(s: Option<StaticType>, t: Option<StaticType>) -> bool
    ensures { result ≡ pass.same_result s t }
{
    match (s, t) {
        (Some(s), Some(t)) => same(s, t),
        (Some(_), None) => true,
        (None, _) => true,
    }
}

/// Whether a method agrees with the one of a base that it stands in for.
fn agrees(known: &Environment, d: usize, base: Option<usize>) -> bool
    ensures { result ≡ pass.agrees known.now d base }
{
    match base {
        None => true,
        Some(e) => {
            same_kinds(takes_at(known, d), takes_at(known, e))
                && same_result(kind_at(known, d), kind_at(known, e))
        }
    }
}

/// A method against the nearest one of its name in its bases.
fn check_method(known: &Environment, c: u32, d: usize, x: u32, body: &Body) -> Result<(), Refused>
    ensures { Finds result (failure.unless (pass.agrees known.now d
        (look.inherited known.now.entries known.now.classes c x)) code.Mismatch
        (heading.routine_at (routine body.now))) }
{
    let base = known.inherited(c, x);
    let at = body.at;
    unless(agrees(known, d, base), Code::Mismatch, at)
}

/// A member against its class's bases.
fn check_override(known: &Environment, c: u32, d: usize, member: &Member) -> Result<(), Refused>
    ensures { Finds result (override_failure known.now c d (class_member member.now)) }
{
    match member {
        Member::Field(_) => Ok(()),
        Member::Method { name, body } => check_method(known, c, d, *name, body),
        Member::Constructor(_) => Ok(()),
    }
}

/// The number of the declaration behind a member; a constructor is none.
pub fn behind_member(context: &Context, c: u32, d: usize, member: &Member) -> usize
    requires { d + length (entry.member_entry (naming context.now) c (class_member member.now)) < 2 ^ 64 }
    ensures { result ≡ d + length (entry.member_entry (naming context.now) c (class_member member.now)) }
{
    match member {
        Member::Field(_) => d + 1,
        Member::Method { name: _, body: _ } => d + 1,
        Member::Constructor(_) => d,
    }
}

/// The methods of a class, whose first member is the d-th declaration, against those of its bases. The number of the declaration behind the class.
fn check_overrides(
    context: &Context,
    c: u32,
    first: usize,
    members: &[Member],
) -> Result<usize, Refused>
    requires { first + length (entry.member_entries (naming context.now) c (class_members members.now)) < 2 ^ 64 }
    ensures found { Finds result (pass.overrides_failure context.now.known.now c first (class_members members.now)) }
    ensures next { IfOk result (λ n. n ≡ first
        + length (entry.member_entries (naming context.now) c (class_members members.now))) }
{
    let mut d = first;
    for i in 0..members.len() {
        check_override(context.known, c, d, &members[i])?;
        d = behind_member(context, c, d, &members[i]);
    }
    Ok(d)
}

/// A part of a text, whose first declaration is the d-th. The number of the declaration behind it.
fn check_item_overrides(context: &Context, d: usize, item: &Item) -> Result<usize, Refused>
    requires room { d + length (entry.item_entries (naming context.now) (classes_before context.now.known.now.entries d)
        (top_level item.now)) < 2 ^ 64 }
    requires stands { IsItemAt (naming context.now) context.now.known.now.entries d (top_level item.now) }
    ensures found { Finds result (pass.item_overrides context.now.known.now
        (classes_before context.now.known.now.entries d) d (top_level item.now)) }
    ensures next { IfOk result (λ n. n ≡ d + length
        (entry.item_entries (naming context.now) (classes_before context.now.known.now.entries d)
        (top_level item.now))) }
{
    match item {
        Item::Class {
            at: _,
            name: _,
            base: _,
            base_at: _,
            members,
        } => {
            let c = class_at(context.known, d);
            check_overrides(context, c, d + 1, members.as_slice())
        }
        Item::Function { name: _, body: _ } => Ok(d + 1),
        Item::Stmt(s) => Ok(d + globals_in(s)),
    }
}

/// All methods of a text, whose first declaration is this one, against those of bases.
pub fn check_all_overrides(context: &Context, first: usize, items: &[Item]) -> Result<(), Refused>
    requires { IsTextAt (naming context.now) context.now.known.now.entries first (top_levels items.now) }
    ensures { Finds result (pass.all_overrides context.now.known.now (naming context.now)
        (classes_before context.now.known.now.entries first) first (top_levels items.now)) }
{
    // (all declarations are in memory: that bounds every number of one)
    let _count = context.known.entries().len();
    let mut d = first;
    for i in 0..items.len() {
        d = check_item_overrides(context, d, &items[i])?;
    }
    Ok(())
}
