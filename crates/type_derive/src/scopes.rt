// Where something stands, and what names stand for there.
ghost use Rattle.std.specs.Prelude.{◌≡◌, ◌≤◌, length};
ghost use Rattle.sts_scope.specs.Places as name;
ghost use Rattle.sts_scope.specs.Rules as rule;
ghost use Rattle.type_derive.specs.Scopes.{place};

use crate::locals::Locals;
use sts_base::Tables;
use sts_scope::{
    Base, DeclarationKind, Entry, Environment, Found, Owner, Part, StaticType, This, class_of,
    flat, is_array, is_dollar, is_spelled, item, same, sort_of,
};

/// Where something stands.
#[derive(Drop)]
pub struct Scope<'a> {
    /// the parameters and locals in scope, and those of the functions around
    pub locals: Locals<'a>,
    /// what `this` is
    pub this: This,
    /// what a `return` gives, where it is known
    pub gives: Option<StaticType>,
    /// whether it is the library
    pub library: bool,
}

fn entry_found(d: usize, sort: DeclarationKind) -> Found
    ensures { result ≡ name.entry_found d sort }
{
    match sort {
        DeclarationKind::Global { fixed: _ } => Found::Global(d),
        DeclarationKind::Function => Found::Function(d),
        DeclarationKind::Class(c) => Found::Class(c),
        DeclarationKind::Field => Found::Unknown,
        DeclarationKind::Method => Found::Unknown,
    }
}

/// The declaration of the whole text of a name.
fn global_named(known: &Environment, library: bool, x: u32) -> Found
    ensures { result ≡ name.global_named known.now library x }
{
    match known.entries().number(Owner::Whole, x) {
        None => Found::Unknown,
        Some(d) => {
            if library && known.library() <= d {
                Found::Unknown
            } else {
                match sort_of(known.entries().as_slice(), d) {
                    None => Found::Unknown,
                    Some(sort) => entry_found(d, sort),
                }
            }
        }
    }
}

/// The function's innermost local of a name, else one of a function around, else the declaration of the whole text.
fn found_among(known: &Environment, scope: &Scope, x: u32) -> Found
    ensures { result ≡ name.found_among known.now (place scope.now) x (name.last_named (place scope.now).locals x) }
{
    match scope.locals.named(x) {
        Some(found) => found,
        None => global_named(known, scope.library, x),
    }
}

/// What a name stands for.
pub fn name_found(tables: &Tables, known: &Environment, scope: &Scope, x: u32) -> Found
    ensures { result ≡ name.name_found tables.now.names known.now (place scope.now) x }
{
    if !scope.library && is_dollar(tables, x) {
        return Found::Unknown;
    }
    found_among(known, scope, x)
}

/// Whether a local of a name stands in the block.
pub fn is_twice(scope: &Scope, x: u32) -> bool
    ensures { result ≡ name.is_twice (place scope.now) x }
{
    scope.locals.is_twice(x)
}

/// The type of a declaration.
pub fn kind_at(known: &Environment, d: usize) -> Option<StaticType>
    ensures { result ≡ rule.kind_at known.now d }
{
    match known.kinds().get(d) {
        None => None,
        Some(kind) => *kind,
    }
}

/// The type of a name.
pub fn name_kind(known: &Environment, scope: &Scope, found: Found) -> Option<StaticType>
    ensures { result ≡ rule.name_kind known.now (place scope.now) found }
{
    match found {
        Found::Local(i) => match scope.locals.get(i) {
            None => None,
            Some(l) => l.kind,
        },
        Found::Global(d) => kind_at(known, d),
        Found::Captured => None,
        Found::Function(_) => None,
        Found::Class(_) => None,
        Found::Unknown => None,
    }
}

/// The type of `this`.
pub fn this_kind(this: This) -> Option<StaticType>
    ensures { result ≡ rule.this_kind this }
{
    match this {
        This::Object(c) => Some(flat(Base::Class(c))),
        This::Hidden(_) => None,
        This::Nowhere => None,
    }
}

fn sort_fixed(sort: Option<DeclarationKind>) -> bool
    ensures { result ≡ rule.sort_fixed sort }
{
    match sort {
        None => false,
        Some(DeclarationKind::Global { fixed }) => fixed,
        Some(DeclarationKind::Function) => false,
        Some(DeclarationKind::Class(_)) => false,
        Some(DeclarationKind::Field) => false,
        Some(DeclarationKind::Method) => false,
    }
}

/// Whether a name is `const`.
pub fn name_fixed(known: &Environment, scope: &Scope, found: Found) -> bool
    ensures { result ≡ rule.name_fixed known.now (place scope.now) found }
{
    match found {
        Found::Local(i) => match scope.locals.get(i) {
            None => false,
            Some(l) => l.fixed,
        },
        Found::Global(d) => sort_fixed(sort_of(known.entries().as_slice(), d)),
        Found::Captured => false,
        Found::Function(_) => false,
        Found::Class(_) => false,
        Found::Unknown => false,
    }
}

/// What an array of items of a type has.
fn array_part(tables: &Tables, t: StaticType, m: u32) -> Part
    ensures { result ≡ rule.array_part tables.now.names t m }
{
    if is_spelled(tables, m, b"length") {
        Part::Length
    } else if is_spelled(tables, m, b"push") {
        Part::Push(t)
    } else if is_spelled(tables, m, b"pop") {
        Part::Pop(t)
    } else {
        Part::Missing
    }
}

fn member_part(d: usize, sort: Option<DeclarationKind>) -> Part
    ensures { result ≡ rule.member_part d sort }
{
    match sort {
        None => Part::Missing,
        Some(DeclarationKind::Field) => Part::Field(d),
        Some(DeclarationKind::Method) => Part::Method(d),
        Some(DeclarationKind::Function) => Part::Missing,
        Some(DeclarationKind::Class(_)) => Part::Missing,
        Some(DeclarationKind::Global { fixed: _ }) => Part::Missing,
    }
}

fn class_part(known: &Environment, class: Option<u32>, m: u32) -> Part
    ensures { result ≡ rule.class_part known.now class m }
{
    match class {
        None => Part::Missing,
        Some(c) => match known.member(c, m) {
            None => Part::Missing,
            Some(d) => member_part(d, sort_of(known.entries().as_slice(), d)),
        },
    }
}

/// What stands behind the dot of a value of a type.
#[tactic(auto, unfolding(sts_scope::specs::Rules::part_of))]
pub fn part_of(tables: &Tables, known: &Environment, t: StaticType, m: u32) -> Part
    ensures { result ≡ rule.part_of tables.now.names known.now t m }
{
    if is_array(t) {
        array_part(tables, item(t), m)
    } else {
        class_part(known, class_of(t), m)
    }
}

/// The type of a member that is read.
pub fn part_kind(known: &Environment, part: Part) -> Option<StaticType>
    ensures { result ≡ rule.part_kind known.now part }
{
    match part {
        Part::Field(d) => kind_at(known, d),
        Part::Method(_) => None,
        Part::Length => Some(flat(Base::Number)),
        Part::Push(_) => None,
        Part::Pop(_) => None,
        Part::Missing => None,
    }
}

/// Whether a member may be set.
pub fn part_settable(part: Part) -> bool
    ensures { result ≡ rule.part_settable part }
{
    match part {
        Part::Field(_) => true,
        Part::Method(_) => false,
        Part::Length => false,
        Part::Push(_) => false,
        Part::Pop(_) => false,
        Part::Missing => false,
    }
}

fn takes_nothing(entries: &[Entry], d: usize) -> bool
    ensures { result ≡ rule.none_taken (rule.takes_at entries.now d) }
{
    match entries.get(d) {
        None => true,
        Some(e) => match e.takes.as_slice() {
            [] => true,
            [_, ..] => false,
        },
    }
}

/// Whether a name is that of a function without parameters and without a value.
#[tactic(auto, unfolding(sts_scope::specs::Rules::serves))]
pub fn serves(known: &Environment, found: Found) -> bool
    ensures { result ≡ rule.serves known.now found }
{
    match found {
        Found::Function(d) => {
            takes_nothing(known.entries().as_slice(), d)
                && match kind_at(known, d) {
                    None => false,
                    Some(t) => same(t, flat(Base::Nothing)),
                }
        }
        Found::Local(_) => false,
        Found::Captured => false,
        Found::Global(_) => false,
        Found::Class(_) => false,
        Found::Unknown => false,
    }
}
