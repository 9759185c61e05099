// Why a node has no type although its parts have.
ghost use Rattle.std.specs.Prelude.{◌≡◌};
ghost use Rattle.sts_scope.specs.Codes as code;
ghost use Rattle.type_derive.specs.declared.roles.Role.TheVariants as role;
ghost use Rattle.type_derive.specs.Nodes as node;

use sts_base::Code;
use sts_scope::{Environment, Found, Part, StaticType, This};
use type_derive::{Role, kind_at};

/// Why a name can't be read.
fn why_name(found: Found) -> Code
    ensures { result ≡ code.why_name found }
{
    match found {
        Found::Unknown => Code::UnknownName,
        Found::Class(_) => Code::UnknownName,
        Found::Captured => Code::Captures,
        Found::Local(_) => Code::NeedsType,
        Found::Global(_) => Code::NeedsType,
        Found::Function(_) => Code::BadHandler,
    }
}

/// Why a name serves no events.
fn why_served(known: &Environment, found: Found) -> Code
    ensures { result ≡ node.why_named known.now role.Served found }
{
    match found {
        Found::Function(d) => match kind_at(known, d) {
            None => Code::NeedsType,
            Some(_) => Code::BadHandler,
        },
        _ => why_name(found),
    }
}

/// Why a name can't stand in its place.
pub fn why_named(known: &Environment, role: Role, found: Found) -> Code
    ensures { result ≡ node.why_named known.now role found }
{
    match role {
        Role::Served => why_served(known, found),
        Role::Free => why_name(found),
        Role::Given => why_name(found),
        Role::Called => why_name(found),
    }
}

/// Why `this` can't be read.
pub fn why_this(this: This) -> Code
    ensures { result ≡ code.why_this this }
{
    match this {
        This::Nowhere => Code::UnknownName,
        This::Hidden(_) => Code::Captures,
        This::Object(_) => Code::Mismatch,
    }
}

/// Why a member can't be read.
pub fn why_part(part: Part) -> Code
    ensures { result ≡ code.why_part part }
{
    match part {
        Part::Missing => Code::UnknownName,
        Part::Field(_) => Code::NeedsType,
        Part::Method(_) => Code::BadHandler,
        Part::Push(_) => Code::BadHandler,
        Part::Pop(_) => Code::BadHandler,
        Part::Length => Code::Mismatch,
    }
}

/// Why a call of what gives this has no type.
pub fn why_call(gives: Option<StaticType>) -> Code
    ensures { result ≡ code.why_call gives }
{
    match gives {
        None => Code::NeedsType,
        Some(_) => Code::Mismatch,
    }
}

/// Why `new` of a name makes nothing.
pub fn why_make(found: Found) -> Code
    ensures { result ≡ code.why_make found }
{
    match found {
        Found::Captured => Code::Captures,
        Found::Unknown => Code::UnknownName,
        Found::Class(_) => Code::Mismatch,
        Found::Local(_) => Code::UnknownName,
        Found::Global(_) => Code::UnknownName,
        Found::Function(_) => Code::UnknownName,
    }
}

/// Why there is no method of a base of this name.
pub fn why_super(known: &Environment, this: This, m: u32) -> Code
    ensures { result ≡ code.why_super known.now this m }
{
    match this {
        This::Nowhere => Code::UnknownName,
        This::Object(c) => {
            if known.inherits_field(c, m) {
                Code::Mismatch
            } else {
                Code::UnknownName
            }
        }
        This::Hidden(_) => Code::Captures,
    }
}
