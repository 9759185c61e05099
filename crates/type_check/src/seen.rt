// What is seen of an expression that was gone through.
ghost use Rattle.std.specs.Prelude.{◌≡◌, Some, None, IfOk};
ghost use Rattle.sts_scope.specs.Failures as failure;
ghost use Rattle.sts_scope.specs.Failures.{Finds};
ghost use Rattle.sts_scope.specs.Kinds as kind;
ghost use Rattle.type_check.specs.Seen.{plain};

use sts_base::{Code, Refused};
use sts_scope::{Base, Part, StaticType, flat};

/// What is seen of an expression that was gone through.
#[derive(Clone, Copy)]
pub struct Seen {
    /// its type, if it has one
    pub kind: Option<StaticType>,
    /// what stands behind its dot, where it is a member of what has a type
    pub part: Option<Part>,
}

/// An expression without a dot.
pub fn plain(kind: Option<StaticType>) -> Seen
    ensures { result ≡ plain kind }
{
    Seen { kind, part: None }
}

/// An expression of a type that is always the same.
pub fn always(base: Base) -> Seen
    ensures { result ≡ plain (Some (kind.flat base)) }
{
    plain(Some(flat(base)))
}

/// An expression without a type fails.
pub fn own(kind: Option<StaticType>, code: Code, at: u32) -> Result<Seen, Refused>
    ensures found { Finds result (failure.own kind code at) }
    ensures seen { IfOk result (λ s. s ≡ plain kind) }
{
    match kind {
        Some(_) => Ok(plain(kind)),
        None => Err(Refused::Program { code, at }),
    }
}
