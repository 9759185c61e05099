// Where the bodies of loops begin.
ghost use Rattle.std.specs.Prelude.{◌≡◌, length, IfOk, IfErr, OnOk};
ghost use Rattle.sts_scope.specs.Places as name;
ghost use Rattle.type_derive.specs.Scopes.{place};
ghost use Rattle.type_derive.specs.Returns.{items_of};

use sts_base::Refused;
use sts_scope::{StaticType, is_array, item, or_no_memory};
use type_derive::{Mark, Scope, declare, enter};

/// Begins the body of a loop that goes through what has a type. Gives where the block around it begins.
pub fn enter_loop(
    scope: &mut Scope,
    x: u32,
    kind: Option<StaticType>,
    fixed: bool,
) -> Result<Mark, Refused>
    ensures place { OnOk result (place scope.new
        ≡ name.with (name.inner (place scope.old)) x (items_of kind) fixed) }
    ensures locals { IfOk result (λ m. m.locals ≡ length (place scope.old).locals) }
    ensures block { IfOk result (λ m. m.block ≡ (place scope.old).block) }
    ensures err { IfErr result (λ e. e ≡ Refused.NoMemory) }
{
    let mark = enter(scope);
    or_no_memory(declare(scope, x, listed_kind(kind), fixed))?;
    Ok(mark)
}

/// The type of the items that a loop goes through.
fn listed_kind(kind: Option<StaticType>) -> Option<StaticType>
    ensures { result ≡ items_of kind }
{
    match kind {
        None => None,
        Some(t) => { if is_array(t) { Some(item(t)) } else { None } }
    }
}
