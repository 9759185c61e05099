// What a function expression gives.
ghost use Rattle.std.specs.Prelude.{◌≡◌, None, IfOk, IfErr};
ghost use Rattle.sts_syntax.specs.Views.{parameters, optional_annotation, statements};
ghost use Rattle.type_derive.specs.Nodes as node;
ghost use Rattle.type_derive.specs.Returns as derive;
ghost use Rattle.type_derive.specs.Scopes.{place, naming};

use crate::beginnings::handler_scope;
use crate::context::Context;
use crate::returns::returned_in_block;
use crate::scopes::Scope;
use crate::wanted::Wanted;
use sts_base::{NoMemory, Refused};
use sts_scope::{Base, StaticType, flat, kind_of, or_no_memory};
use sts_syntax::{Param, Shape, Stmt};

/// The type of the first value that a function expression returns, if it returns one.
fn first_returned(
    context: &Context,
    scope: &Scope,
    params: &[Param],
    all: &[Stmt],
) -> Result<Option<Option<StaticType>>, NoMemory>
    ensures { IfOk result (λ r. r ≡ derive.all_returned context.now.tables.now
        (naming context.now) context.now.known.now
        (node.handler_within (naming context.now) (place scope.now)
        (parameters params.now) None) (statements all.now)) }
{
    let mut inside = handler_scope(context, &*scope, params, None)?;
    let mut wanted = Wanted::nothing(context.alloc);
    returned_in_block(&mut wanted, context, &mut inside, all)
}

/// The result that is written at a function expression, else that of the first value that it returns.
pub fn handler_result(
    context: &Context,
    scope: &Scope,
    params: &[Param],
    gives: &Option<Shape>,
    all: &[Stmt],
) -> Result<Option<StaticType>, Refused>
    ensures ok { IfOk result (λ kind. kind ≡ node.handler_result context.now.tables.now
        (naming context.now) context.now.known.now (place scope.now) (parameters params.now)
        (optional_annotation gives.now) (statements all.now)) }
    ensures err { IfErr result (λ e. e ≡ Refused.NoMemory) }
{
    match gives {
        Some(shape) => Ok(kind_of(context.classes, shape)),
        None => {
            let first = or_no_memory(first_returned(context, scope, params, all))?;
            match first {
                None => Ok(Some(flat(Base::Nothing))),
                Some(kind) => Ok(kind),
            }
        }
    }
}
