// Handlers: each one's function stands before those that stand in it.
ghost use Rattle.std.specs.Prelude.{◌≡◌, ◌+◌, [], length, IfOk, None};
ghost use Rattle.sts_syntax.specs.Types as value;
ghost use Rattle.sts_syntax.specs.TypedViews.{typed_tree, typed_routine, typed_routines};
ghost use Rattle.sts_syntax.specs.Views.{routine};
ghost use Rattle.typed_trees.specs.Sites as s;
ghost use Rattle.typed_trees.specs.Sites.{IsPlan};
ghost use Rattle.typed_trees.specs.Fits.{RoutineFits};
ghost use Rattle.typed_trees.specs.Functions as functions;
ghost use Rattle.typed_trees.specs.Steps as steps;
ghost use Rattle.typed_trees.specs.Steps.{IsBuilt};

use crate::build_forms::nothing_built;
use crate::build_functions::{Function, add};
use crate::build_nodes::noted;
use crate::build_numbers::one_more;
use crate::build_places::{Builder, Noted, Plan, Site};
use crate::build_statements::build_body;
use sts_base::{NoMemory, Seq};
use sts_syntax::{Body, Ty, TypedBody, TypedNode};

/// A handler's function, those that stand in it, and the number behind them.
#[derive(Drop)]
pub struct Inner {
    pub function: Function,
    pub behind: u32,
}

/// A handler's function, whose number is n.
#[cycle(build)]
fn build_inner(plan: &Plan, site: &Site, n: u32, body: &Body) -> Result<Inner, NoMemory>
    requires { IsPlan plan.now }
    ensures own { IfOk result (λ r. RoutineFits n
        (functions.routine plan.now [] value.Nothing (s.body_made plan.now (s.site site.now) (routine body.now)) n)
        → typed_routine r.function.own
        ≡ (functions.routine plan.now [] value.Nothing
        (s.body_made plan.now (s.site site.now) (routine body.now)) n).it) }
    ensures inner { IfOk result (λ r. RoutineFits n
        (functions.routine plan.now [] value.Nothing (s.body_made plan.now (s.site site.now) (routine body.now)) n)
        → typed_routines r.function.inner
        ≡ (functions.routine plan.now [] value.Nothing
        (s.body_made plan.now (s.site site.now) (routine body.now)) n).routines) }
    ensures behind { IfOk result (λ r. RoutineFits n
        (functions.routine plan.now [] value.Nothing (s.body_made plan.now (s.site site.now) (routine body.now)) n)
        → r.behind ≡ n + 1 + length (functions.routine plan.now [] value.Nothing
        (s.body_made plan.now (s.site site.now) (routine body.now)) n).routines) }
{
    let mut builder = nothing_built(plan.alloc, one_more(n));
    let stmts = build_body(plan, site, &mut builder, body)?;
    let Builder {
        locals,
        routines,
        function: behind,
        ..
    } = builder;
    let own = TypedBody {
        params: Seq::new(plan.alloc),
        locals,
        gives: Ty::NOTHING,
        stmts,
    };
    Ok(Inner {
        function: Function {
            own,
            inner: routines,
        },
        behind,
    })
}

/// A handler.
#[cycle(build)]
pub fn build_handler(
    plan: &Plan,
    site: &Site,
    builder: &mut Builder,
    body: &Body,
) -> Result<Noted, NoMemory>
    requires { IsPlan plan.now }
    ensures built { IfOk result (λ r. IsBuilt builder.old builder.new
        (steps.handler_step plan.now (s.site site.now) (routine body.now)) (typed_tree r.tree)) }
    ensures kind { IfOk result (λ r. r.kind ≡ None) }
{
    let n = builder.function;
    let inner = build_inner(plan, site, n, body)?;
    add(&mut builder.routines, inner.function)?;
    builder.function = inner.behind;
    Ok(noted(Ty::NOTHING, TypedNode::Handler(n), None))
}
