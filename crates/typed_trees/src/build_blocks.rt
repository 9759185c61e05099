// Blocks: what is declared in one is known to its end.
ghost use Rattle.std.specs.Prelude.{◌≡◌, ◌++◌, ◌∷◌, [], length, take, IfOk, OnOk};
ghost use Rattle.sts_scope.specs.Places as name;
ghost use Rattle.sts_syntax.specs.declared.typed.Spot.TheVariants.{Local};
ghost use Rattle.type_derive.specs.Built.{in_block};
ghost use Rattle.type_derive.specs.Scopes.{left, place};
ghost use Rattle.sts_syntax.specs.Views.{routine};
ghost use Rattle.typed_trees.specs.Sites as s;
ghost use Rattle.typed_trees.specs.Steps as steps;

use crate::build_places::{Plan, Site};
use crate::spots::Spots;
use sts_base::{NoMemory, Refused};
use sts_scope::StaticType;
use sts_syntax::{Body, Spot};
use type_derive::{Context, Mark, declare, enter, handler_result, handler_scope, leave};

/// What was around a block where it began.
#[derive(Clone, Copy)]
pub struct Around {
    pub scope: Mark,
    /// how many values of locals were in scope
    pub spots: usize,
}

/// What stands around here, where no block begins.
pub fn mark(site: &Site) -> Around
    ensures locals { result.scope.locals ≡ length (place site.now.scope).locals }
    ensures block { result.scope.block ≡ (place site.now.scope).block }
    ensures spots { result.spots ≡ length site.now.spots }
{
    Around {
        scope: site.scope.locals.mark(),
        spots: site.spots.len(),
    }
}

/// A block begins.
pub fn begin(site: &mut Site) -> Around
    ensures site { s.site site.new ≡ in_block (s.site site.old) }
    ensures locals { result.scope.locals ≡ length (place site.old.scope).locals }
    ensures block { result.scope.block ≡ (place site.old.scope).block }
    ensures spots { result.spots ≡ length site.old.spots }
{
    let spots = site.spots.len();
    let scope = enter(&mut site.scope);
    Around { scope, spots }
}

/// It ends: all is as it was around it.
pub fn end(site: &mut Site, around: Around)
    ensures place { place site.new.scope ≡ left (place site.old.scope) around.scope.locals around.scope.block }
    ensures spots { site.new.spots ≡ take around.spots site.old.spots }
{
    leave(&mut site.scope, around.scope);
    site.spots.truncate(around.spots);
}

/// A name is known from here on, whose value is in a local.
pub fn declare_local(
    site: &mut Site,
    x: u32,
    kind: Option<StaticType>,
    fixed: bool,
    local: u32,
) -> Result<(), NoMemory>
    ensures place { OnOk result (place site.new.scope ≡ name.with (place site.old.scope) x kind fixed) }
    ensures spots { OnOk result (site.new.spots ≡ site.old.spots ++ Local local ∷ []) }
{
    declare(&mut site.scope, x, kind, fixed)?;
    site.spots.push(Spot::Local(local))
}

/// Where the statements of a handler begin.
#[tactic(auto, using(sts_syntax::proofs::Laws::routine_parts))]
pub fn handler_site<'a>(plan: &Plan, site: &'a Site<'a>, body: &Body) -> Result<Site<'a>, NoMemory>
    ensures { IfOk result (λ r. s.site r ≡ steps.handler_site plan.now (s.site site.now) (routine body.now)) }
{
    let context = Context {
        alloc: plan.alloc,
        tables: plan.tables,
        classes: plan.classes,
        known: plan.known,
    };
    let params = body.params.as_slice();
    let all = body.stmts.as_slice();
    let gives = match handler_result(&context, &site.scope, params, &body.gives, all) {
        Ok(gives) => gives,
        Err(Refused::NoMemory) => return Err(NoMemory),
        Err(_) => unreachable!(),
    };
    let scope = handler_scope(&context, &site.scope, params, gives)?;
    Ok(Site {
        scope,
        spots: Spots::new(plan.alloc),
    })
}
