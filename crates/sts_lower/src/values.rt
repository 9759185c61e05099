// The pieces of an expression.
ghost use Rattle.std.specs.Prelude.{◌≡◌, suc, ◌+◌, ◌<◌, ◌^◌, ◌∷◌, OnOk};
ghost use Rattle.sts_syntax.specs.TypedViews.{typed_tree};
ghost use Rattle.sts_lower.specs.Sizes as z;
ghost use Rattle.sts_lower.specs.inner.Works as p;
ghost use Rattle.sts_lower.specs.inner.Shown.{works};

use crate::sizes::size_of;
use crate::work::{Site, Stack, Work};
use flat_ir::Op;
use sts_base::NoMemory;
use sts_syntax::TypedExpr;

/// An op comes next.
pub(crate) fn put(stack: &mut Stack, op: Op) -> Result<(), NoMemory>
    ensures { OnOk result (works stack.new ≡ p.Put op ∷ works stack.old) }
{
    stack.push(Work::Put(op))
}

/// An expression comes next.
pub(crate) fn push_value<'a>(
    stack: &mut Stack<'a>,
    e: &'a TypedExpr,
    site: Site,
) -> Result<(), NoMemory>
    ensures { OnOk result (works stack.new ≡ p.Value (typed_tree e.now) site.d site.at site.next ∷ works stack.old) }
{
    stack.push(Work::Value(e, site))
}

/// What is evaluated of a target comes next.
pub(crate) fn push_reach<'a>(
    stack: &mut Stack<'a>,
    target: &'a TypedExpr,
    site: Site,
) -> Result<(), NoMemory>
    ensures { OnOk result (works stack.new ≡ p.Reach (typed_tree target.now) site.d site.at ∷ works stack.old) }
{
    stack.push(Work::Reach {
        target,
        d: site.d,
        at: site.at,
    })
}

/// An expression comes next, and behind it the op that stands on top.
pub(crate) fn evaluate<'a>(
    stack: &mut Stack<'a>,
    a: &'a TypedExpr,
    d: u32,
    at: u32,
) -> Result<(), NoMemory>
    requires { at + z.size (typed_tree a.now) < 2 ^ 32 }
    ensures { OnOk result
        (works stack.new ≡ p.Value (typed_tree a.now) d at (at + z.size (typed_tree a.now)) ∷ works stack.old) }
{
    let next = at + size_of(a);
    push_value(stack, a, Site { d, at, next })
}

/// Two expressions come next, and behind them the op that stands on top.
pub(crate) fn evaluate_both<'a>(
    stack: &mut Stack<'a>,
    a: &'a TypedExpr,
    b: &'a TypedExpr,
    d: u32,
    at: u32,
) -> Result<(), NoMemory>
    requires places { at + z.size (typed_tree a.now) + z.size (typed_tree b.now) < 2 ^ 32 }
    requires operands { d + 1 < 2 ^ 32 }
    ensures { OnOk result (works stack.new ≡ p.Value (typed_tree a.now) d at (at + z.size (typed_tree a.now))
        ∷ (p.Value (typed_tree b.now) (suc d) (at + z.size (typed_tree a.now))
        (at + z.size (typed_tree a.now) + z.size (typed_tree b.now)) ∷ works stack.old)) }
{
    evaluate(stack, b, d + 1, at + size_of(a))?;
    evaluate(stack, a, d, at)
}
