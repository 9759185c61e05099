// The ops of a function.
ghost use Rattle.std.specs.Prelude.{◌≡◌, ◌+◌, ◌<◌, ◌^◌, ◌++◌, length, OnOk, IfOk};
ghost use Rattle.sts_syntax.specs.TypedViews.{typed_statements};
ghost use Rattle.sts_lower.specs.Sizes as z;
ghost use Rattle.sts_lower.specs.Statements as t;
ghost use Rattle.sts_lower.specs.inner.Works as p;
ghost use Rattle.sts_lower.specs.inner.Fitting.{WorkFits};
ghost use Rattle.sts_lower.specs.inner.Shown.{work_shown, works, layout};

use crate::calls::{open_arguments, open_elements};
use crate::expressions::{open_reach, open_value};
use crate::frame::Frame;
use crate::statement_sizes::statements_size;
use crate::statements::{open_bare, open_declarations, open_statement, open_statements};
use crate::work::{Course, Stack, Work};
use flat_ir::Op;
use sts_base::{NoMemory, Seq};
use sts_syntax::TypedStmt;

/// Does a piece of work: an op is appended, and of everything else the pieces come next.
fn do_work<'a>(
    stack: &mut Stack<'a>,
    ops: &mut Seq<Op>,
    frame: &Frame<'a>,
    work: Work<'a>,
) -> Result<(), NoMemory>
    requires fits { WorkFits (layout frame.now) (work_shown work) }
    requires functions { frame.now.functions + length frame.now.repeated.now < 2 ^ 32 }
    ensures ops { OnOk result (ops.new ≡ ops.old ++ p.own_ops (layout frame.now) (work_shown work.entry)) }
    ensures pieces { OnOk result
        (works stack.new ≡ p.opened (layout frame.now) (work_shown work.entry) ++ works stack.old) }
{
    match work {
        Work::Put(op) => ops.push(op),
        Work::Value(e, site) => open_value(stack, frame, e, site),
        Work::Reach { target, d, at } => open_reach(stack, frame, target, d, at),
        Work::Arguments {
            places,
            args,
            d,
            at,
        } => open_arguments(stack, frame, places, args, d, at),
        Work::Elements { items, d, at } => open_elements(stack, frame, items, d, at),
        Work::Expand(a, course) => open_statement(stack, frame, a, course),
        Work::ExpandAll(all, course) => open_statements(stack, frame, all, course),
        Work::ExpandDeclarations { each, at } => open_declarations(stack, frame, each, at),
    }
}

/// The ops of a function's statements, and those of running off its end.
pub(crate) fn ops_of<'a>(frame: &Frame<'a>, all: &'a [TypedStmt]) -> Result<Seq<Op>, NoMemory>
    requires fits { let end = z.statements_size frame.now.maker (typed_statements all.now) in
        WorkFits (layout frame.now) (p.ExpandAll (typed_statements all.now) 0 end end end) }
    requires functions { frame.now.functions + length frame.now.repeated.now < 2 ^ 32 }
    ensures { let end = z.statements_size frame.now.maker (typed_statements all.now) in
        IfOk result (λ ops. ops ≡ t.statements_code (layout frame.now).classes (layout frame.now).repeating
        frame.now.params frame.now.base frame.now.maker (typed_statements all.now) 0 end end end
        ++ t.bare_code frame.now.maker frame.now.base) }
{
    let end = statements_size(all, frame.maker);
    let mut stack = Stack::new(frame.alloc);
    open_bare(&mut stack, frame)?;
    let course = Course {
        at: 0,
        next: end,
        out: end,
        again: end,
    };
    stack.push(Work::ExpandAll(all, course))?;
    let mut ops = Seq::new(frame.alloc);
    while let Some(work) = stack.pop() {
        do_work(&mut stack, &mut ops, frame, work)?;
    }
    Ok(ops)
}
