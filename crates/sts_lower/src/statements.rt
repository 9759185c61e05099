// The pieces of a statement.
ghost use Rattle.std.specs.Prelude.{◌≡◌, suc, ◌+◌, ◌<◌, ◌^◌, [], ◌∷◌, ◌++◌, pos, OnOk};
ghost use Rattle.sts_syntax.specs.TypedViews.{typed_tree, optional_typed_tree, typed_statement, typed_statements, typed_declarations};
ghost use Rattle.sts_lower.specs.Sizes as z;
ghost use Rattle.sts_lower.specs.Statements as t;
ghost use Rattle.sts_lower.specs.inner.Works as p;
ghost use Rattle.sts_lower.specs.inner.Fitting.{WorkFits};
ghost use Rattle.sts_lower.specs.inner.Shown.{works, layout};

use crate::frame::Frame;
use crate::ops::{binary, branch, constant, copy, item_get, jump, set_op, unary};
use crate::sizes::size_of;
use crate::statement_sizes::{
    ITEM_SIZE, initial_size, statement_size, statements_size, step_size, test_size,
};
use crate::values::{evaluate, push_value, put};
use crate::work::{Course, Site, Stack, Work};
use flat_ir::{INCREMENT, Op};
use sts_base::{NoMemory, Seq};
use sts_syntax::operators::LESS;
use sts_syntax::{Spot, TypedBinding, TypedExpr, TypedStmt};

/// What a `return` without a value does comes next, and running off the end.
pub(crate) fn open_bare(stack: &mut Stack, frame: &Frame) -> Result<(), NoMemory>
    ensures { OnOk result (works stack.new ≡ p.puts (t.bare_code frame.now.maker frame.now.base) ++ works stack.old) }
{
    put(stack, Op::Return { from: frame.base })?;
    if frame.maker {
        put(stack, copy(frame.base, 0))
    } else {
        put(stack, constant(frame.base, 0))
    }
}

/// What a `return` does behind its value comes next.
fn open_returned(stack: &mut Stack, frame: &Frame) -> Result<(), NoMemory>
    ensures { OnOk result (works stack.new ≡ p.puts (t.return_code frame.now.maker frame.now.base) ++ works stack.old) }
{
    if frame.maker {
        open_bare(stack, frame)
    } else {
        put(stack, Op::Return { from: frame.base })
    }
}

/// The first operand is to be the value of a declared name.
fn open_initial<'a>(
    stack: &mut Stack<'a>,
    frame: &Frame<'a>,
    first: &'a Option<TypedExpr>,
    at: u32,
) -> Result<(), NoMemory>
    requires { at + z.initial_size (optional_typed_tree first.now) < 2 ^ 32 }
    ensures { OnOk result
        (works stack.new ≡ p.opened_initial (layout frame.now) (optional_typed_tree first.now) at ++ works stack.old) }
{
    match first {
        None => put(stack, constant(frame.base, 0)),
        Some(a) => evaluate(stack, a, 0, at),
    }
}

/// The next declared name, and those behind it.
pub(crate) fn open_declarations<'a>(
    stack: &mut Stack<'a>,
    frame: &Frame<'a>,
    each: &'a [TypedBinding],
    at: u32,
) -> Result<(), NoMemory>
    requires fits { WorkFits (layout frame.now) (p.ExpandDeclarations (typed_declarations each.now) at) }
    ensures { OnOk result (works stack.new
        ≡ p.opened_declarations (layout frame.now) (typed_declarations each.now) at ++ works stack.old) }
{
    match each {
        [] => Ok(()),
        [binding, rest @ ..] => {
            let behind = at + initial_size(&binding.first) + 1;
            stack.push(Work::ExpandDeclarations {
                each: rest,
                at: behind,
            })?;
            put(stack, set_op(frame.params, frame.base, binding.name))?;
            open_initial(stack, frame, &binding.first, at)
        }
    }
}

/// A test of a condition comes next, whose value isn't 0 where it goes on at `so`.
fn open_test<'a>(
    stack: &mut Stack<'a>,
    frame: &Frame<'a>,
    test: &'a TypedExpr,
    at: u32,
    so: u32,
) -> Result<(), NoMemory>
    requires { at + z.size (typed_tree test.now) < 2 ^ 32 }
    ensures { OnOk result
        (works stack.new ≡ p.tested (layout frame.now) (typed_tree test.now) at so ++ works stack.old) }
{
    put(stack, branch(frame.base, so))?;
    evaluate(stack, test, 0, at)
}

/// A statement comes next.
fn push_statement<'a>(
    stack: &mut Stack<'a>,
    a: &'a TypedStmt,
    course: Course,
) -> Result<(), NoMemory>
    ensures { OnOk result (works stack.new
        ≡ p.Expand (typed_statement a.now) course.at course.next course.out course.again ∷ works stack.old) }
{
    stack.push(Work::Expand(a, course))
}

/// Some statements come next.
fn push_statements<'a>(
    stack: &mut Stack<'a>,
    all: &'a [TypedStmt],
    course: Course,
) -> Result<(), NoMemory>
    ensures { OnOk result (works stack.new
        ≡ p.ExpandAll (typed_statements all.now) course.at course.next course.out course.again ∷ works stack.old) }
{
    stack.push(Work::ExpandAll(all, course))
}

/// The body of a loop comes next: behind it and at `continue` it goes on at a place, and at `break` at another one.
fn push_body<'a>(
    stack: &mut Stack<'a>,
    a: &'a TypedStmt,
    at: u32,
    turn: u32,
    out: u32,
) -> Result<(), NoMemory>
    ensures { OnOk result (works stack.new ≡ p.Expand (typed_statement a.now) at turn out turn ∷ works stack.old) }
{
    let course = Course {
        at,
        next: turn,
        out,
        again: turn,
    };
    push_statement(stack, a, course)
}

/// `if (test) a` comes next.
fn open_if<'a>(
    stack: &mut Stack<'a>,
    frame: &Frame<'a>,
    test: &'a TypedExpr,
    a: &'a TypedStmt,
    course: Course,
) -> Result<(), NoMemory>
    requires { course.at + z.size (typed_tree test.now) + 2 < 2 ^ 32 }
    ensures { OnOk result (works stack.new ≡ p.if_only (layout frame.now) (typed_tree test.now)
        (typed_statement a.now) course.at course.next course.out course.again ++ works stack.old) }
{
    let so = course.at + size_of(test) + 1 + 1;
    push_statement(stack, a, course.beginning(so))?;
    put(stack, jump(course.next))?;
    open_test(stack, frame, test, course.at, so)
}

/// `if (test) a else o` comes next. The ops of `a` stand behind those of `o`.
fn open_if_else<'a>(
    stack: &mut Stack<'a>,
    frame: &Frame<'a>,
    test: &'a TypedExpr,
    a: &'a TypedStmt,
    o: &'a TypedStmt,
    course: Course,
) -> Result<(), NoMemory>
    requires { course.at + z.size (typed_tree test.now) + 1 + z.statement_size frame.now.maker (typed_statement o.now)
        + 1 < 2 ^ 32 }
    ensures { OnOk result (works stack.new ≡ p.if_else (layout frame.now) (typed_tree test.now) (typed_statement a.now)
        (typed_statement o.now) course.at course.next course.out course.again ++ works stack.old) }
{
    let otherwise = course.at + size_of(test) + 1;
    let so = otherwise + statement_size(o, frame.maker) + 1;
    push_statement(stack, a, course.beginning(so))?;
    put(stack, jump(course.next))?;
    push_statement(stack, o, course.beginning(otherwise))?;
    open_test(stack, frame, test, course.at, so)
}

/// `while (test) a` comes next.
fn open_while<'a>(
    stack: &mut Stack<'a>,
    frame: &Frame<'a>,
    test: &'a TypedExpr,
    a: &'a TypedStmt,
    at: u32,
    next: u32,
) -> Result<(), NoMemory>
    requires { at + z.size (typed_tree test.now) + 1 + 1
        + z.statement_size frame.now.maker (typed_statement a.now) < 2 ^ 32 }
    ensures { OnOk result (works stack.new
        ≡ p.while_turns (layout frame.now) (typed_tree test.now) (typed_statement a.now) at next ++ works stack.old) }
{
    let body = at + size_of(test) + 1 + 1;
    let turn = body + statement_size(a, frame.maker);
    put(stack, jump(at))?;
    push_body(stack, a, body, turn, next)?;
    put(stack, jump(next))?;
    open_test(stack, frame, test, at, body)
}

/// `do a while (test)` comes next.
fn open_do_while<'a>(
    stack: &mut Stack<'a>,
    frame: &Frame<'a>,
    a: &'a TypedStmt,
    test: &'a TypedExpr,
    at: u32,
    next: u32,
) -> Result<(), NoMemory>
    requires { at + z.statement_size frame.now.maker (typed_statement a.now) + z.size (typed_tree test.now)
        + 2 < 2 ^ 32 }
    ensures { OnOk result (works stack.new
        ≡ p.do_turns (layout frame.now) (typed_statement a.now) (typed_tree test.now) at next ++ works stack.old) }
{
    let turn = at + statement_size(a, frame.maker);
    put(stack, jump(at))?;
    put(stack, jump(next))?;
    open_test(stack, frame, test, turn, turn + size_of(test) + 1 + 1)?;
    push_body(stack, a, at, turn, next)
}

/// The test of a `for` comes next, where there is one.
fn open_may_test<'a>(
    stack: &mut Stack<'a>,
    frame: &Frame<'a>,
    test: &'a Option<TypedExpr>,
    at: u32,
    next: u32,
) -> Result<(), NoMemory>
    requires { at + z.test_size (optional_typed_tree test.now) < 2 ^ 32 }
    ensures { OnOk result
        (works stack.new ≡ p.opened_test (layout frame.now) (optional_typed_tree test.now) at next ++ works stack.old) }
{
    match test {
        None => Ok(()),
        Some(test) => {
            put(stack, jump(next))?;
            open_test(stack, frame, test, at, at + size_of(test) + 1 + 1)
        }
    }
}

/// The step of a `for` comes next, where there is one.
fn open_step<'a>(
    stack: &mut Stack<'a>,
    frame: &Frame<'a>,
    step: &'a Option<TypedExpr>,
    at: u32,
) -> Result<(), NoMemory>
    requires { at + z.step_size (optional_typed_tree step.now) < 2 ^ 32 }
    ensures { OnOk result
        (works stack.new ≡ p.opened_step (layout frame.now) (optional_typed_tree step.now) at ++ works stack.old) }
{
    match step {
        None => Ok(()),
        Some(step) => evaluate(stack, step, 0, at),
    }
}

/// The turns of a `for` come next, from the place of the first on.
fn open_turns<'a>(
    stack: &mut Stack<'a>,
    frame: &Frame<'a>,
    test: &'a Option<TypedExpr>,
    step: &'a Option<TypedExpr>,
    a: &'a TypedStmt,
    course: Course,
) -> Result<(), NoMemory>
    requires { course.at + z.test_size (optional_typed_tree test.now) + z.statement_size frame.now.maker
        (typed_statement a.now) + z.step_size (optional_typed_tree step.now) < 2 ^ 32 }
    ensures { OnOk result (works stack.new ≡ p.for_turns (layout frame.now) (optional_typed_tree test.now)
        (optional_typed_tree step.now) (typed_statement a.now) course.at course.next ++ works stack.old) }
{
    let body = course.at + test_size(test);
    let step_at = body + statement_size(a, frame.maker);
    put(stack, jump(course.at))?;
    open_step(stack, frame, step, step_at)?;
    push_body(stack, a, body, step_at, course.next)?;
    open_may_test(stack, frame, test, course.at, course.next)
}

/// What comes before each turn of a loop over items: whether there is a next one, its item, and the move of the index. The item is
/// the local `i`, the array the one behind it, and the index the one behind that.
fn open_item(stack: &mut Stack, frame: &Frame, i: u32, at: u32, next: u32) -> Result<(), NoMemory>
    requires locals { frame.now.params + suc (suc i) < 2 ^ 32 }
    requires places { at + 4 < 2 ^ 32 }
    ensures { OnOk result (works stack.new ≡ p.puts (p.takes_item (layout frame.now) i at next) ++ works stack.old) }
{
    let item = frame.params + i;
    let array = item + 1;
    let index = item + 2;
    let length = frame.base;
    put(stack, unary(index, INCREMENT, index))?;
    put(stack, item_get(item, array, index))?;
    put(stack, jump(next))?;
    put(stack, branch(length, at + 1 + 1 + 1 + 1))?;
    put(stack, binary(length, LESS, index, length))?;
    put(stack, Op::Length { to: length, array })
}

/// `for (let x of list) a` comes next, whose item is the local `i`.
fn open_for_of<'a>(
    stack: &mut Stack<'a>,
    frame: &Frame<'a>,
    i: u32,
    list: &'a TypedExpr,
    a: &'a TypedStmt,
    course: Course,
) -> Result<(), NoMemory>
    requires locals { frame.now.params + suc (suc i) < 2 ^ 32 }
    requires places { course.at + z.size (typed_tree list.now) + 3 + z.item_size < 2 ^ 32 }
    ensures { OnOk result (works stack.new ≡ p.item_turns (layout frame.now) i (typed_tree list.now)
        (typed_statement a.now) course.at course.next ++ works stack.old) }
{
    let item = frame.params + i;
    let turn = course.at + size_of(list) + 1 + 1 + 1;
    put(stack, jump(turn))?;
    push_body(stack, a, turn + ITEM_SIZE, turn, course.next)?;
    open_item(stack, frame, i, turn, course.next)?;
    put(stack, copy(item + 2, frame.base))?;
    put(stack, constant(frame.base, 0))?;
    put(stack, copy(item + 1, frame.base))?;
    evaluate(stack, list, 0, course.at)
}

/// The pieces of a statement come next.
pub(crate) fn open_statement<'a>(
    stack: &mut Stack<'a>,
    frame: &Frame<'a>,
    s: &'a TypedStmt,
    course: Course,
) -> Result<(), NoMemory>
    requires { WorkFits (layout frame.now)
        (p.Expand (typed_statement s.now) course.at course.next course.out course.again) }
    ensures { OnOk result (works stack.new ≡ p.opened_statement (layout frame.now)
        (typed_statement s.now) course.at course.next course.out course.again ++ works stack.old) }
{
    let at = course.at;
    let next = course.next;
    match s {
        TypedStmt::Block(all) => push_statements(stack, all.as_slice(), course),
        TypedStmt::Let { each, .. } => stack.push(Work::ExpandDeclarations {
            each: each.as_slice(),
            at,
        }),
        TypedStmt::If(test, a, None) => open_if(stack, frame, test, a, course),
        TypedStmt::If(test, a, Some(o)) => open_if_else(stack, frame, test, a, o, course),
        TypedStmt::While(test, a) => open_while(stack, frame, test, a, at, next),
        TypedStmt::DoWhile(a, test) => open_do_while(stack, frame, a, test, at, next),
        TypedStmt::For(None, test, step, a) => open_turns(stack, frame, test, step, a, course),
        TypedStmt::For(Some(first), test, step, a) => {
            let turns = at + statement_size(first, frame.maker);
            open_turns(stack, frame, test, step, a, course.beginning(turns))?;
            push_statement(stack, first, course.ending(turns))
        }
        TypedStmt::ForOf {
            name,
            list,
            body,
            ..
        } => match name {
            Spot::Local(i) => open_for_of(stack, frame, *i, list, body, course),
            Spot::Param(_) | Spot::Global(_) => put(stack, jump(next)),
        },
        TypedStmt::Return(None) => open_bare(stack, frame),
        TypedStmt::Return(Some(a)) => {
            open_returned(stack, frame)?;
            evaluate(stack, a, 0, at)
        }
        TypedStmt::Break => put(stack, jump(course.out)),
        TypedStmt::Continue => put(stack, jump(course.again)),
        TypedStmt::Plain(a) => push_value(stack, a, Site { d: 0, at, next }),
        TypedStmt::Empty => Ok(()),
    }
}

/// The next statement, and those behind it.
pub(crate) fn open_statements<'a>(
    stack: &mut Stack<'a>,
    frame: &Frame<'a>,
    all: &'a [TypedStmt],
    course: Course,
) -> Result<(), NoMemory>
    requires { WorkFits (layout frame.now)
        (p.ExpandAll (typed_statements all.now) course.at course.next course.out course.again) }
    ensures { OnOk result (works stack.new ≡ p.opened_statements (layout frame.now)
        (typed_statements all.now) course.at course.next course.out course.again ++ works stack.old) }
{
    match all {
        [] => Ok(()),
        [a, rest @ ..] => {
            let behind = course.at + statement_size(a, frame.maker);
            push_statements(stack, rest, course.beginning(behind))?;
            let go = if statements_size(rest, frame.maker) == 0 {
                course.next
            } else {
                behind
            };
            push_statement(stack, a, course.ending(go))
        }
    }
}
