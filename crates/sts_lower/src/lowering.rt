// From a typed program to flat code.
ghost use Rattle.std.specs.Prelude.{◌≡◌, ℕ, List, ◌+◌, ◌<◌, ◌≤◌, ◌^◌, ◌++◌, length, OnOk, IfOk, All};
ghost use Rattle.std.specs.List.{AllByRecursion};
ghost use Rattle.sts_syntax.specs.TypedViews.{class_entry, class_entries, typed_routine, typed_routines, typed_program};
ghost use Rattle.sts_syntax.specs.WellTypedPrograms as wt;
ghost use Rattle.sts_lower.specs.Repeated as r;
ghost use Rattle.sts_lower.specs.inner.Works as p;
ghost use Rattle.sts_lower.specs.Lowered as l;
ghost use Rattle.sts_lower.specs.inner.Fitting.{IsLowerableRoutine, HasFewFields};

use crate::frame::Frame;
use crate::repeats::note_functions;
use crate::routines::ops_of;
use board_services::PAUSE;
use flat_ir::{FlatClass, FlatCode, Function, Op};
use std::alloc::Global;
use sts_base::{NoMemory, Seq};
use sts_syntax::{Typed, TypedBody, TypedClass, outgoing_words, pending_words};

/// Whether a function is some class's constructor.
fn is_maker(classes: &Seq<TypedClass>, f: u32) -> bool
    ensures { result ≡ wt.is_maker (class_entries classes.now) f }
{
    for class in classes.as_slice() {
        if class.maker == f {
            return true;
        }
    }
    false
}

/// A function, of a program with these classes and so many functions.
#[tactic(auto, using(sts_syntax::proofs::Laws::locals_are))]
fn lower_routine(
    alloc: Global,
    classes: &Seq<TypedClass>,
    repeated: &[u32],
    functions: u32,
    maker: bool,
    body: &TypedBody,
) -> Result<Function, NoMemory>
    requires few { functions + length repeated.now < 2 ^ 32 }
    requires fits { IsLowerableRoutine (typed_routine body.now) }
    ensures { IfOk result (λ function. function ≡ p.routine_of (class_entries classes.now)
        (λ g. functions + r.before repeated.now g) maker (typed_routine body.now)) }
{
    let params = body.params.len() as u32;
    let locals = body.locals.len() as u32;
    let operands = pending_words(body) as u32;
    let outgoing = outgoing_words(body) as u32;
    let frame = Frame {
        alloc,
        classes,
        repeated,
        functions,
        params,
        base: params + locals,
        maker,
    };
    let ops = ops_of(&frame, body.stmts.as_slice())?;
    Ok(Function {
        params,
        locals,
        operands,
        outgoing,
        ops,
    })
}

/// The functions of a program.
fn lower_functions(
    alloc: Global,
    classes: &Seq<TypedClass>,
    repeated: &[u32],
    bodies: &Seq<TypedBody>,
) -> Result<Seq<Function>, NoMemory>
    requires few { length bodies.now + length repeated.now < 2 ^ 32 }
    requires fits { AllByRecursion IsLowerableRoutine (typed_routines bodies.now) }
    ensures { IfOk result (λ all. all ≡ p.routines_of (class_entries classes.now)
        (λ g. length bodies.now + r.before repeated.now g) 0 (typed_routines bodies.now)) }
{
    let functions = bodies.len() as u32;
    let mut all = Seq::new(alloc);
    let mut f = 0;
    for body in bodies.as_slice() {
        let maker = is_maker(classes, f);
        all.push(lower_routine(alloc, classes, repeated, functions, maker, body)?)?;
        f += 1;
    }
    Ok(all)
}

/// A function that `forever` starts: it calls f, pauses for 20 ms, and does so again.
fn repeating_function(alloc: Global, f: u32) -> Result<Function, NoMemory>
    ensures { IfOk result (λ function. function ≡ l.repeating_function f) }
{
    let mut time = Seq::new(alloc);
    time.push(0)?;
    let mut ops = Seq::new(alloc);
    ops.push(Op::Call {
        to: 0,
        function: f,
        args: Seq::new(alloc),
    })?;
    ops.push(Op::Const { to: 0, value: 20 })?;
    ops.push(Op::Ask {
        to: 0,
        service: PAUSE,
        args: time,
    })?;
    ops.push(Op::Jump { target: 0 })?;
    Ok(Function {
        params: 0,
        locals: 0,
        operands: 1,
        outgoing: 0,
        ops,
    })
}

/// Appends the functions that `forever` starts.
fn add_repeating(
    alloc: Global,
    functions: &mut Seq<Function>,
    repeated: &[u32],
) -> Result<(), NoMemory>
    ensures { OnOk result (functions.new ≡ functions.old ++ l.repeating_functions repeated.now) }
{
    for f in repeated {
        functions.push(repeating_function(alloc, *f)?)?;
    }
    Ok(())
}

fn copied(alloc: Global, numbers: &Seq<u32>) -> Result<Seq<u32>, NoMemory>
    ensures { IfOk result (λ copy. copy ≡ numbers.now) }
{
    let mut copy = Seq::new(alloc);
    for number in numbers.as_slice() {
        copy.push(*number)?;
    }
    Ok(copy)
}

#[tactic(auto, using(sts_syntax::proofs::Laws::locals_are))]
fn lower_class(alloc: Global, class: &TypedClass) -> Result<FlatClass, NoMemory>
    requires { length (class_entry class.now).fields ≤ 30 }
    ensures { IfOk result (λ flat. flat ≡ l.flat_class (class_entry class.now)) }
{
    Ok(FlatClass {
        words: 1 + class.fields.len() as u32,
        slots: copied(alloc, &class.slots)?,
    })
}

fn lower_classes(alloc: Global, classes: &Seq<TypedClass>) -> Result<Seq<FlatClass>, NoMemory>
    requires { AllByRecursion HasFewFields (class_entries classes.now) }
    ensures { IfOk result (λ all. all ≡ l.flat_classes (class_entries classes.now)) }
{
    let mut all = Seq::new(alloc);
    for class in classes.as_slice() {
        all.push(lower_class(alloc, class)?)?;
    }
    Ok(all)
}

/// All functions: those of the program, and those that `forever` starts.
fn all_functions(alloc: Global, typed: &Typed) -> Result<Seq<Function>, NoMemory>
    requires few { length typed.now.functions + length (l.repeated_in_program (typed_program typed.now)) < 2 ^ 32 }
    requires fits { AllByRecursion IsLowerableRoutine (typed_routines typed.now.functions) }
    ensures { IfOk result
        (λ all. all ≡ l.lowered_routines (typed_program typed.now) 0 (typed_routines typed.now.functions)
        ++ l.repeating_functions (l.repeated_in_program (typed_program typed.now))) }
{
    let mut repeated = Seq::new(alloc);
    note_functions(&mut repeated, &typed.functions)?;
    let numbers = repeated.as_slice();
    let mut all = lower_functions(alloc, &typed.classes, numbers, &typed.functions)?;
    add_repeating(alloc, &mut all, numbers)?;
    Ok(all)
}

/// The flat code of a well-typed program within the counted limits. The only refusal is want of memory.
pub fn lower(alloc: Global, typed: &Typed) -> Result<FlatCode, NoMemory>
    requires well_typed { wt.IsWellTyped (typed_program typed.now) }
    requires limits { (texts : List (List ℕ)) × wt.IsProgramWithinLimits (typed_program typed.now) texts }
    ensures { IfOk result (λ code. code ≡ l.lowered (typed_program typed.now)) }
{
    let functions = all_functions(alloc, typed)?;
    let classes = lower_classes(alloc, &typed.classes)?;
    Ok(FlatCode {
        functions,
        classes,
        main: typed.main,
    })
}
