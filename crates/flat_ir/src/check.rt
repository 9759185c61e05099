// Whether flat code is well formed.
ghost use Rattle.std.specs.Prelude.{◌≡◌, ◌+◌, ◌<◌, ◌≤◌, ◌↔◌, ◌^◌, IsTrue, length};
ghost use Rattle.std.specs.List.{AllByRecursion};
ghost use Rattle.flat_ir.specs.WellFormed.{NamesBelow, GoesBelow, IsInRange, IsOpWithin, NamesParts, IsLast, Ends, IsWellFormedFunction, IsFunctionAmong, IsClassAmong, IsWellFormed};

use crate::{FlatClass, FlatCode, Function, Op};

/// What a function has of what its ops name.
#[derive(Clone, Copy)]
struct Bounds {
    temporaries: u64,
    places: usize,
    outgoing: u32,
}

fn are_below(numbers: &[u32], n: u64) -> bool
    ensures { IsTrue result ↔ AllByRecursion (λ t. t < n) numbers.now }
{
    numbers.iter().all(|t| (*t as u64) < n)
}

/// Whether every temporary that an op names is one of the first n.
fn names_below(op: &Op, n: u64) -> bool
    ensures { IsTrue result ↔ NamesBelow n op.now }
{
    let is = |t: &u32| (*t as u64) < n;
    match op {
        Op::Const { to, .. }
        | Op::GlobalGet { to, .. }
        | Op::TextOf { to, .. }
        | Op::MakeObject { to, .. }
        | Op::MakeArray { to, .. }
        | Op::HandlerOf { to, .. } => is(to),
        Op::Copy { to, from }
        | Op::Unary { to, from, .. }
        | Op::FieldGet {
            to,
            object: from,
            ..
        }
        | Op::Length { to, array: from }
        | Op::Pop { to, array: from } => is(to) && is(from),
        Op::Binary {
            to,
            left,
            right,
            ..
        } => is(to) && is(left) && is(right),
        Op::ItemGet { to, array, index } => is(to) && is(array) && is(index),
        Op::GlobalSet { from, .. } | Op::Return { from } | Op::Branch { when: from, .. } => is(
            from,
        ),
        Op::FieldSet { object, from, .. } => is(object) && is(from),
        Op::ItemSet { array, index, from } => is(array) && is(index) && is(from),
        Op::Call { to, args, .. } | Op::CallSlot { to, args, .. } | Op::Ask { to, args, .. } => {
            is(to) && are_below(args.as_slice(), n)
        }
        Op::Jump { .. } => true,
    }
}

/// Whether an op goes nowhere but to one of the first places.
fn goes_below(op: &Op, places: usize) -> bool
    ensures { IsTrue result ↔ GoesBelow places op.now }
{
    match op {
        Op::Jump { target } | Op::Branch { target, .. } => (*target as usize) < places,
        _ => true,
    }
}

/// Whether the numbers of an op are in their ranges, and its arguments are few enough.
fn is_in_range(op: &Op, outgoing: u32) -> bool
    ensures { IsTrue result ↔ IsInRange outgoing op.now }
{
    match op {
        Op::GlobalGet { slot, .. } | Op::GlobalSet { slot, .. } => *slot < 256,
        Op::Call { args, .. } => args.len() <= outgoing as usize,
        Op::CallSlot { slot, args, .. } => *slot < 30 && args.len() <= outgoing as usize,
        Op::Ask { service, args, .. } => *service < 24 && args.len() <= 4,
        _ => true,
    }
}

/// Whether the functions and classes that an op names are among so many.
fn names_parts(op: &Op, functions: usize, classes: usize) -> bool
    ensures { IsTrue result ↔ NamesParts functions classes op.now }
{
    match op {
        Op::MakeObject { class, .. } => (*class as usize) < classes,
        Op::Call { function, .. } | Op::HandlerOf { function, .. } => {
            (*function as usize) < functions
        }
        _ => true,
    }
}

fn is_last(op: &Op) -> bool
    ensures { IsTrue result ↔ IsLast op.now }
{
    match op {
        Op::Jump { .. } | Op::Return { .. } => true,
        _ => false,
    }
}

/// Whether some ops end with one behind which nothing need stand.
fn ends(ops: &[Op]) -> bool
    ensures { IsTrue result ↔ Ends ops.now }
{
    match ops.last() {
        Some(last) => is_last(last),
        None => false,
    }
}

impl Function {
    ghost use Rattle.flat_ir.specs.WellFormed.{temporaries};

    /// Whether what can be told of the function from it alone is well formed.
    pub fn is_well_formed(&self) -> bool
        ensures { IsTrue result ↔ IsWellFormedFunction self.now }
    {
        let bounds = Bounds {
            temporaries: self.params as u64 + self.locals as u64 + self.operands as u64,
            places: self.ops.len(),
            outgoing: self.outgoing,
        };
        self.params <= 8
            && self.locals <= 64
            && self.operands <= 64
            && self.outgoing <= 8
            && are_within(self.ops.as_slice(), bounds)
            && ends(self.ops.as_slice())
    }
}

fn is_within(op: &Op, function: Bounds) -> bool
    ensures { IsTrue result ↔ IsOpWithin function.temporaries function.places function.outgoing op.now }
{
    names_below(op, function.temporaries)
        && goes_below(op, function.places)
        && is_in_range(op, function.outgoing)
}

fn are_within(ops: &[Op], function: Bounds) -> bool
    ensures { IsTrue result
        ↔ AllByRecursion (IsOpWithin function.temporaries function.places function.outgoing) ops.now }
{
    for op in ops {
        if !is_within(op, function) {
            return false;
        }
    }
    true
}

fn name_parts(ops: &[Op], functions: usize, classes: usize) -> bool
    ensures { IsTrue result ↔ AllByRecursion (NamesParts functions classes) ops.now }
{
    ops.iter().all(|op| names_parts(op, functions, classes))
}

fn is_function_among(f: &Function, functions: usize, classes: usize) -> bool
    ensures { IsTrue result ↔ IsFunctionAmong functions classes f.now }
{
    f.is_well_formed() && name_parts(f.ops.as_slice(), functions, classes)
}

fn are_functions_among(all: &[Function], functions: usize, classes: usize) -> bool
    ensures { IsTrue result ↔ AllByRecursion (IsFunctionAmong functions classes) all.now }
{
    for f in all {
        if !is_function_among(f, functions, classes) {
            return false;
        }
    }
    true
}

fn is_class_among(class: &FlatClass, functions: usize) -> bool
    ensures { IsTrue result ↔ IsClassAmong functions class.now }
{
    class.slots.len() <= 30 && are_below(class.slots.as_slice(), functions as u64)
}

fn are_classes_among(all: &[FlatClass], functions: usize) -> bool
    ensures { IsTrue result ↔ AllByRecursion (IsClassAmong functions) all.now }
{
    all.iter().all(|class| is_class_among(class, functions))
}

/// Whether flat code is well formed: every target is a place in its function, every function, `main` among them, every
/// class, temporary and service is there, a global's number is below 256 and a method's slot below 30, each function ends
/// with a jump or a return and has at most 8 parameters, 64 locals, 64 operands and 8 outgoing arguments, which no call
/// exceeds, and no service gets more than four.
pub fn well_formed(code: &FlatCode) -> bool
    ensures { IsTrue result ↔ IsWellFormed code.now }
{
    let functions = code.functions.len();
    let classes = code.classes.len();
    (code.main as usize) < functions
        && are_functions_among(code.functions.as_slice(), functions, classes)
        && are_classes_among(code.classes.as_slice(), functions)
}
