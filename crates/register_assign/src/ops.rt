// What an op reads and writes.
ghost use Rattle.std.specs.Prelude.{◌≡◌};
ghost use Rattle.flat_ir.specs.Ops.{reads, writes};
ghost use Rattle.register_assign.specs.Marks.{is_among};
ghost use Rattle.register_assign.specs.Readings.{numbers_of};

use flat_ir::Op;

/// The temporaries that an op reads, by how many they are.
#[derive(Clone, Copy)]
pub enum Reading<'a> {
    /// none
    Nothing,
    /// one
    One(u32),
    /// two
    Two(u32, u32),
    /// three
    Three(u32, u32, u32),
    /// what a call or a service is given
    Arguments(&'a [u32]),
}

fn is_among(t: usize, numbers: &[u32]) -> bool
    ensures { result ≡ is_among t numbers.now }
{
    numbers.iter().any(|x| *x as usize == t)
}

/// The temporaries that an op reads.
pub fn read_by<'a>(op: &'a Op) -> Reading<'a>
    ensures { numbers_of result ≡ reads op.now }
{
    match op {
        Op::Const { .. }
        | Op::GlobalGet { .. }
        | Op::TextOf { .. }
        | Op::MakeObject { .. }
        | Op::MakeArray { .. }
        | Op::HandlerOf { .. }
        | Op::Jump { .. } => Reading::Nothing,
        Op::Copy { from, .. }
        | Op::Unary { from, .. }
        | Op::GlobalSet { from, .. }
        | Op::FieldGet { object: from, .. }
        | Op::Length { array: from, .. }
        | Op::Pop { array: from, .. }
        | Op::Branch { when: from, .. }
        | Op::Return { from } => Reading::One(*from),
        Op::Binary { left, right, .. } => Reading::Two(*left, *right),
        Op::FieldSet { object, from, .. } => Reading::Two(*object, *from),
        Op::ItemGet { array, index, .. } => Reading::Two(*array, *index),
        Op::ItemSet { array, index, from } => Reading::Three(*array, *index, *from),
        Op::Call { args, .. } | Op::CallSlot { args, .. } | Op::Ask { args, .. } => {
            Reading::Arguments(args.as_slice())
        }
    }
}

/// Whether an op reads a temporary.
pub fn reads(op: &Op, t: usize) -> bool
    ensures { result ≡ is_among t (reads op.now) }
{
    match read_by(op) {
        Reading::Nothing => false,
        Reading::One(a) => is_among(t, &[a]),
        Reading::Two(a, b) => is_among(t, &[a, b]),
        Reading::Three(a, b, c) => is_among(t, &[a, b, c]),
        Reading::Arguments(args) => is_among(t, args),
    }
}

/// The temporary that an op writes.
pub fn written(op: &Op) -> Option<u32>
    ensures { result ≡ writes op.now }
{
    match op {
        Op::Const { to, .. }
        | Op::Copy { to, .. }
        | Op::Unary { to, .. }
        | Op::Binary { to, .. }
        | Op::GlobalGet { to, .. }
        | Op::FieldGet { to, .. }
        | Op::ItemGet { to, .. }
        | Op::Length { to, .. }
        | Op::Pop { to, .. }
        | Op::TextOf { to, .. }
        | Op::MakeObject { to, .. }
        | Op::MakeArray { to, .. }
        | Op::Call { to, .. }
        | Op::CallSlot { to, .. }
        | Op::HandlerOf { to, .. }
        | Op::Ask { to, .. } => Some(*to),
        Op::GlobalSet { .. }
        | Op::FieldSet { .. }
        | Op::ItemSet { .. }
        | Op::Jump { .. }
        | Op::Branch { .. }
        | Op::Return { .. } => None,
    }
}
