// Typed statements and locals, made of their parts.
ghost use Rattle.std.specs.Prelude.{◌≡◌, ◌+◌, ◌-◌, ◌^◌, ◌++◌, ◌∷◌, [], min, Ok, IfOk, OnOk};
ghost use Rattle.sts_syntax.specs.Types as value;
ghost use Rattle.sts_syntax.specs.Types.{value_types};
ghost use Rattle.sts_syntax.specs.TypedTrees as t;
ghost use Rattle.sts_syntax.specs.TypedViews.{typed_routines, typed_statement, typed_statements};
ghost use Rattle.typed_trees.specs.Sites as s;

use crate::accumulator::Accumulator;
use crate::build_nodes::{noted_type, or_nothing};
use crate::build_numbers::one_more;
use crate::build_places::Builder;
use crate::build_types::list_of_values;
use std::alloc::Global;
use sts_base::{NoMemory, Seq};
use sts_scope::StaticType;
use sts_syntax::{Ty, TypedStmt};

/// What is kept, beside what else was made, else neither. A generic function, in which no form of tree is written out.
pub fn beside<A: Drop, B: Drop>(kept: A, other: Result<B, NoMemory>) -> Result<(A, B), NoMemory>
    ensures kept { IfOk result (λ both. both.0 ≡ kept) }
    ensures other { IfOk result (λ both. other ≡ Ok both.1) }
{
    let other = other?;
    Ok((kept, other))
}

/// A block of statements.
#[tactic(auto, using(sts_syntax::proofs::Laws::typed_block_statement))]
pub fn block_of(all: Seq<TypedStmt>) -> TypedStmt
    ensures { typed_statement result ≡ t.Block (typed_statements all) }
{
    TypedStmt::Block(all)
}

/// What is built of a function before its first statement: nothing. The next function that is built has this number.
pub fn nothing_built(alloc: Global, next: u32) -> Builder
    ensures locals { value_types result.locals ≡ [] }
    ensures routines { typed_routines result.routines ≡ [] }
    ensures local { result.local ≡ 0 }
    ensures function { result.function ≡ next }
{
    Builder {
        locals: Seq::new(alloc),
        routines: Accumulator::new(alloc),
        local: 0,
        function: next,
    }
}

/// A further local of this type; its number.
fn add_typed(builder: &mut Builder, ty: Ty) -> Result<u32, NoMemory>
    ensures number { IfOk result (λ i. i ≡ builder.old.local) }
    ensures locals { OnOk result (builder.new.locals ≡ builder.old.locals ++ ty ∷ []) }
    ensures routines { OnOk result (builder.new.routines ≡ builder.old.routines) }
    ensures local { OnOk result (builder.new.local ≡ min (builder.old.local + 1) (2 ^ 32 - 1)) }
    ensures function { OnOk result (builder.new.function ≡ builder.old.function) }
{
    let number = builder.local;
    builder.locals.push(ty)?;
    builder.local = one_more(number);
    Ok(number)
}

/// A further local of this kind, or of none; its number.
#[tactic(auto, using(crate::proofs::Values::values_append))]
pub fn add_local(builder: &mut Builder, kind: Option<StaticType>) -> Result<u32, NoMemory>
    ensures number { IfOk result (λ i. i ≡ builder.old.local) }
    ensures locals { OnOk result (value_types builder.new.locals
        ≡ value_types builder.old.locals ++ s.noted kind ∷ []) }
    ensures routines { OnOk result (builder.new.routines ≡ builder.old.routines) }
    ensures local { OnOk result (builder.new.local ≡ min (builder.old.local + 1) (2 ^ 32 - 1)) }
    ensures function { OnOk result (builder.new.function ≡ builder.old.function) }
{
    add_typed(builder, noted_type(kind))
}

/// The type of an array of what has a type, else of none.
fn noted_list_type(kind: Option<StaticType>) -> Ty
    ensures { value.value_type result ≡ value.ListOf (s.noted kind) }
{
    list_of_values(or_nothing(kind))
}

/// The locals of a loop through an array: the item, the array and how far it is; the number of the first.
#[tactic(auto, using(crate::proofs::Values::values_append, crate::proofs::Pieces::three))]
pub fn add_loop(builder: &mut Builder, kind: Option<StaticType>) -> Result<u32, NoMemory>
    ensures number { IfOk result (λ i. i ≡ builder.old.local) }
    ensures locals { OnOk result (value_types builder.new.locals
        ≡ value_types builder.old.locals ++ s.noted kind ∷ value.ListOf (s.noted kind) ∷ value.Number ∷ []) }
    ensures routines { OnOk result (builder.new.routines ≡ builder.old.routines) }
    ensures local { OnOk result (builder.new.local ≡ min (builder.old.local + 3) (2 ^ 32 - 1)) }
    ensures function { OnOk result (builder.new.function ≡ builder.old.function) }
{
    let number = add_local(builder, kind)?;
    add_typed(builder, noted_list_type(kind))?;
    add_typed(builder, Ty::NUMBER)?;
    Ok(number)
}
