// Putting together what a text declares.
ghost use Rattle.std.specs.Prelude.{◌≡◌, ℕ, ◌+◌, ◌<◌, ◌^◌, ◌==◌, length, ◌++◌, ◌∷◌, [], IfOk, OnOk, unwrap_or};
ghost use Rattle.std.specs.List.{position_from};
ghost use Rattle.sts_syntax.specs.Programs.{top_level, top_levels, class_member, class_members};
ghost use Rattle.sts_syntax.specs.Views.{statement, declaration, declarations, routine, parameters, optional_annotation};
ghost use Rattle.sts_syntax.specs.Annotations.{annotation};
ghost use Rattle.std.specs.Option.{option_or};
ghost use Rattle.sts_scope.specs.Values.{value_at};
ghost use Rattle.sts_scope.specs.Entries as entry;
ghost use Rattle.sts_scope.specs.Kinds.{nothing};
ghost use Rattle.sts_scope.specs.Adding.{Adds};

use crate::by_number::ByNumber;
use crate::{Base, DeclarationKind, Entry, Known, Owner, StaticType};
use std::alloc::Global;
use sts_base::{NoMemory, Seq};
use sts_syntax::{Binding, Body, Item, Param, Shape};

/// Numbers a class, unless its name has a number already.
fn number_class(classes: &mut ByNumber, count: u32, item: &Item) -> Result<u32, NoMemory>
    requires { count + length (entry.item_class (top_level item.now)) < 2 ^ 32 }
    ensures names { OnOk result
        ((y : ℕ) → value_at classes.new.values.items y ≡ option_or (value_at classes.old.values.items y)
        (position_from (λ z. z == y) count (entry.item_class (top_level item.now)))) }
    ensures count { IfOk result (λ n. n ≡ count + length (entry.item_class (top_level item.now))) }
{
    match item {
        Item::Class {
            at: _,
            name,
            base: _,
            base_at: _,
            members: _,
        } => {
            if classes.get(*name).is_none() {
                classes.set(*name, count)?;
            }
            Ok(count + 1)
        }
        Item::Function { name: _, body: _ } => Ok(count),
        Item::Stmt(_) => Ok(count),
    }
}

/// Numbers the classes of some parts of a text, behind those that have numbers.
pub fn number_classes(classes: &mut ByNumber, first: u32, items: &[Item]) -> Result<u32, NoMemory>
    requires { first + length (entry.class_names (top_levels items.now)) < 2 ^ 32 }
    ensures names { OnOk result
        ((y : ℕ) → value_at classes.new.values.items y ≡ option_or (value_at classes.old.values.items y)
        (position_from (λ z. z == y) first (entry.class_names (top_levels items.now)))) }
    ensures count { IfOk result (λ n. n ≡ first + length (entry.class_names (top_levels items.now))) }
{
    let mut count = first;
    for i in 0..items.len() {
        count = number_class(classes, count, &items[i])?;
    }
    Ok(count)
}

/// The type that is written, if its name is known and it hasn't too many `[]`.
#[tactic(auto, using(crate::proofs::Deeper::same_kind, crate::proofs::Deeper::deeper_item, crate::proofs::Deeper::too_deep))]
pub fn kind_of(classes: &ByNumber, shape: &Shape) -> Option<StaticType>
    ensures { result ≡ entry.kind_of (value_at classes.now.values.items) (annotation shape.now) }
{
    let mut at = shape;
    let mut depth = 0;
    loop {
        let base = match at {
            Shape::Number => Some(Base::Number),
            Shape::Boolean => Some(Base::Boolean),
            Shape::Text => Some(Base::Text),
            Shape::Nothing => Some(Base::Nothing),
            Shape::Named { at: _, name } => match classes.get(*name) {
                Some(class) => Some(Base::Class(class)),
                None => None,
            },
            Shape::List(item) => {
                if depth == u32::MAX {
                    return None;
                }
                depth += 1;
                at = item;
                continue;
            }
        };
        return match base {
            Some(base) => Some(StaticType { base, depth }),
            None => None,
        };
    }
}

/// The type that is written, if there is one and it is known.
pub fn written_kind(classes: &ByNumber, shape: &Option<Shape>) -> Option<StaticType>
    ensures { result ≡ entry.written_kind (value_at classes.now.values.items) (optional_annotation shape.now) }
{
    match shape {
        Some(shape) => kind_of(classes, shape),
        None => None,
    }
}

/// The type of a parameter; one that isn't known counts as nothing.
fn parameter_kind(classes: &ByNumber, param: &Param) -> StaticType
    ensures { result ≡ unwrap_or
        (entry.written_kind (value_at classes.now.values.items) (optional_annotation param.now.shape)) nothing }
{
    match written_kind(classes, &param.shape) {
        Some(kind) => kind,
        None => StaticType {
            base: Base::Nothing,
            depth: 0,
        },
    }
}

/// What a function takes.
pub fn parameter_kinds(
    alloc: Global,
    classes: &ByNumber,
    params: &[Param],
) -> Result<Seq<StaticType>, NoMemory>
    ensures { IfOk result
        (λ kinds. kinds ≡ entry.parameter_kinds (value_at classes.now.values.items) (parameters params.now)) }
{
    let mut kinds = Seq::new(alloc);
    for i in 0..params.len() {
        let kind = parameter_kind(classes, &params[i]);
        kinds.push(kind)?;
    }
    Ok(kinds)
}

/// Adds a declaration.
pub fn add_entry(known: &mut Known, entry: Entry, kind: Option<StaticType>) -> Result<(), NoMemory>
    ensures { OnOk result (Adds known.old known.new (entry ∷ []) (kind ∷ []) []) }
{
    known.entries.push(entry)?;
    known.kinds.push(kind)
}

/// Adds a declared name.
pub fn add_declared(
    alloc: Global,
    classes: &ByNumber,
    known: &mut Known,
    owner: Owner,
    sort: DeclarationKind,
    b: &Binding,
) -> Result<(), NoMemory>
    ensures { OnOk result (Adds known.old known.new (entry.declared_entry owner sort (declaration b.now) ∷ [])
        (entry.declared_kind (value_at classes.now.values.items) (declaration b.now) ∷ []) []) }
{
    let kind = written_kind(classes, &b.shape);
    let entry = Entry {
        at: b.at,
        owner,
        name: b.name,
        sort,
        takes: Seq::new(alloc),
    };
    add_entry(known, entry, kind)
}

/// The declaration of a function or method.
#[tactic(auto, using(sts_syntax::proofs::Laws::routine_parts))]
pub fn routine_entry(
    alloc: Global,
    classes: &ByNumber,
    owner: Owner,
    name: u32,
    sort: DeclarationKind,
    body: &Body,
) -> Result<Entry, NoMemory>
    ensures { IfOk result (λ r. r
        ≡ entry.routine_entry (value_at classes.now.values.items) owner name sort (routine body.now)) }
{
    let takes = parameter_kinds(alloc, classes, body.params.as_slice())?;
    Ok(Entry {
        at: body.at,
        owner,
        name,
        sort,
        takes,
    })
}

/// The result of a function or method, where it is written.
#[tactic(auto, using(sts_syntax::proofs::Laws::routine_parts))]
pub fn routine_gives(classes: &ByNumber, body: &Body) -> Option<StaticType>
    ensures { result ≡ entry.routine_gives (value_at classes.now.values.items) (routine body.now) }
{
    written_kind(classes, &body.gives)
}
