// Classes of a typed program with the functions in them, and the types of its globals.
ghost use Rattle.std.specs.Prelude.{◌≡◌, suc, ◌+◌, ◌^◌, ◌<◌, ◌++◌, length, map, Some, None, IfOk, OnOk};
ghost use Rattle.sts_syntax.specs.Types as value;
ghost use Rattle.sts_syntax.specs.Programs.{class_member, class_members};
ghost use Rattle.sts_syntax.specs.TypedViews as view;
ghost use Rattle.sts_syntax.specs.TypedViews.{typed_routines};
ghost use Rattle.sts_scope.specs.Entries as entry;
ghost use Rattle.sts_syntax.specs.Views.{declaration};
ghost use Rattle.sts_scope.specs.Lookup as look;
ghost use Rattle.sts_scope.specs.Handlers as h;
ghost use Rattle.sts_scope.specs.Numbers as number;
ghost use Rattle.text_sizes.specs.Numbered as numbered;
ghost use Rattle.typed_trees.specs.Sites.{IsPlan, naming};
ghost use Rattle.typed_program.specs.Few.{HasFewTakes};
ghost use Rattle.typed_program.specs.Numbered.{AreNumbered};
ghost use Rattle.typed_program.specs.Wholes as w;

use crate::build_initials::{Initial, build_field};
use crate::build_makers::{add_constructor, add_unwritten};
use crate::build_parts::{ClassParts, Next, next_member};
use sts_base::{NoMemory, Seq};
use sts_scope::Entry;
use sts_syntax::{Binding, Member, Ty, TypedBody, TypedClass};
use type_derive::kind_at;
use typed_numbers::{base_of, is_global, unwritten};
use typed_trees::{
    Accumulator, Plan, add_method, maker_number, names_at, noted_type, routine_number,
};

/// The declaration of a class's member of a name, the nearest one.
fn member(plan: &Plan, class: u32, name: u32) -> Option<usize>
    ensures { result ≡ look.member_number plan.now.known.now.entries plan.now.known.now.classes class name }
{
    let known = plan.known;
    known.member(class, name)
}

/// The type of a class's member of a name.
fn member_type(plan: &Plan, class: u32, name: u32) -> Ty
    ensures { value.value_type result ≡ w.member_kind plan.now class name }
{
    match member(plan, class, name) {
        None => Ty::NOTHING,
        Some(d) => noted_type(kind_at(plan.known, d)),
    }
}

/// The number of a class's method of a name.
fn member_function(plan: &Plan, class: u32, name: u32) -> u32
    ensures { result ≡ w.member_routine plan.now class name }
{
    match member(plan, class, name) {
        None => 0,
        Some(d) => routine_number(plan.numbers, d),
    }
}

/// The types of members of some names.
fn member_types(plan: &Plan, class: u32, names: &[u32]) -> Result<Seq<Ty>, NoMemory>
    ensures { IfOk result (λ all. value.value_types all ≡ map (w.member_kind plan.now class) names.now) }
{
    let mut all = Seq::new(plan.alloc);
    for name in names {
        all.push(member_type(plan, class, *name))?;
    }
    Ok(all)
}

/// The numbers of methods of some names.
fn member_functions(plan: &Plan, class: u32, names: &[u32]) -> Result<Seq<u32>, NoMemory>
    ensures { IfOk result (λ all. all ≡ map (w.member_routine plan.now class) names.now) }
{
    let mut all = Seq::new(plan.alloc);
    for name in names {
        all.push(member_function(plan, class, *name))?;
    }
    Ok(all)
}

/// A class by its number.
fn class_entry(plan: &Plan, class: u32) -> Result<TypedClass, NoMemory>
    requires plan { IsPlan plan.now }
    requires there { class < length plan.now.known.now.classes }
    ensures { IfOk result (λ c. view.class_entry c ≡ w.class_entry plan.now class) }
{
    let fields = member_types(plan, class, names_at(&plan.names.fields, class))?;
    let slots = member_functions(plan, class, names_at(&plan.names.slots, class))?;
    Ok(TypedClass {
        base: base_of(plan.known, class),
        fields,
        slots,
        maker: maker_number(plan.numbers, class),
    })
}

/// All classes.
pub fn class_entries(plan: &Plan) -> Result<Seq<TypedClass>, NoMemory>
    requires { IsPlan plan.now }
    ensures { IfOk result (λ all. view.class_entries all ≡ w.class_entries plan.now 0 plan.now.known.now.classes) }
{
    let mut all = Seq::new(plan.alloc);
    for class in 0..plan.known.classes().len() {
        all.push(class_entry(plan, class as u32)?)?;
    }
    Ok(all)
}

/// The type of a declaration, where it is a global.
fn add_global(plan: &Plan, all: &mut Seq<Ty>, d: usize, entry: &Entry) -> Result<(), NoMemory>
    ensures { OnOk result (value.value_types all.new ≡ value.value_types all.old ++ w.one_global plan.now d entry.now) }
{
    if is_global(entry.sort) {
        return all.push(noted_type(kind_at(plan.known, d)));
    }
    Ok(())
}

/// The types of the globals.
pub fn global_types(plan: &Plan) -> Result<Seq<Ty>, NoMemory>
    ensures { IfOk result (λ all. value.value_types all ≡ w.global_types plan.now 0 plan.now.known.now.entries) }
{
    let entries = plan.known.entries().as_slice();
    let mut all = Seq::new(plan.alloc);
    for (d, entry) in entries.iter().enumerate() {
        add_global(plan, &mut all, d, entry)?;
    }
    Ok(all)
}

/// The functions in a field's initialiser.
#[tactic(auto, using(typed_trees::proofs::Laws::routines_append))]
fn add_inner(
    plan: &Plan,
    routines: &mut Accumulator<TypedBody>,
    class: u32,
    n: u32,
    a: &Binding,
) -> Result<(), NoMemory>
    requires plan { IsPlan plan.now }
    requires functions { n + numbered.declared_numbered (declaration a.now) < 2 ^ 32 }
    ensures { OnOk result (typed_routines routines.new
        ≡ typed_routines routines.old ++ (w.initial_made plan.now class n (declaration a.now)).routines) }
{
    let Initial { inner, .. } = build_field(plan, class, n, a)?;
    routines.append(inner)
}

/// The functions of a member, from these numbers on.
fn add_member(
    plan: &Plan,
    routines: &mut Accumulator<TypedBody>,
    parts: &ClassParts,
    next: Next,
    member: &Member,
) -> Result<(), NoMemory>
    requires plan { IsPlan plan.now }
    requires numbered { AreNumbered plan.now parts.now }
    requires functions { next.function + numbered.member_numbered (class_member member.now) < 2 ^ 32 }
    ensures { OnOk result (typed_routines routines.new
        ≡ typed_routines routines.old ++ w.member_made plan.now parts.now.class
        (w.initials_of plan.now parts.now) next.function next.declaration (class_member member.now)) }
{
    let class = parts.class;
    let n = next.function;
    match member {
        Member::Field(a) => add_inner(plan, routines, class, n, a),
        Member::Method { name: _, body } => {
            let gives = kind_at(plan.known, next.declaration);
            add_method(plan, routines, class, n, gives, body)
        }
        Member::Constructor(body) => add_constructor(plan, routines, parts, n, body),
    }
}

/// The functions of a class's members. What comes behind them.
#[tactic(auto, using(crate::proofs::ClassParts::members_next, crate::proofs::ClassParts::members_behind))]
fn add_members(
    plan: &Plan,
    routines: &mut Accumulator<TypedBody>,
    parts: &ClassParts,
) -> Result<Next, NoMemory>
    requires plan { IsPlan plan.now }
    requires numbered { AreNumbered plan.now parts.now }
    ensures routines { OnOk result (typed_routines routines.new
        ≡ typed_routines routines.old ++ w.members_made plan.now parts.now.class
        (w.initials_of plan.now parts.now) parts.now.first.function parts.now.first.declaration
        (class_members parts.now.members.now)) }
    ensures declaration { IfOk result (λ n. n.declaration
        ≡ parts.now.first.declaration + length
        (entry.member_entries (naming plan.now) parts.now.class (class_members parts.now.members.now))) }
    ensures function { IfOk result (λ n. n.function
        ≡ parts.now.first.function + h.members_routines (class_members parts.now.members.now)) }
{
    let mut next = parts.first;
    for member in parts.members {
        add_member(plan, routines, parts, next, member)?;
        next = next_member(plan, parts.class, next, member);
    }
    Ok(next)
}

/// The functions of a class, whose own declaration and first function these are. What comes behind them.
pub fn add_class(
    plan: &Plan,
    routines: &mut Accumulator<TypedBody>,
    class: u32,
    next: Next,
    members: &[Member],
) -> Result<Next, NoMemory>
    requires plan { IsPlan plan.now }
    requires declarations { next.declaration
        + suc (length (entry.member_entries (naming plan.now) class (class_members members.now))) < 2 ^ 64 }
    requires functions { next.function + (h.unwritten (class_members members.now)
        + numbered.members_numbered (class_members members.now)) < 2 ^ 32 }
    requires takes { HasFewTakes plan.now }
    ensures routines { OnOk result (typed_routines routines.new
        ≡ typed_routines routines.old ++ w.class_made plan.now class next.function (suc next.declaration)
        (class_members members.now)) }
    ensures declaration { IfOk result (λ n. n.declaration
        ≡ next.declaration + suc (length (entry.member_entries (naming plan.now) class (class_members members.now)))) }
    ensures function { IfOk result (λ n. n.function
        ≡ next.function + (h.unwritten (class_members members.now) + h.members_routines (class_members members.now))) }
{
    let count = unwritten(members);
    let first = Next {
        declaration: next.declaration + 1,
        function: next.function + count,
    };
    let parts = ClassParts {
        class,
        first,
        members,
    };
    add_unwritten(plan, routines, &parts, count)?;
    let behind = add_members(plan, routines, &parts)?;
    Ok(behind)
}
