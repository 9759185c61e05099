// Whole programs: the functions of the library, those of a text, and its main program.
ghost use Rattle.std.specs.Prelude.{◌≡◌, ℕ, suc, true, Option, ◌+◌, ◌^◌, ◌<◌, ◌∷◌, [], ◌++◌, length, IfOk, OnOk};
ghost use Rattle.sts_syntax.specs.Types.{value_types};
ghost use Rattle.sts_syntax.specs.TypedViews.{typed_statements, typed_routines, typed_program};
ghost use Rattle.sts_syntax.specs.Programs.{Class, Function, Main, class_members, top_level, top_levels, program};
ghost use Rattle.sts_syntax.specs.Views.{routine, statement};
ghost use Rattle.sts_scope.specs.Scopes.{all_names, library_classes};
ghost use Rattle.sts_scope.specs.Entries as entry;
ghost use Rattle.type_derive.specs.Derived as derived;
ghost use Rattle.typed_laws.specs.inner.FilledTexts.{filled_program};
ghost use Rattle.sts_scope.specs.Handlers as h;
ghost use Rattle.derived_types.specs.Solved.{IsSolved};
ghost use Rattle.sts_scope.specs.Numbers as number;
ghost use Rattle.typed_laws.specs.Programs.{◌before◌};
ghost use Rattle.typed_numbers.specs.Building.{numbering_of};
ghost use Rattle.typed_numbers.specs.Counts.{counts_fit};
ghost use Rattle.text_sizes.specs.Numbered as numbered;
ghost use Rattle.typed_trees.specs.Sites.{IsPlan, naming};
ghost use Rattle.typed_program.specs.Few.{AreFew, HasFewTakes};
ghost use Rattle.typed_program.specs.Wholes as w;
ghost use Rattle.typed_program.specs.Wholes.{AddsPart};

use crate::build_classes::{add_class, class_entries, global_types};
use crate::build_globals::build_main;
use crate::build_initials::add_statement;
use crate::build_parts::{Next, Whole};
use std::alloc::Global;
use sts_base::{NoMemory, Seq, Tables};
use sts_scope::Declared;
use sts_syntax::{Body, Item, Member, Stmt, Ty, Typed, TypedBody, Unit};
use text_headings::globals_in;
use type_derive::kind_at;
use typed_numbers::{names_of, numbering, routine_handlers, statement_handlers};
use typed_trees::{Accumulator, Builder, Plan, add_function};

/// A part of the library: a function of it, and those that stand in it; other parts add none.
fn add_library_item(
    plan: &Plan,
    routines: &mut Accumulator<TypedBody>,
    item: &Item,
    next: Next,
) -> Result<Next, NoMemory>
    requires plan { IsPlan plan.now }
    requires numbered { next.declaration + 1 < 2 ^ 64 }
    requires functions { next.function + numbered.item_numbered (top_level item.now) < 2 ^ 32 }
    ensures routines { OnOk result (typed_routines routines.new
        ≡ typed_routines routines.old ++ w.library_item plan.now next.declaration next.function (top_level item.now)) }
    ensures declaration { IfOk result (λ n. n.declaration
        ≡ w.library_declaration next.declaration (top_level item.now)) }
    ensures function { IfOk result (λ n. n.function ≡ w.library_function next.function (top_level item.now)) }
{
    let Item::Function { body, .. } = item else {
        return Ok(next);
    };
    let gives = kind_at(plan.known, next.declaration);
    add_function(plan, routines, true, next.function, gives, body)?;
    Ok(Next {
        declaration: next.declaration + 1,
        function: routine_handlers(body, next.function + 1),
    })
}

/// The functions of the library.
pub fn add_library(
    plan: &Plan,
    routines: &mut Accumulator<TypedBody>,
    items: &[Item],
) -> Result<(), NoMemory>
    requires plan { IsPlan plan.now }
    requires functions { numbered.all_numbered (top_levels items.now) < 2 ^ 32 }
    ensures { OnOk result (typed_routines routines.new
        ≡ typed_routines routines.old ++ w.library_made plan.now 0 0 (top_levels items.now)) }
{
    let mut next = Next {
        declaration: 0,
        function: 0,
    };
    for item in items {
        next = add_library_item(plan, routines, item, next)?;
    }
    Ok(())
}

/// The functions of a class of a text.
fn add_class_item(plan: &Plan, whole: &mut Whole, members: &[Member]) -> Result<(), NoMemory>
    requires plan { IsPlan plan.now }
    requires declarations { whole.old.declaration
        + suc (length (entry.member_entries (naming plan.now) whole.old.class (class_members members.now))) < 2 ^ 64 }
    requires functions { whole.old.builder.function
        + (h.unwritten (class_members members.now) + numbered.members_numbered (class_members members.now)) < 2 ^ 32 }
    requires classes { whole.old.class + 1 < 2 ^ 32 }
    requires takes { HasFewTakes plan.now }
    ensures { OnOk result ((at x : ℕ) (base : Option ℕ) (base_at : ℕ)
        → AddsPart plan.now whole.old whole.new (Class at x base base_at (class_members members.now))) }
{
    let next = Next {
        declaration: whole.declaration,
        function: whole.builder.function,
    };
    let class = whole.class;
    let behind = add_class(plan, &mut whole.builder.routines, class, next, members)?;
    whole.class = class + 1;
    whole.builder.function = behind.function;
    whole.declaration = behind.declaration;
    Ok(())
}

/// A function of a text, and those that stand in it.
fn add_function_item(plan: &Plan, whole: &mut Whole, body: &Body) -> Result<(), NoMemory>
    requires plan { IsPlan plan.now }
    requires numbered { whole.old.declaration + 1 < 2 ^ 64 }
    requires functions { whole.old.builder.function + suc (numbered.routine_numbered (routine body.now)) < 2 ^ 32 }
    ensures { OnOk result ((x : ℕ) → AddsPart plan.now whole.old whole.new (Function x (routine body.now))) }
{
    let n = whole.builder.function;
    let d = whole.declaration;
    let gives = kind_at(plan.known, d);
    add_function(plan, &mut whole.builder.routines, false, n, gives, body)?;
    whole.builder.function = routine_handlers(body, n + 1);
    whole.declaration = d + 1;
    Ok(())
}

/// A statement of the main program.
fn add_main_item(plan: &Plan, whole: &mut Whole, a: &Stmt) -> Result<(), NoMemory>
    requires plan { IsPlan plan.now }
    requires numbered { whole.old.declaration + length (entry.main_entries (statement a.now)) < 2 ^ 64 }
    requires locals { whole.old.builder.local + numbered.statement_numbered (statement a.now) < 2 ^ 32 }
    requires functions { whole.old.builder.function + numbered.statement_numbered (statement a.now) < 2 ^ 32 }
    ensures { OnOk result (AddsPart plan.now whole.old whole.new (Main (statement a.now))) }
{
    let n = whole.builder.function;
    let d = whole.declaration;
    let made = build_main(plan, &mut whole.builder, d, a)?;
    add_statement(&mut whole.stmts, made)?;
    whole.builder.function = statement_handlers(a, n);
    whole.declaration = d + globals_in(a);
    Ok(())
}

/// A part of a text.
fn add_item(plan: &Plan, whole: &mut Whole, item: &Item) -> Result<(), NoMemory>
    requires plan { IsPlan plan.now }
    requires declarations { whole.old.declaration
        + length (entry.item_entries (naming plan.now) whole.old.class (top_level item.now)) < 2 ^ 64 }
    requires locals { whole.old.builder.local + numbered.item_numbered (top_level item.now) < 2 ^ 32 }
    requires functions { whole.old.builder.function + numbered.item_numbered (top_level item.now) < 2 ^ 32 }
    requires classes { whole.old.class + entry.classes_in (top_level item.now) < 2 ^ 32 }
    requires takes { HasFewTakes plan.now }
    ensures { OnOk result (AddsPart plan.now whole.old whole.new (top_level item.now)) }
{
    match item {
        Item::Class {
            at: _,
            name: _,
            base: _,
            base_at: _,
            members,
        } => {
            add_class_item(plan, whole, members.as_slice())?;
            Ok(())
        }
        Item::Function { name: _, body } => {
            add_function_item(plan, whole, body)?;
            Ok(())
        }
        Item::Stmt(a) => {
            add_main_item(plan, whole, a)?;
            Ok(())
        }
    }
}

/// The parts of a text: its classes, its functions and the statements of the main program.
fn add_items(plan: &Plan, whole: &mut Whole, items: &[Item]) -> Result<(), NoMemory>
    requires plan { IsPlan plan.now }
    requires declarations { whole.old.declaration
        + length (entry.entries_from (naming plan.now) whole.old.class (top_levels items.now)) < 2 ^ 64 }
    requires locals { whole.old.builder.local + numbered.all_numbered (top_levels items.now) < 2 ^ 32 }
    requires functions { whole.old.builder.function + numbered.all_numbered (top_levels items.now) < 2 ^ 32 }
    requires classes { whole.old.class + length (entry.class_names (top_levels items.now)) < 2 ^ 32 }
    requires takes { HasFewTakes plan.now }
    ensures stmts { OnOk result (typed_statements whole.new.stmts
        ≡ (w.typed_list whole.old.stmts before (w.items_of plan.now whole.old (top_levels items.now)).it)) }
    ensures locals { OnOk result (value_types whole.new.builder.locals
        ≡ value_types whole.old.builder.locals ++ (w.items_of plan.now whole.old (top_levels items.now)).locals) }
    ensures routines { OnOk result (typed_routines whole.new.builder.routines
        ≡ typed_routines whole.old.builder.routines
        ++ (w.items_of plan.now whole.old (top_levels items.now)).routines) }
{
    for item in items {
        add_item(plan, whole, item)?;
    }
    Ok(())
}

/// The main program behind all functions.
#[tactic(auto, using(typed_trees::proofs::Laws::routines_append))]
fn with_main(plan: &Plan, whole: Whole) -> Result<Seq<TypedBody>, NoMemory>
    ensures { IfOk result (λ all. typed_routines all
        ≡ typed_routines whole.builder.routines
        ++ w.main_of (value_types whole.builder.locals) (typed_statements whole.stmts) ∷ []) }
{
    let Whole { stmts, builder, .. } = whole;
    let Builder {
        locals,
        mut routines,
        ..
    } = builder;
    let main = TypedBody {
        params: Seq::new(plan.alloc),
        locals,
        gives: Ty::NOTHING,
        stmts,
    };
    routines.push(main)?;
    routines.into_seq(plan.alloc)
}

/// How many functions there are, which is the number of the next.
#[tactic(auto, using(crate::proofs::Items::routines_long))]
fn count(routines: &Accumulator<TypedBody>) -> u32
    requires { length (typed_routines routines.now) < 2 ^ 32 }
    ensures { result ≡ length (typed_routines routines.now) }
{
    routines.len() as u32
}

/// What a library and a text behind it are built of: all functions, and the statements and locals of the main program.
fn build_whole(
    plan: &Plan,
    library: &[Item],
    text: &[Item],
    first_class: u32,
) -> Result<Whole, NoMemory>
    requires plan { IsPlan plan.now }
    requires count { plan.now.numbers.now.library ≡ h.all_routines (top_levels library.now) }
    requires declarations { plan.now.known.now.library
        + length (entry.entries_from (naming plan.now) first_class (top_levels text.now)) < 2 ^ 64 }
    requires functions { numbered.all_numbered (top_levels library.now) + numbered.all_numbered (top_levels text.now)
        < 2 ^ 32 }
    requires classes { first_class + length (entry.class_names (top_levels text.now)) < 2 ^ 32 }
    requires takes { HasFewTakes plan.now }
    ensures stmts { IfOk result (λ r. typed_statements r.stmts
        ≡ (w.text_made plan.now first_class (top_levels library.now) (top_levels text.now)).it) }
    ensures locals { IfOk result (λ r. value_types r.builder.locals
        ≡ (w.text_made plan.now first_class (top_levels library.now) (top_levels text.now)).locals) }
    ensures routines { IfOk result (λ r. typed_routines r.builder.routines
        ≡ w.library_made plan.now 0 0 (top_levels library.now)
        ++ (w.text_made plan.now first_class (top_levels library.now) (top_levels text.now)).routines) }
{
    let mut routines = Accumulator::new(plan.alloc);
    add_library(plan, &mut routines, library)?;
    let builder = Builder {
        locals: Seq::new(plan.alloc),
        routines,
        local: 0,
        function: plan.numbers.library,
    };
    let mut whole = Whole {
        stmts: Seq::new(plan.alloc),
        builder,
        class: first_class,
        declaration: plan.known.library(),
    };
    add_items(plan, &mut whole, text)?;
    Ok(whole)
}

/// The typed program of a library and a text behind it, whose first class has this number.
fn build_program(
    plan: &Plan,
    library: &[Item],
    text: &[Item],
    first_class: u32,
) -> Result<Typed, NoMemory>
    requires plan { IsPlan plan.now }
    requires count { plan.now.numbers.now.library ≡ h.all_routines (top_levels library.now) }
    requires declarations { plan.now.known.now.library
        + length (entry.entries_from (naming plan.now) first_class (top_levels text.now)) < 2 ^ 64 }
    requires functions { numbered.all_numbered (top_levels library.now) + numbered.all_numbered (top_levels text.now)
        < 2 ^ 32 }
    requires classes { first_class + length (entry.class_names (top_levels text.now)) < 2 ^ 32 }
    requires takes { HasFewTakes plan.now }
    ensures { IfOk result (λ t. typed_program t
        ≡ w.program_made plan.now first_class (top_levels library.now) (top_levels text.now)) }
{
    let classes = class_entries(plan)?;
    let globals = global_types(plan)?;
    let whole = build_whole(plan, library, text, first_class)?;
    let main = count(&whole.builder.routines);
    let functions = with_main(plan, whole)?;
    Ok(Typed {
        classes,
        functions,
        globals,
        main,
    })
}

/// The same, where all that is planned is that of the library and the text.
fn build_planned(
    plan: &Plan,
    library: &[Item],
    text: &[Item],
    first_class: u32,
) -> Result<Typed, NoMemory>
    requires plan { IsPlan plan.now }
    requires count { plan.now.numbers.now.library ≡ h.all_routines (top_levels library.now) }
    requires both { AreFew (top_levels library.now) (top_levels text.now) }
    requires names { (y : ℕ) → naming plan.now y ≡ all_names (top_levels library.now) (top_levels text.now) y }
    requires known { plan.now.known.now ≡ derived.known (top_levels library.now)
        (top_levels text.now) plan.now.known.now.kinds }
    requires numbers { numbering_of plan.now.numbers.now
        ≡ number.numbering (top_levels library.now ++ top_levels text.now) }
    requires first { first_class ≡ library_classes (top_levels library.now) (top_levels text.now) }
    ensures { IfOk result (λ t. typed_program t
        ≡ filled_program plan.now.tables.now (top_levels library.now) (top_levels text.now) plan.now.known.now.kinds) }
{
    let made = build_program(plan, library, text, first_class)?;
    Ok(made)
}

/// The typed program of a library and a text behind it whose declarations are known with their types, and of which 32 bits count the declarations and functions. Where an expression has a failure, what its
/// typed tree is doesn't matter.
#[tactic(auto, using(crate::proofs::Few::known_few))]
pub fn typed_of(
    alloc: Global,
    library: &Unit,
    text: &Unit,
    tables: &Tables,
    declared: &Declared,
) -> Result<Typed, NoMemory>
    requires solved { IsSolved tables.now (program library.now) (program text.now) declared.now }
    requires counts { counts_fit declared.now.known ≡ true }
    requires few { AreFew (program library.now) (program text.now) }
    ensures { IfOk result (λ t. typed_program t
        ≡ filled_program tables.now (program library.now) (program text.now) declared.now.known.kinds) }
{
    let numbers = numbering(alloc, library, text)?;
    let names = names_of(alloc, &declared.known)?;
    let plan = Plan {
        alloc,
        tables,
        classes: &declared.classes,
        known: &declared.known,
        numbers: &numbers,
        names: &names,
    };
    let first_class = declared.first_class;
    let library = library.items.as_slice();
    let text = text.items.as_slice();
    build_planned(&plan, library, text, first_class)
}
