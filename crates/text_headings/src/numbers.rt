// The numbers of declarations and classes.
ghost use Rattle.std.specs.Prelude.{◌≡◌, Some, length};
ghost use Rattle.sts_syntax.specs.Views.{statement};
ghost use Rattle.sts_scope.specs.Entries as entry;
ghost use Rattle.sts_scope.specs.Lookup as look;
ghost use Rattle.sts_scope.specs.declared.entries.DeclarationKind.TheVariants as sort;
ghost use Rattle.text_headings.specs.Standing.{classes_before};

use sts_scope::{DeclarationKind, Environment, sort_of};
use sts_syntax::{Form, Stmt};

/// The number of the class that is the d-th declaration, by that declaration: as many classes stand before it.
pub fn class_at(known: &Environment, d: usize) -> u32
    requires { look.sort_of known.now.entries d ≡ Some (sort.Class (classes_before known.now.entries d)) }
    ensures { result ≡ classes_before known.now.entries d }
{
    match sort_of(known.entries().as_slice(), d) {
        Some(DeclarationKind::Class(c)) => c,
        _ => unreachable!(),
    }
}

/// How many globals a statement of the main program declares.
pub fn globals_in(s: &Stmt) -> usize
    ensures { result ≡ length (entry.main_entries (statement s.now)) }
{
    match &s.form {
        Form::Let { fixed: _, each } => each.len(),
        Form::Block(_) => 0,
        Form::If(_, _, _) => 0,
        Form::While(_, _) => 0,
        Form::DoWhile(_, _) => 0,
        Form::For(_, _, _, _) => 0,
        Form::ForOf {
            fixed: _,
            name: _,
            list: _,
            body: _,
        } => 0,
        Form::Return(_) => 0,
        Form::Break => 0,
        Form::Continue => 0,
        Form::Plain(_) => 0,
        Form::Empty => 0,
    }
}
