//! Laws of failures and types.
ghost use Rattle.typed_laws.specs.Laws.{AcceptedIsWellTyped, FunctionsAreTheirs, HasTypes};

/// An expression without a failure has a type, where it is read.
pub fn no_failure_has_a_type()
    ensures { HasTypes }
{}

/// The typed program of an accepted text is well typed and within the counted limits, where the text has a tree as the grammar gives it, behind a library of
/// functions that have no failure.
pub fn accepted_texts_are_well_typed()
    ensures { AcceptedIsWellTyped }
{}

/// In the typed program of an accepted text each declared function and method stands at the number of its declaration, as the types and the statements of this very
/// declaration make it, with the function expressions in it behind it; and the main program is the last function.
pub fn functions_are_those_of_their_declarations()
    ensures { FunctionsAreTheirs }
{}
