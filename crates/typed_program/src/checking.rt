// Whether a text is accepted: its typed program, or its first failure.
ghost use Rattle.std.specs.Prelude.{IfOk, IfErr};
ghost use Rattle.sts_syntax.specs.Programs.{program};
ghost use Rattle.sts_syntax.specs.TypedViews.{typed_program};
ghost use Rattle.sts_base.specs.declared.refused.Code.TheVariants.{OverLimit};
ghost use Rattle.sts_scope.specs.Failures.{Finds, unless};
ghost use Rattle.typed_numbers.specs.Counts.{counts_fit};
ghost use Rattle.typed_laws.specs.Accepted.{limits_failure};
ghost use Rattle.typed_laws.specs.inner.FilledTexts.{IsFilled};
ghost use Rattle.typed_program.specs.Checking.{RefusesTrees};
ghost use Rattle.typed_program.specs.Few.{AreFew};

use crate::build_program::typed_of;
use derived_types::solve;
use std::alloc::Global;
use sts_base::{Code, Refused, Tables};
use sts_scope::{Environment, or_no_memory, unless};
use sts_syntax::{Typed, Unit};
use text_headings::headings;
use type_check::find_failure;
use typed_limits::program_fits;
use typed_numbers::counts_fit;

/// The counted limits.
fn check_limits(alloc: Global, typed: &Typed, tables: &Tables) -> Result<(), Refused>
    ensures { Finds result (limits_failure tables.now.texts (typed_program typed.now)) }
{
    let fits = or_no_memory(program_fits(alloc, typed, tables.texts.as_slice()))?;
    unless(fits, Code::OverLimit, 0)
}

/// The counted limits that declarations alone tell, before anything is built of them.
fn check_counts(alloc: Global, known: &Environment) -> Result<(), Refused>
    ensures { Finds result (unless (counts_fit known.now) OverLimit 0) }
{
    let fits = or_no_memory(counts_fit(alloc, known))?;
    unless(fits, Code::OverLimit, 0)
}

/// The typed program of a text behind a library, whose names and texts stand in the tables, and of which 32 bits count the declarations and functions.
///
/// Refused with the text's first failure: those of `resolve`; an overriding method with other parameters or another result (`Mismatch`); then in text
/// order what names, types, calls and statements have (`UnknownName`, `Captures`, `Mismatch`, `NeedsType`, `BadHandler`); and `OverLimit` at 0 where a
/// counted limit is passed. The library itself is never refused.
pub fn check(alloc: Global, library: &Unit, text: &Unit, tables: &Tables) -> Result<Typed, Refused>
    requires few { AreFew (program library.now) (program text.now) }
    ensures accepted { IfOk result (λ t. IsFilled tables.now (program library.now) (program text.now)
        (typed_program t)) }
    ensures refused { IfErr result (λ why. RefusesTrees why tables.now (program library.now) (program text.now)) }
{
    let mut declared = headings(alloc, library, text, tables)?;
    or_no_memory(solve(alloc, library, text, tables, &mut declared))?;
    find_failure(alloc, text, tables, &declared)?;
    check_counts(alloc, &declared.known)?;
    let typed = or_no_memory(typed_of(alloc, library, text, tables, &declared))?;
    check_limits(alloc, &typed, tables)?;
    Ok(typed)
}
