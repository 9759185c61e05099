// The counted limits of a typed program.
ghost use Rattle.std.specs.Prelude.{◌≡◌, ◌-◌, ◌^◌, min, true, false, OnOk, IfOk, IfSome, is_some, drop, length};
ghost use Rattle.std.specs.List.{list_all};
ghost use Rattle.sts_syntax.specs.TypedViews.{class_entry, class_entries, typed_routine, typed_routines, typed_program};
ghost use Rattle.sts_syntax.specs.BoardTable.{library_size};
ghost use Rattle.sts_syntax.specs.Weights as w;
ghost use Rattle.sts_syntax.specs.Nodes.{expressions_of, all_expressions};
ghost use Rattle.typed_limits.specs.Limits as l;
ghost use Rattle.typed_limits.specs.Uses.{noted};

use crate::text_bytes::texts_fit;
use crate::uses::{Uses, note_statements};
use std::alloc::Global;
use sts_base::{NoMemory, Seq};
use sts_syntax::{Typed, TypedBody, TypedClass, pending_words, weight};

/// How many functions the library has; they are the first ones of each program.
const LIBRARY: usize = 7;

/// Whether a class has at most 30 fields and 30 slots, those of its bases included.
#[tactic(auto, using(crate::proofs::Lengths::types_length))]
fn class_fits(class: &TypedClass) -> bool
    ensures { result ≡ l.class_fits (class_entry class.now) }
{
    class.fields.len() <= 30 && class.slots.len() <= 30
}

/// Whether each class does.
fn classes_fit(classes: &[TypedClass]) -> bool
    ensures { result ≡ list_all l.class_fits (class_entries classes.now) }
{
    for class in classes {
        if !class_fits(class) {
            return false;
        }
    }
    true
}

/// The weight of a function, of which what its expressions use is noted.
fn weigh(body: &TypedBody, uses: &mut Uses) -> Result<u64, NoMemory>
    ensures weight { IfOk result (λ n. n ≡ min (w.weight (typed_routine body.now)) (2 ^ 64 - 1)) }
    ensures uses { OnOk result (uses.new ≡ noted uses.old (expressions_of (typed_routine body.now).all)) }
{
    note_statements(body.stmts.as_slice(), uses)?;
    Ok(weight(body))
}

/// Whether a function of this weight has at most 8 parameters, 64 locals, 64 values that are pending at once, and a weight of 1,200.
#[tactic(auto, using(crate::proofs::Lengths::types_length))]
fn routine_fits(body: &TypedBody, weight: u64) -> bool
    requires { weight ≡ min (w.weight (typed_routine body.now)) (2 ^ 64 - 1) }
    ensures { result ≡ l.routine_fits (typed_routine body.now) }
{
    body.params.len() <= 8 && body.locals.len() <= 64 && weight <= 1200 && pending_words(body) <= 64
}

/// The weight of some functions together, if each fits; what their expressions use is noted then.
fn fitting_weight(bodies: &[TypedBody], uses: &mut Uses) -> Result<Option<u64>, NoMemory>
    ensures fits { IfOk result (λ sum. list_all l.routine_fits (typed_routines bodies.now) ≡ is_some sum) }
    ensures weight { IfOk result
        (λ sum. IfSome sum (λ n. n ≡ min (w.routines_weight (typed_routines bodies.now)) (2 ^ 64 - 1))) }
    ensures uses { IfOk result
        (λ sum. IfSome sum (λ n. uses.new ≡ noted uses.old (all_expressions (typed_routines bodies.now)))) }
{
    let mut sum: u64 = 0;
    for body in bodies {
        let weight = weigh(body, uses)?;
        if !routine_fits(body, weight) {
            return Ok(None);
        }
        sum = sum.saturating_add(weight);
    }
    Ok(Some(sum))
}

/// The weight of a program's functions behind the library's, if each function fits; what the expressions of all use is noted then.
fn own_weight(bodies: &[TypedBody], uses: &mut Uses) -> Result<Option<u64>, NoMemory>
    ensures fits { IfOk result (λ sum. list_all l.routine_fits (typed_routines bodies.now) ≡ is_some sum) }
    ensures weight { IfOk result (λ sum.
        IfSome sum (λ n. n ≡ min (w.routines_weight (drop library_size (typed_routines bodies.now))) (2 ^ 64 - 1))) }
    ensures uses { IfOk result
        (λ sum. IfSome sum (λ n. uses.new ≡ noted uses.old (all_expressions (typed_routines bodies.now)))) }
{
    let (library, own) = bodies.split_at(bodies.len().min(LIBRARY));
    if fitting_weight(library, uses)?.is_none() {
        return Ok(None);
    }
    let sum = fitting_weight(own, uses)?;
    Ok(sum)
}

/// Whether a program keeps the counted limits: at most 256 globals, 64 classes that fit, functions that fit, a weight of 3,600 for the text's own part, and 16,384
/// bytes for the texts that it names.
///
/// `NoMemory` is for want of memory alone.
pub fn program_fits(alloc: Global, typed: &Typed, texts: &[Seq<u8>]) -> Result<bool, NoMemory>
    ensures { IfOk result (λ fits. fits ≡ l.program_fits texts.now (typed_program typed.now)) }
{
    if typed.globals.len() > 256 {
        return Ok(false);
    }
    if typed.classes.len() > 64 {
        return Ok(false);
    }
    if !classes_fit(typed.classes.as_slice()) {
        return Ok(false);
    }
    let mut uses = Uses {
        texts: Seq::new(alloc),
        repeats: 0,
    };
    let Some(own) = own_weight(typed.functions.as_slice(), &mut uses)? else {
        return Ok(false);
    };
    let more = 8 * uses.repeats as u64 + 2 * typed.classes.len() as u64;
    let whole = own.saturating_add(more);
    if whole > 3600 {
        return Ok(false);
    }
    texts_fit(alloc, uses.texts.as_slice(), texts, 16_384)
}
