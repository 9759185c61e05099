//! A typed program's image.
ghost use Rattle.std.specs.Prelude.{◌≡◌, ◌≤◌, length, map, take, IfOk};
ghost use Rattle.std.specs.List.{AllByRecursion};
ghost use Rattle.sts_syntax.specs.TypedViews.{typed_program};
ghost use Rattle.sts_syntax.specs.BoardTable.{library_size};
ghost use Rattle.sts_syntax.specs.Nodes.{NamesTexts};
ghost use Rattle.sts_syntax.specs.Weights.{routines_weight};
ghost use Rattle.sts_syntax.specs.WellTypedPrograms.{IsWellTyped, IsProgramWithinLimits};
ghost use Rattle.thumb_layout.specs.Cells.{laid};
ghost use Rattle.thumb_emit.specs.Emit.{function_pieces};
ghost use Rattle.sts_whole.specs.Building.{IsPlaceable, HasSoundPlaces, IsLayable};
ghost use Rattle.sts_whole.specs.Compiled.{functions_of, bodies_of, with_chosen_places, IsCompiled, IsImageOf};

use emitted_bytes::laid_code_keeps_its_weight;
use flat_ir::Function;
use image_link::{LinkRefused, emitted_code_can_be_linked, link, programs_within_the_limits_fit};
use lowered_code::{
    code_has_few_ops, code_is_well_formed, names_only_its_texts, only_parameters_are_live_at_entry,
};
use register_assign::{Placed, assign};
use std::alloc::Global;
use sts_base::{NoMemory, Seq, Tables};
use sts_lower::lower;
use sts_syntax::Typed;
use thumb_emit::emit;
use thumb_layout::{Laid, LayRefused, lay};

/// The functions, each with sound places for its temporaries.
fn place_all(alloc: Global, functions: &[Function]) -> Result<Vec<Placed>, NoMemory>
    requires { AllByRecursion IsPlaceable functions.now }
    ensures functions { IfOk result (λ placed. functions_of placed.items ≡ functions.now) }
    ensures sound { IfOk result (λ placed. AllByRecursion HasSoundPlaces placed.items) }
    ensures chosen { IfOk result (λ placed. placed.items ≡ map with_chosen_places functions.now) }
{
    let mut all = Vec::new(alloc);
    for function in functions {
        let placed = assign(alloc, function)?;
        if all.push(placed).is_err() {
            return Err(NoMemory);
        }
    }
    Ok(all)
}

/// The code of a function, where it isn't too long to be laid.
fn lay_function(alloc: Global, placed: &Placed) -> Result<Laid, NoMemory>
    requires { IsLayable placed.now }
    ensures { IfOk result (λ code. code ≡ laid (function_pieces placed.now)) }
{
    let pieces = emit(alloc, placed)?;
    match lay(alloc, &pieces) {
        Ok(code) => Ok(code),
        Err(LayRefused::NoMemory) => Err(NoMemory),
        Err(LayRefused::TooLong) => unreachable!(),
    }
}

/// The code of functions.
fn lay_all(alloc: Global, placed: &[Placed]) -> Result<Seq<Laid>, NoMemory>
    requires { AllByRecursion IsLayable placed.now }
    ensures { IfOk result (λ all. all ≡ map laid (bodies_of placed.now)) }
{
    let mut all = Seq::new(alloc);
    for function in placed {
        all.push(lay_function(alloc, function)?)?;
    }
    Ok(all)
}

/// The image of a well-typed program within the limits, whose texts are in the tables and whose library weighs no more than 600. The only refusal is want of
/// memory: such a program fits into flash.
pub fn compile(alloc: Global, typed: &Typed, tables: &Tables) -> Result<Vec<u8>, NoMemory>
    requires well_typed { IsWellTyped (typed_program typed.now) }
    requires limits { IsProgramWithinLimits (typed_program typed.now) tables.now.texts }
    requires library { routines_weight (take library_size (typed_program typed.now).functions) ≤ 600 }
    requires texts { NamesTexts (length tables.now.texts) (typed_program typed.now) }
    ensures compiled { IfOk result (λ image. IsCompiled (typed_program typed.now) tables.now.texts image.items) }
    ensures is_the { IfOk result (λ image. IsImageOf (typed_program typed.now) tables.now.texts image.items) }
{
    code_is_well_formed();
    only_parameters_are_live_at_entry();
    names_only_its_texts();
    code_has_few_ops();
    laid_code_keeps_its_weight();
    emitted_code_can_be_linked();
    programs_within_the_limits_fit();
    let code = lower(alloc, typed)?;
    let placed = place_all(alloc, code.functions.as_slice())?;
    let laid = lay_all(alloc, &placed)?;
    match link(alloc, &laid, &code, tables) {
        Ok(image) => Ok(image),
        Err(LinkRefused::NoMemory) => Err(NoMemory),
        Err(LinkRefused::PastFlash) => unreachable!(),
    }
}
