//! Texts and their images.
ghost use Rattle.std.specs.Prelude.{IfOk, IfErr};
ghost use Rattle.typed_program.specs.Accepting.{RefusesText};
ghost use Rattle.run_tool.specs.Built.{Builds, TextHasOneImage};

use std::alloc::Global;
use sts_base::{NoMemory, Refused};
use sts_whole::{compile, compiled_images_implement_their_programs, images_are_one};
use typed_program::{accept, accepted_programs_are_buildable, one_answer};

/// A text that is accepted has one image: there is that of its program, and what is built of it twice is the same.
pub fn texts_have_one_image()
    ensures { TextHasOneImage }
{
    one_answer();
    accepted_programs_are_buildable();
    images_are_one();
}

/// The image of a text, which implements the program as which the text is accepted, with any free words, on each script and whatever arrives.
///
/// Refused exactly where `accept` is, with the same code and place.
pub fn build(alloc: Global, text: &[u8]) -> Result<Vec<u8>, Refused>
    ensures built { IfOk result (λ image. Builds text.now image.items) }
    ensures refused { IfErr result (RefusesText text.now) }
{
    accepted_programs_are_buildable();
    compiled_images_implement_their_programs();
    match accept(alloc, text) {
        Ok((typed, tables)) => match compile(alloc, &typed, &tables) {
            Ok(image) => Ok(image),
            Err(NoMemory) => Err(Refused::NoMemory),
        },
        Err(why) => Err(why),
    }
}
