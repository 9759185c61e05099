//! Images that are compiled from programs do what the programs do.
ghost use Rattle.std.specs.Prelude.{ℕ, List};
ghost use Rattle.board_world.specs.Observations.{ByteList};
ghost use Rattle.sts_syntax.specs.TypedTrees.{TypedProgram};
ghost use Rattle.sts_implements.specs.Images.{ImageImplements};
ghost use Rattle.typed_laws.specs.Buildable.{IsBuildable};
ghost use Rattle.sts_whole.specs.Compiled.{IsCompiled};
ghost use Rattle.sts_whole.specs.Laws.{OneImage};

use emit_simulation::images_do_what_flat_code_does;
use image_link::{
    emitted_code_can_be_linked, images_are_alike, linkable_code_has_an_image,
    the_image_shows_its_program,
};
use lower_simulation::lowered_code_does_what_the_source_does;
use lowered_code::{code_is_well_formed, names_only_its_texts};

/// The image that is compiled from a program implements it: the bank machine over the image does what the program's source does, whatever the free words are, on each script
/// and whatever arrives between two instructions, in at most 512 instructions for one counted step, and without a fault.
pub fn compiled_images_implement_their_programs()
    ensures { (P : TypedProgram) (texts : List ByteList) (image : List ℕ) → IsBuildable P texts
        → IsCompiled P texts image → ImageImplements P texts image }
{
    code_is_well_formed();
    lowered_code_does_what_the_source_does();
    the_image_shows_its_program();
    images_do_what_flat_code_does();
}

/// A program with its texts has one image, and has one where it can be built.
pub fn images_are_one()
    ensures { OneImage }
{
    code_is_well_formed();
    names_only_its_texts();
    emitted_code_can_be_linked();
    linkable_code_has_an_image();
    images_are_alike();
}
