// The command `build`.
ghost use Rattle.std.specs.Prelude.{◌≡◌, ◌≤◌, List, vec_len, IfOk, IfErr, OnOk};
ghost use Rattle.thumb_code.specs.Map.{flash_end};
ghost use Rattle.board_world.specs.Observations.{ByteList};
ghost use Rattle.sts_syntax.specs.TypedTrees.{TypedProgram};
ghost use Rattle.sts_whole.specs.Compiled.{IsBuiltFor};
ghost use Rattle.run_tool.specs.Built.{Builds};
ghost use Rattle.sts_base.specs.Faults.{Rose};
ghost use Rattle.run_tool.specs.Answers.{IsFailureTold};
ghost use Rattle.run_tool.specs.inner.{GivesOneOf, none_to_read, FoundNoMemory};
ghost use Rattle.run_tool.specs.Programs.{OverProgram, BuildsText, WritesImage};
ghost use Rattle.run_tool.specs.Wanted.{HasAsked, WantsFile, wants_none};
ghost use Rattle.run_tool.specs.Files.{told_by, AnswersFile};

use crate::ending::{Ending, Status};
use crate::fetched::text_of;
use crate::said::{say, say_refusal};
use hex_image::write_hex;
use std::alloc::Global;
use sts_base::NoMemory;
use tool_folder::Folder;
use tool_io::Sink;

/// The image that is built of a text, with nothing written. Where the text is refused, the answer that says so was given.
pub fn image_of<K: Sink>(alloc: Global, text: &[u8], out: &mut K) -> Result<Vec<u8>, Ending>
    ensures built { IfOk result (λ image. Builds text.now image.items) }
    ensures unwritten { OnOk result (K.taken out.new ≡ K.taken out.old) }
    ensures none { IfErr result (GivesOneOf K.taken K.faults out.old out.new
        (OverProgram (λ P. none_to_read) text.now)) }
    ensures later { K.faults out.old ≤ K.faults out.new }
{
    match crate::images::build(alloc, text) {
        Ok(image) => Ok(image),
        Err(why) => Err(say_refusal(out, text, why)),
    }
}

/// Writes an image that implements a program as HEX.
fn write_image<K: Sink>(alloc: Global, image: Vec<u8>, out: &mut K) -> Ending
    requires size { vec_len image ≤ flash_end }
    ensures { (P : TypedProgram) (texts : List ByteList) → IsBuiltFor P texts image.items
        → GivesOneOf K.taken K.faults out.old out.new (WritesImage P texts) result }
{
    match write_hex(alloc, &image) {
        Ok(hex) => say(out, Status::Done, &hex),
        Err(NoMemory) => Ending::NoMemory,
    }
}

/// Writes the image that is built of a text as HEX.
fn build_text<K: Sink>(alloc: Global, text: &[u8], out: &mut K) -> Ending
    ensures { GivesOneOf K.taken K.faults out.old out.new (BuildsText text.now) result }
{
    match image_of(alloc, text, out) {
        Ok(image) => write_image(alloc, image, out),
        Err(ending) => ending,
    }
}

/// The command `build`.
pub fn build<F: Folder, K: Sink>(alloc: Global, name: &str, folder: &mut F, out: &mut K) -> Ending
    ensures answer { GivesOneOf K.taken K.faults out.old out.new
        (AnswersFile (told_by F.holds F.faults folder.old folder.new) name.now BuildsText) result }
    ensures asked { HasAsked F.asked folder.old folder.new
        (WantsFile (told_by F.holds F.faults folder.old folder.new) (FoundNoMemory result)
        name.now (λ text. wants_none)) }
    ensures folder_later { F.faults folder.old ≤ F.faults folder.new }
    ensures failure { IsFailureTold (F.faults folder.old) (F.faults folder.new) result }
{
    match text_of(alloc, name, folder, out) {
        Ok(text) => build_text(alloc, &text, out),
        Err(ending) => ending,
    }
}
