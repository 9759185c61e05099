//! Linking.
ghost use Rattle.std.specs.Prelude.{◌≡◌, ◌<◌, ◌≤◌, List, ℕ, length, IfOk, IfErr};
ghost use Rattle.thumb_code.specs.Map.{flash_end};
ghost use Rattle.image_link.specs.Image.{IsLinked};
ghost use Rattle.image_link.specs.Linkable.{IsLinkable};

use crate::addresses::{
    Addresses, HEAD, class_lengths, code_lengths, end_with, place, text_lengths, up,
};
use crate::naming::named_texts;
use crate::refused::LinkRefused;
use crate::writing::{put_classes, put_code, put_head, put_part, put_texts};
use flat_ir::FlatCode;
use std::alloc::Global;
use sts_base::{Seq, Tables};
use thumb_divide::routine;
use thumb_layout::Laid;

/// The image of a program: its functions as they were laid, the code that they come from, and its texts.
///
/// It begins with the base, main's code address, the code address to which a fiber's function returns, and the instruction there, which
/// ends the fiber. Then come, each from the next multiple of 4 on, the functions' code in order, the division routine, for each class a word
/// with the number of words of its objects and one a slot with the method's code address, and in the order of their numbers the texts of
/// which some word stands in the code, each a word with the length and the bytes. A BL stands at each call, and at each other fix
/// the word for what it names.
///
/// `PastFlash` comes exactly where this is more than 262,144 bytes.
pub fn link(
    alloc: Global,
    laid: &Seq<Laid>,
    code: &FlatCode,
    tables: &Tables,
) -> Result<Vec<u8>, LinkRefused>
    requires { IsLinkable laid.now code.now (length tables.now.texts) }
    ensures linked { IfOk result (λ bytes. IsLinked laid.now code.now tables.now.texts bytes.items) }
    ensures fits { IfOk result (λ bytes. length bytes.items ≤ flash_end) }
    ensures past_flash { IfErr result (λ why. why ≡ LinkRefused.PastFlash
        → (image : List ℕ) × IsLinked laid.now code.now tables.now.texts image × (flash_end < length image)) }
{
    let laid = laid.as_slice();
    let classes = code.classes.as_slice();
    let texts = tables.texts.as_slice();
    let marks = named_texts(alloc, laid, texts.len())?;
    let mut end = HEAD;
    let function_starts = place(alloc, &code_lengths(alloc, laid)?, &mut end)?;
    let routine_start = up(end);
    end = end_with(end, Some(routine().len()))?;
    let class_starts = place(alloc, &class_lengths(alloc, classes)?, &mut end)?;
    let text_starts = place(alloc, &text_lengths(alloc, texts, &marks, laid)?, &mut end)?;
    let addresses = Addresses {
        functions: function_starts,
        routine: routine_start,
        classes: class_starts,
        texts: text_starts,
    };
    let mut image = Vec::new(alloc);
    put_head(&mut image, &addresses, code.main)?;
    put_code(alloc, &mut image, laid, &addresses)?;
    put_part(&mut image, routine())?;
    put_classes(alloc, &mut image, classes, &addresses)?;
    put_texts(&mut image, texts, &marks, laid)?;
    Ok(image)
}
