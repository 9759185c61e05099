//! The parts of an image, written one behind another.
ghost use Rattle.std.specs.Prelude.{◌≡◌, ◌++◌, ◌∷◌, [], ◌<◌, ◌≤◌, ◌+◌, ◌^◌, ℕ, Some, length, replicate, slice_index, slice_index_or, true, false, IfOk, OnOk};
ghost use Rattle.std.specs.List.{AllByRecursion, enumerate_from, filter, fold};
ghost use Rattle.thumb_code.specs.declared.instructions.Instr.TheVariants.{Svc};
ghost use Rattle.thumb_code.specs.Table.{half};
ghost use Rattle.thumb_code.specs.Map.{flash_end};
ghost use Rattle.thumb_layout.specs.Layout.{up};
ghost use Rattle.thumb_layout.specs.Cells.{word_bytes, spelled};
ghost use Rattle.image_link.specs.Image.{head, class_table, slot_words, text_bytes, is_named};
ghost use Rattle.image_link.specs.Linkable.{IsFixOf};
ghost use Rattle.image_link.specs.inner.{padded, as_addresses, ArePlaced, filled};

use crate::addresses::Addresses;
use crate::filling::{filled, word_bytes};
use flat_ir::FlatClass;
use std::alloc::Global;
use sts_base::{NoMemory, Seq};
use thumb_layout::{Laid, What};

/// The base of a built image: the end of the stack that a fiber may use.
const BASE: u32 = 0x2000_3F80;

/// The code address of the instruction that ends a fiber, to which its function returns.
const RETURN: u32 = 13;

fn put(image: &mut Vec<u8>, bytes: &[u8]) -> Result<(), NoMemory>
    ensures { OnOk result (image.new.items ≡ image.old.items ++ bytes.now) }
{
    match image.extend_from_slice(bytes) {
        Ok(()) => Ok(()),
        Err(_) => Err(NoMemory),
    }
}

/// Puts a word, from its low byte on.
fn put_word(image: &mut Vec<u8>, word: u32) -> Result<(), NoMemory>
    ensures { OnOk result (image.new.items ≡ image.old.items ++ word_bytes word) }
{
    put(image, &word_bytes(word))
}

/// Puts a part from the next multiple of 4 on.
pub fn put_part(image: &mut Vec<u8>, part: &[u8]) -> Result<(), NoMemory>
    ensures { OnOk result (image.new.items ≡ padded image.old.items ++ part.now) }
{
    match image.len() % 4 {
        0 => {}
        1 => put(image, &[0, 0, 0])?,
        2 => put(image, &[0, 0])?,
        _ => put(image, &[0])?,
    }
    put(image, part)
}

/// Puts the words at reset, and the instruction that ends a fiber.
pub fn put_head(image: &mut Vec<u8>, addresses: &Addresses, main: u32) -> Result<(), NoMemory>
    requires { ArePlaced (as_addresses addresses.now) }
    ensures { OnOk result (image.new.items ≡ image.old.items ++ head (as_addresses addresses.now) main) }
{
    put_word(image, BASE)?;
    put_word(image, addresses.word_for(What::Function(main)))?;
    put_word(image, RETURN)?;
    put(image, &[0x00, 0xDF])
}

/// Puts the code of functions.
pub fn put_code(
    alloc: Global,
    image: &mut Vec<u8>,
    laid: &[Laid],
    addresses: &Addresses,
) -> Result<(), NoMemory>
    requires placed { ArePlaced (as_addresses addresses.now) }
    requires fixes { AllByRecursion (λ l. AllByRecursion (IsFixOf (length l.bytes)) l.fixes) laid.now }
    requires short { AllByRecursion (λ l. length l.bytes ≤ flash_end) laid.now }
    ensures { let a = as_addresses addresses.now in OnOk result (image.new.items
        ≡ fold (λ bytes p. padded bytes ++ filled a (a.function p.0) p.1.fixes p.1.bytes) image.old.items
        (enumerate_from 0 laid.now)) }
{
    for (index, code) in laid.iter().enumerate() {
        let bytes = filled(alloc, code, addresses.function(index), addresses)?;
        put_part(image, &bytes)?;
    }
    Ok(())
}

/// The bytes of a class's table.
fn class_table(alloc: Global, class: &FlatClass, addresses: &Addresses) -> Result<Vec<u8>, NoMemory>
    requires { ArePlaced (as_addresses addresses.now) }
    ensures { IfOk result (λ bytes. bytes.items ≡ class_table (as_addresses addresses.now) class.now) }
{
    let mut bytes = Vec::new(alloc);
    put_word(&mut bytes, class.words)?;
    for function in class.slots.as_slice() {
        put_word(&mut bytes, addresses.word_for(What::Function(*function)))?;
    }
    Ok(bytes)
}

/// Puts the tables of classes.
pub fn put_classes(
    alloc: Global,
    image: &mut Vec<u8>,
    classes: &[FlatClass],
    addresses: &Addresses,
) -> Result<(), NoMemory>
    requires { ArePlaced (as_addresses addresses.now) }
    ensures { OnOk result (image.new.items
        ≡ fold (λ bytes c. padded bytes ++ class_table (as_addresses addresses.now) c) image.old.items classes.now) }
{
    for class in classes {
        put_part(image, &class_table(alloc, class, addresses)?)?;
    }
    Ok(())
}

/// Puts a text: a word with its length, and its bytes.
fn put_text(image: &mut Vec<u8>, text: &[u8]) -> Result<(), NoMemory>
    requires { length text.now ≤ flash_end }
    ensures { OnOk result (image.new.items ≡ padded image.old.items ++ text_bytes text.now) }
{
    put_part(image, &word_bytes(text.len() as u32))?;
    put(image, text)
}

/// Puts the texts that are marked, which are those that laid code names.
pub fn put_texts(
    image: &mut Vec<u8>,
    texts: &[Seq<u8>],
    marks: &[bool],
    laid: &[Laid],
) -> Result<(), NoMemory>
    requires long { length marks.now ≡ length texts.now }
    requires marks { (i : ℕ) → i < length texts.now → slice_index_or marks.now i false ≡ is_named laid.now i }
    requires short { (i : ℕ) → i < length texts.now → is_named laid.now i ≡ true
        → length (slice_index_or texts.now i []) ≤ flash_end }
    ensures { OnOk result (image.new.items
        ≡ fold (λ bytes p. padded bytes ++ text_bytes p.1) image.old.items
        (filter (λ p. is_named laid.now p.0) (enumerate_from 0 texts.now))) }
{
    for (index, text) in texts.iter().enumerate() {
        if marks[index] {
            put_text(image, text.as_slice())?;
        }
    }
    Ok(())
}
