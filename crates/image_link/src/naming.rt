//! Which texts code names.
ghost use Rattle.std.specs.Prelude.{◌≡◌, ◌||◌, ℕ, ◌<◌, false, length, slice_index_or, replicate, IfOk};
ghost use Rattle.std.specs.List.{list_any};
ghost use Rattle.image_link.specs.Image.{is_this_text, is_named};

use std::alloc::Global;
use sts_base::NoMemory;
use thumb_layout::{Fix, Laid, What};

/// Marks the text that a fix names.
fn mark_text(marks: &mut [bool], what: What)
    ensures marks { (i : ℕ) → i < length marks.old
        → slice_index_or marks.new i false ≡ (is_this_text i what || slice_index_or marks.old i false) }
{
    if let What::Text(text) = what {
        if (text as usize) < marks.len() {
            marks[text as usize] = true;
        }
    }
}

/// Marks the texts that fixes name.
fn mark_texts(marks: &mut [bool], fixes: &[Fix])
    ensures marks { (i : ℕ) → i < length marks.old
        → slice_index_or marks.new i false ≡ (list_any (λ f. is_this_text i f.what) fixes.now || slice_index_or marks.old i false) }
{
    for fix in fixes {
        mark_text(marks, fix.what);
    }
}

/// So many texts, none of which is marked.
fn no_marks(alloc: Global, count: usize) -> Result<Vec<bool>, NoMemory>
    ensures { IfOk result (λ marks. marks.items ≡ replicate count false) }
{
    let mut marks = Vec::new(alloc);
    for _ in 0..count {
        if marks.push(false).is_err() {
            return Err(NoMemory);
        }
    }
    Ok(marks)
}

/// Of each of so many texts whether laid code names it.
pub fn named_texts(alloc: Global, laid: &[Laid], count: usize) -> Result<Vec<bool>, NoMemory>
    ensures long { IfOk result (λ marks. length marks.items ≡ count) }
    ensures marks { IfOk result
        (λ marks. (i : ℕ) → i < count → slice_index_or marks.items i false ≡ is_named laid.now i) }
{
    let mut marks = no_marks(alloc, count)?;
    for code in laid {
        mark_texts(&mut marks, code.fixes.as_slice());
    }
    Ok(marks)
}
