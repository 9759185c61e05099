// What stands below lines.
ghost use Rattle.std.specs.Prelude.{◌≡◌, ◌++◌, ◌∷◌, [], OnOk, map};
ghost use Rattle.std.specs.Option.{option_map};
ghost use Rattle.view_forms.specs.Parts.{lines_in};
ghost use Rattle.view_forms.specs.Rows.{text_of_rows};
ghost use Rattle.view_forms.specs.Below as spec;

use crate::parts::first_line;
use std::alloc::AllocError;
use view_forms::Below;

/// The text that explains a line.
pub fn explanation_of<'a>(below: &[Below<'a>], line: &[u8]) -> Option<&'a [u8]>
    ensures { option_map (λ text. text.now) result ≡ spec.explanation_of below.now line.now }
{
    for it in below {
        if it.line == line {
            return Some(it.text);
        }
    }
    None
}

/// Adds the row of a line of it.
fn push_marked(out: &mut Vec<u8>, line: &[u8]) -> Result<(), AllocError>
    ensures { OnOk result (out.new.items ≡ out.old.items ++ (spec.marked line.now ++ 10 ∷ [])) }
{
    out.extend_from_slice(b"  | ")?;
    out.extend_from_slice(line)?;
    out.push(b'\n')?;
    Ok(())
}

/// Adds the rows of a text that explains a line.
pub fn push_explanation(out: &mut Vec<u8>, text: &[u8]) -> Result<(), AllocError>
    ensures { OnOk result (out.new.items ≡ out.old.items ++ text_of_rows (map spec.marked (lines_in text.now))) }
{
    let mut left = text;
    while !left.is_empty() {
        let (line, rest) = first_line(left);
        push_marked(out, line)?;
        left = rest;
    }
    Ok(())
}
