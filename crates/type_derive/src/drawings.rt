// Text literals that draw a frame.
ghost use Rattle.std.specs.Prelude.{◌≡◌};
ghost use Rattle.sts_syntax.specs.Views.{tree};
ghost use Rattle.type_derive.specs.Typing as typing;

use sts_base::Tables;
use sts_syntax::{Expr, Node};

fn is_white(b: u8) -> bool
    ensures { result ≡ typing.is_white b }
{
    b == 32 || b == 9 || b == 10 || b == 13
}

fn is_dot_or_hash(b: u8) -> bool
    ensures { result ≡ typing.is_dot_or_hash b }
{
    b == 46 || b == 35
}

/// Whether a text draws a frame: its characters other than white space are 25 of `.` and `#`.
pub fn draws(bytes: &[u8]) -> bool
    ensures { result ≡ typing.draws bytes.now }
{
    let mut count: usize = 0;
    let mut fits = true;
    for i in 0..bytes.len() {
        if !is_white(bytes[i]) {
            count += 1;
            fits = fits && is_dot_or_hash(bytes[i]);
        }
    }
    count == 25 && fits
}

/// Whether an expression is a text literal that draws a frame.
pub fn is_drawing(tables: &Tables, e: &Expr) -> bool
    ensures { result ≡ typing.is_drawing tables.now (tree e.now) }
{
    match &e.node {
        Node::Text(n) => match tables.texts.get(*n as usize) {
            None => false,
            Some(bytes) => draws(bytes.as_slice()),
        },
        _ => false,
    }
}
