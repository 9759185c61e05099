// The functions of the library, from the tokens of its text.
ghost use Rattle.std.specs.Prelude.{◌≡◌, ◌≤◌, ◌<◌, IfOk};
ghost use Rattle.sts_prelude.specs.Library as l;
ghost use Rattle.sts_syntax.specs.Annotations.{annotation};
ghost use Rattle.sts_syntax.specs.Programs.{top_level, program};
ghost use Rattle.sts_syntax.specs.Trees.{Return, also, done, present};
ghost use Rattle.sts_syntax.specs.Views.{parameter, parameters, statement, statements, tree};

use crate::nodes::{
    declare, entry, glyph, glyph_loop, member_call, name, number, one, pause, place, show, text,
    two,
};
use std::alloc::Global;
use sts_base::{NoMemory, Seq};
use sts_lexer::Token;
use sts_syntax::operators::{GREATER, LESS, SUBTRACT};
use sts_syntax::{Expr, Item, Param, Shape, Stmt, Unit, build};

/// The statements of `$showLeds`, from a token on.
fn show_leds(alloc: Global, tokens: &Seq<Token>, i: usize) -> Result<Seq<Stmt>, NoMemory>
    requires { i < 900 }
    ensures { IfOk result (λ all. statements all ≡ l.show_leds tokens.now i) }
{
    let mut all = Seq::new(alloc);
    all.push(show(alloc, tokens, i)?)?;
    all.push(pause(alloc, tokens, i + 5)?)?;
    Ok(all)
}

/// `let g = $glyph(x, 0)` from a token on.
fn first_glyph(alloc: Global, tokens: &Seq<Token>, i: usize) -> Result<Stmt, NoMemory>
    requires { i < 900 }
    ensures { IfOk result (λ s. statement s ≡ l.first_glyph tokens.now i) }
{
    let found = glyph(alloc, tokens, i + 3, number(tokens, i + 7, 0))?;
    declare(alloc, tokens, i, found)
}

/// The statements of `$showNumber` and `$showString`, from a token on.
fn show_glyphs(alloc: Global, tokens: &Seq<Token>, i: usize) -> Result<Seq<Stmt>, NoMemory>
    requires { i < 700 }
    ensures { IfOk result (λ all. statements all ≡ l.show_glyphs tokens.now i) }
{
    let mut all = Seq::new(alloc);
    all.push(declare(alloc, tokens, i, number(tokens, i + 3, 0))?)?;
    all.push(first_glyph(alloc, tokens, i + 4)?)?;
    all.push(glyph_loop(alloc, tokens, i + 13)?)?;
    Ok(all)
}

/// The statements of `$writeLine`, from a token on.
fn write_line(alloc: Global, tokens: &Seq<Token>, i: usize) -> Result<Seq<Stmt>, NoMemory>
    requires { i < 900 }
    ensures { IfOk result (λ all. statements all ≡ l.write_line tokens.now i) }
{
    let mut all = Seq::new(alloc);
    all.push(member_call(alloc, tokens, i, name(tokens, i + 4))?)?;
    all.push(member_call(alloc, tokens, i + 7, text(tokens, i + 11))?)?;
    Ok(all)
}

/// A list of one statement, which returns a value.
fn returned(alloc: Global, at: u32, value: Expr) -> Result<Seq<Stmt>, NoMemory>
    ensures { IfOk result (λ all. statements all ≡ also (Return at (present (tree value))) done) }
{
    one(alloc, build::returning(at, Some(value)))
}

/// `return n < 0 ? 0 - n : n` from a token on.
fn absolute(alloc: Global, tokens: &Seq<Token>, i: usize) -> Result<Seq<Stmt>, NoMemory>
    requires { i < 900 }
    ensures { IfOk result (λ all. statements all ≡ l.absolute tokens.now i) }
{
    let at = place(tokens, i + 1);
    let below = build::boxed(
        alloc,
        build::binary(
            alloc,
            at,
            LESS,
            name(tokens, i + 1),
            number(tokens, i + 3, 0),
        )?,
    )?;
    let zero = number(tokens, i + 5, 0);
    let turned = build::binary(
        alloc,
        place(tokens, i + 5),
        SUBTRACT,
        zero,
        name(tokens, i + 7),
    )?;
    let value = build::choice(
        alloc,
        at,
        Box::into_inner(below),
        turned,
        name(tokens, i + 9),
    )?;
    returned(alloc, place(tokens, i), value)
}

/// `return a < b ? a : b` from a token on, with the number of the operator.
fn one_of_two(alloc: Global, tokens: &Seq<Token>, i: usize, op: u8) -> Result<Seq<Stmt>, NoMemory>
    requires { i < 900 }
    ensures { IfOk result (λ all. statements all ≡ l.one_of_two tokens.now i op) }
{
    let at = place(tokens, i + 1);
    let test = build::binary(alloc, at, op, name(tokens, i + 1), name(tokens, i + 3))?;
    let value = build::choice(alloc, at, test, name(tokens, i + 5), name(tokens, i + 7))?;
    returned(alloc, place(tokens, i), value)
}

/// The parameter at a token, of a type.
fn parameter(tokens: &Seq<Token>, i: usize, shape: Shape) -> Param
    ensures { parameter result ≡ l.parameter tokens.now i (annotation shape) }
{
    Param {
        at: place(tokens, i),
        name: entry(tokens, i),
        shape: Some(shape),
    }
}

/// A function whose word is a token.
fn function(tokens: &Seq<Token>, i: usize, params: Seq<Param>, gives: Shape, all: Seq<Stmt>) -> Item
    requires { i < 900 }
    ensures { top_level result ≡ l.function tokens.now i (parameters params) (annotation gives) (statements all) }
{
    let at = place(tokens, i + 1);
    Item::Function {
        name: entry(tokens, i + 1),
        body: build::body(at, params, Some(gives), all, false),
    }
}

/// A function of one parameter, whose word is a token.
fn of_parameter(
    alloc: Global,
    tokens: &Seq<Token>,
    i: usize,
    shape: Shape,
    gives: Shape,
    all: Seq<Stmt>,
) -> Result<Item, NoMemory>
    requires { i < 900 }
    ensures { IfOk result (λ item. top_level item ≡ l.of_parameter tokens.now i (annotation shape) (annotation gives) (statements all)) }
{
    let params = one(alloc, parameter(tokens, i + 3, shape))?;
    Ok(function(tokens, i, params, gives, all))
}

/// `$min` or `$max`, whose word is a token, by the number of its operator.
fn least_or_greatest(alloc: Global, tokens: &Seq<Token>, i: usize, op: u8) -> Result<Item, NoMemory>
    requires { i < 800 }
    ensures { IfOk result (λ item. top_level item ≡ l.least_or_greatest tokens.now i op) }
{
    let all = one_of_two(alloc, tokens, i + 14, op)?;
    let first = parameter(tokens, i + 3, Shape::Number);
    let params = two(alloc, first, parameter(tokens, i + 7, Shape::Number))?;
    Ok(function(tokens, i, params, Shape::Number, all))
}

/// The library's tree, from the tokens of its text.
pub fn library_of(alloc: Global, tokens: &Seq<Token>) -> Result<Unit, NoMemory>
    ensures { IfOk result (λ unit. program unit ≡ l.library tokens.now) }
{
    let mut items = Seq::new(alloc);
    let leds = show_leds(alloc, tokens, 10)?;
    items.push(of_parameter(alloc, tokens, 0, Shape::Number, Shape::Nothing, leds)?)?;
    let number = show_glyphs(alloc, tokens, 32)?;
    items.push(of_parameter(alloc, tokens, 22, Shape::Number, Shape::Nothing, number)?)?;
    let string = show_glyphs(alloc, tokens, 88)?;
    items.push(of_parameter(alloc, tokens, 78, Shape::Text, Shape::Nothing, string)?)?;
    let line = write_line(alloc, tokens, 144)?;
    items.push(of_parameter(alloc, tokens, 134, Shape::Text, Shape::Nothing, line)?)?;
    let abs = absolute(alloc, tokens, 168)?;
    items.push(of_parameter(alloc, tokens, 158, Shape::Number, Shape::Number, abs)?)?;
    items.push(least_or_greatest(alloc, tokens, 179, LESS)?)?;
    items.push(least_or_greatest(alloc, tokens, 202, GREATER)?)?;
    Ok(Unit { items })
}
