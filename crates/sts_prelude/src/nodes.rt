// The forms of expression and statement that the library's text has, from its tokens.
ghost use Rattle.std.specs.Prelude.{◌≡◌, ◌<◌, [], ◌∷◌, IfOk};
ghost use Rattle.sts_prelude.specs.Library as l;
ghost use Rattle.sts_syntax.specs.Trees.{Text};
ghost use Rattle.sts_syntax.specs.Views.{tree, trees, statement, statements};

use std::alloc::Global;
use sts_base::{NoMemory, Seq};
use sts_lexer::{Token, TokenKind};
use sts_syntax::operators::{ADD, AT_LEAST};
use sts_syntax::{Expr, Node, Stmt, build};

/// The place of a token.
pub fn place(tokens: &Seq<Token>, i: usize) -> u32
    ensures { result ≡ l.place tokens.now i }
{
    match tokens.get(i) {
        Some(token) => token.span.from,
        None => 0,
    }
}

/// The entry that a token names; 0 where it names none.
pub fn entry(tokens: &Seq<Token>, i: usize) -> u32
    ensures { result ≡ l.named_at tokens.now i }
{
    match tokens.get(i) {
        Some(token) => match token.kind {
            TokenKind::Name(entry) => entry,
            TokenKind::Word(_, entry) => entry,
            TokenKind::Text(entry) => entry,
            _ => 0,
        },
        None => 0,
    }
}

/// A list of one.
pub fn one<T: Drop>(alloc: Global, item: T) -> Result<Seq<T>, NoMemory>
    ensures { IfOk result (λ all. all ≡ item ∷ []) }
{
    let mut all = Seq::new(alloc);
    all.push(item)?;
    Ok(all)
}

/// A list of two.
pub fn two<T: Drop>(alloc: Global, first: T, second: T) -> Result<Seq<T>, NoMemory>
    ensures { IfOk result (λ all. all ≡ first ∷ second ∷ []) }
{
    let mut all = one(alloc, first)?;
    all.push(second)?;
    Ok(all)
}

/// The name at a token.
pub fn name(tokens: &Seq<Token>, i: usize) -> Expr
    ensures { tree result ≡ l.name tokens.now i }
{
    Expr {
        at: place(tokens, i),
        node: Node::Name(entry(tokens, i)),
    }
}

/// The number at a token.
pub fn number(tokens: &Seq<Token>, i: usize, value: i32) -> Expr
    ensures { tree result ≡ l.number tokens.now i value }
{
    Expr {
        at: place(tokens, i),
        node: Node::Num(value),
    }
}

/// The text at a token.
pub fn text(tokens: &Seq<Token>, i: usize) -> Expr
    ensures { tree result ≡ Text (l.place tokens.now i) (l.named_at tokens.now i) }
{
    Expr {
        at: place(tokens, i),
        node: Node::Text(entry(tokens, i)),
    }
}

/// `f(..)` from a token on.
pub fn call(alloc: Global, tokens: &Seq<Token>, i: usize, args: Seq<Expr>) -> Result<Expr, NoMemory>
    ensures { IfOk result (λ e. tree e ≡ l.call tokens.now i (trees args)) }
{
    build::call(alloc, place(tokens, i), name(tokens, i), args)
}

/// `x.f(argument);` from a token on.
pub fn member_call(
    alloc: Global,
    tokens: &Seq<Token>,
    i: usize,
    argument: Expr,
) -> Result<Stmt, NoMemory>
    requires { i < 1000 }
    ensures { IfOk result (λ s. statement s ≡ l.member_call tokens.now i (tree argument)) }
{
    let at = place(tokens, i);
    let args = one(alloc, argument)?;
    let callee = build::member(alloc, at, name(tokens, i), entry(tokens, i + 2))?;
    Ok(build::plain(at, build::call(alloc, at, callee, args)?))
}

/// `$show(x);` from a token on.
pub fn show(alloc: Global, tokens: &Seq<Token>, i: usize) -> Result<Stmt, NoMemory>
    requires { i < 1000 }
    ensures { IfOk result (λ s. statement s ≡ l.show tokens.now i) }
{
    let args = one(alloc, name(tokens, i + 2))?;
    let shown = call(alloc, tokens, i, args)?;
    Ok(build::plain(place(tokens, i), shown))
}

/// `basic.pause(400);` from a token on.
pub fn pause(alloc: Global, tokens: &Seq<Token>, i: usize) -> Result<Stmt, NoMemory>
    requires { i < 1000 }
    ensures { IfOk result (λ s. statement s ≡ l.pause tokens.now i) }
{
    member_call(alloc, tokens, i, number(tokens, i + 4, 400))
}

/// `$glyph(x, index)` from a token on.
pub fn glyph(alloc: Global, tokens: &Seq<Token>, i: usize, index: Expr) -> Result<Expr, NoMemory>
    requires { i < 1000 }
    ensures { IfOk result (λ e. tree e ≡ l.glyph tokens.now i (tree index)) }
{
    let args = two(alloc, name(tokens, i + 2), index)?;
    call(alloc, tokens, i, args)
}

/// `let x = first` from a token on.
pub fn declare(alloc: Global, tokens: &Seq<Token>, i: usize, first: Expr) -> Result<Stmt, NoMemory>
    requires { i < 1000 }
    ensures { IfOk result (λ s. statement s ≡ l.declare tokens.now i (tree first)) }
{
    let binding = build::binding(
        place(tokens, i + 1),
        entry(tokens, i + 1),
        None,
        Some(first),
    );
    let each = one(alloc, binding)?;
    Ok(build::declaring(place(tokens, i), false, each))
}

/// `i += 1;` from a token on.
fn count(alloc: Global, tokens: &Seq<Token>, i: usize) -> Result<Stmt, NoMemory>
    requires { i < 1000 }
    ensures { IfOk result (λ s. statement s ≡ l.count tokens.now i) }
{
    let at = place(tokens, i);
    let added = build::set(
        alloc,
        at,
        Some(ADD),
        name(tokens, i),
        number(tokens, i + 2, 1),
    )?;
    Ok(build::plain(at, added))
}

/// `g = $glyph(x, i)` from a token on.
fn next_glyph(alloc: Global, tokens: &Seq<Token>, i: usize) -> Result<Stmt, NoMemory>
    requires { i < 950 }
    ensures { IfOk result (λ s. statement s ≡ l.next_glyph tokens.now i) }
{
    let at = place(tokens, i);
    let found = glyph(alloc, tokens, i + 2, name(tokens, i + 6))?;
    let set = build::set(alloc, at, None, name(tokens, i), found)?;
    Ok(build::plain(at, set))
}

/// `$show(g); basic.pause(400); i += 1; g = $glyph(x, i)` from a token on.
fn turn(alloc: Global, tokens: &Seq<Token>, i: usize) -> Result<Seq<Stmt>, NoMemory>
    requires { i < 900 }
    ensures { IfOk result (λ all. statements all ≡ l.turn tokens.now i) }
{
    let mut all = Seq::new(alloc);
    all.push(show(alloc, tokens, i)?)?;
    all.push(pause(alloc, tokens, i + 5)?)?;
    all.push(count(alloc, tokens, i + 12)?)?;
    all.push(next_glyph(alloc, tokens, i + 16)?)?;
    Ok(all)
}

/// `while (g >= 0) { .. }` from a token on.
pub fn glyph_loop(alloc: Global, tokens: &Seq<Token>, i: usize) -> Result<Stmt, NoMemory>
    requires { i < 800 }
    ensures { IfOk result (λ s. statement s ≡ l.glyph_loop tokens.now i) }
{
    let all = turn(alloc, tokens, i + 7)?;
    let seen = name(tokens, i + 2);
    let none = number(tokens, i + 4, 0);
    let test = build::binary(alloc, place(tokens, i + 2), AT_LEAST, seen, none)?;
    build::while_loop(
        alloc,
        place(tokens, i),
        test,
        build::block(place(tokens, i + 6), all),
    )
}
