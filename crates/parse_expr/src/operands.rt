// Primaries, prefix operators and parentheses.
ghost use Rattle.std.specs.Prelude.{◌≡◌, ◌≤◌, ◌<◌, ◌+◌, length, None, IfOk};
ghost use Rattle.sts_syntax.specs.Nesting.{nesting};
ghost use Rattle.sts_syntax.specs.Views.{tree};
ghost use Rattle.sts_grammar.specs.Source as source;
ghost use Rattle.sts_grammar.specs.ReadExpressions as read;
ghost use Rattle.parse_expr.specs.Headings.{parts};
ghost use Rattle.parse_expr.specs.Nests.{Nests};
ghost use Rattle.parse_expr.specs.Gives.{source, nested, Gives, read_of};

use crate::grammar::Grammar;
use crate::headings::Heading;
use crate::operators::{ASSIGNMENT_LEVEL, PREFIX_LEVEL, bump_by, prefix_number};
use crate::reader::{Read, Reader, Unread, lost};
use sts_lexer::{Mark, TokenKind, Word};
use sts_syntax::{Expr, Node, Stmt, build};

/// Whether an expression can be assigned to: a name, a member or an item.
pub fn is_target(e: &Expr) -> bool
    ensures { result ≡ read.is_target (tree e.now) }
{
    match &e.node {
        Node::Name(_) => true,
        Node::Member(_, _) => true,
        Node::Item(_, _) => true,
        _ => false,
    }
}

/// An expression of one token.
fn leaf(at: u32, node: Node, end: usize) -> Read<Expr>
    ensures item { result.item ≡ record { at = at; node = node } }
    ensures end { result.end ≡ end }
    ensures nesting { result.nesting ≡ 1 }
{
    Read {
        item: Expr { at, node },
        end,
        nesting: 1,
    }
}

impl<
    'a,
    E: Fn(Reader<'a>, usize, u8, usize) -> Result<Read<Expr>, Unread>,
    S: Fn(Reader<'a>, usize, bool, bool, usize) -> Result<Read<Stmt>, Unread>,
> Grammar<'a, E, S> {
    /// A function expression or an arrow, behind its heading.
    #[tactic(auto, unfolding(sts_grammar::specs::ReadExpressions::read_handler))]
    fn handler(
        &self,
        place: u32,
        arrow: bool,
        heading: Heading,
        at: usize,
    ) -> Result<Read<Expr>, Unread>
        requires { Nests self.now E.pre E.post S.pre S.post }
        ensures reads { Gives (read_of tree) result (read.read_handler (source self.now.reader)
            (nested self.now.reader self.now.room) place arrow (parts heading) at) }
        ensures nesting { IfOk result (λ r. r.nesting ≡ nesting (tree r.item)) }
        ensures fits { IfOk result (λ r. r.nesting ≤ self.now.room + 1) }
    {
        let all = self.block(true, false, at)?;
        let body = build::body(place, heading.params, heading.gives, all.item, arrow);
        Ok(Read {
            item: build::handler(self.reader.alloc, place, body)?,
            end: all.end,
            nesting: all.nesting + 1,
        })
    }

    /// `++` or `--` before what can be assigned to.
    fn bumped(&self, place: u32, by: i32, a: Read<Expr>) -> Result<Read<Expr>, Unread>
        requires nests { Nests self.now E.pre E.post S.pre S.post }
        requires small { a.nesting ≤ self.now.room }
        requires weighed { a.nesting ≡ nesting (tree a.item) }
        ensures reads { Gives (read_of tree) result (read.bump_before place by (read_of tree a)) }
        ensures nesting { IfOk result (λ r. r.nesting ≡ nesting (tree r.item)) }
        ensures fits { IfOk result (λ r. r.nesting ≤ self.now.room + 1) }
    {
        if !is_target(&a.item) {
            return lost(Unread::Syntax(a.end), a);
        }
        Ok(Read {
            item: build::bump(self.reader.alloc, place, a.item, by, false)?,
            end: a.end,
            nesting: a.nesting + 1,
        })
    }

    /// What a prefix operator begins, or a `++` or `--`.
    fn prefixed(&self, at: usize, op: Option<u8>, by: Option<i32>) -> Result<Read<Expr>, Unread>
        requires nests { Nests self.now E.pre E.post S.pre S.post }
        requires here { at < usize.MAX }
        ensures reads { Gives (read_of tree) result
            (read.read_prefix (source self.now.reader) (nested self.now.reader self.now.room) at op by) }
        ensures nesting { IfOk result (λ r. r.nesting ≡ nesting (tree r.item)) }
        ensures fits { IfOk result (λ r. r.nesting ≤ self.now.room + 1) }
    {
        let place = self.reader.place(at);
        if let Some(op) = op {
            let a = self.expression(PREFIX_LEVEL, at + 1)?;
            return Ok(Read {
                item: build::unary(self.reader.alloc, place, op, a.item)?,
                end: a.end,
                nesting: a.nesting + 1,
            });
        }
        match by {
            Some(by) => self.bumped(place, by, self.expression(PREFIX_LEVEL, at + 1)?),
            None => Err(Unread::Syntax(at)),
        }
    }

    /// `[a, b]`
    fn items(&self, at: usize) -> Result<Read<Expr>, Unread>
        requires nests { Nests self.now E.pre E.post S.pre S.post }
        requires here { at < usize.MAX }
        ensures reads { Gives (read_of tree) result
            (read.read_mark (source self.now.reader) (nested self.now.reader self.now.room) at Mark.OpenBracket) }
        ensures nesting { IfOk result (λ r. r.nesting ≡ nesting (tree r.item)) }
        ensures fits { IfOk result (λ r. r.nesting ≤ self.now.room + 1) }
    {
        let all = self.listed(true, at + 1)?;
        Ok(Read {
            item: build::items(self.reader.place(at), all.item),
            end: all.end,
            nesting: all.nesting + 1,
        })
    }

    /// An arrow.
    fn arrow(&self, at: usize) -> Result<Read<Expr>, Unread>
        requires { Nests self.now E.pre E.post S.pre S.post }
        ensures reads { Gives (read_of tree) result
            (read.read_mark (source self.now.reader) (nested self.now.reader self.now.room) at Mark.OpenParenthesis) }
        ensures nesting { IfOk result (λ r. r.nesting ≡ nesting (tree r.item)) }
        ensures fits { IfOk result (λ r. r.nesting ≤ self.now.room + 1) }
    {
        let (heading, end) = self.reader.arrow_heading(at)?;
        self.handler(self.reader.place(at), true, heading, end)
    }

    /// What a mark begins. A `(` begins an arrow here.
    fn by_mark(&self, mark: Mark, at: usize) -> Result<Read<Expr>, Unread>
        requires nests { Nests self.now E.pre E.post S.pre S.post }
        requires here { at < usize.MAX }
        ensures reads { Gives (read_of tree) result
            (read.read_mark (source self.now.reader) (nested self.now.reader self.now.room) at mark) }
        ensures nesting { IfOk result (λ r. r.nesting ≡ nesting (tree r.item)) }
        ensures fits { IfOk result (λ r. r.nesting ≤ self.now.room + 1) }
    {
        match mark {
            Mark::OpenBracket => self.items(at),
            Mark::OpenParenthesis => self.arrow(at),
            _ => self.prefixed(at, prefix_number(mark), bump_by(mark)),
        }
    }

    /// `super(a, b)` and `super.m(a, b)`
    fn super_call(&self, at: usize) -> Result<Read<Expr>, Unread>
        requires nests { Nests self.now E.pre E.post S.pre S.post }
        requires here { at < usize.MAX }
        ensures reads { Gives (read_of tree) result
            (read.read_word (source self.now.reader) (nested self.now.reader self.now.room) at Word.Super) }
        ensures nesting { IfOk result (λ r. r.nesting ≡ nesting (tree r.item)) }
        ensures fits { IfOk result (λ r. r.nesting ≤ self.now.room + 1) }
    {
        let place = self.reader.place(at);
        if self.reader.is_mark(at + 1, Mark::Dot) {
            let method = self.reader.member_name(at + 2)?;
            let args = self.arguments(at + 3)?;
            return Ok(Read {
                item: build::super_call(place, Some(method), args.item),
                end: args.end,
                nesting: args.nesting + 1,
            });
        }
        let args = self.arguments(at + 1)?;
        Ok(Read {
            item: build::super_call(place, None, args.item),
            end: args.end,
            nesting: args.nesting + 1,
        })
    }

    /// `new C(a, b)`
    fn make(&self, at: usize) -> Result<Read<Expr>, Unread>
        requires nests { Nests self.now E.pre E.post S.pre S.post }
        requires here { at < usize.MAX }
        ensures reads { Gives (read_of tree) result
            (read.read_word (source self.now.reader) (nested self.now.reader self.now.room) at Word.New) }
        ensures nesting { IfOk result (λ r. r.nesting ≡ nesting (tree r.item)) }
        ensures fits { IfOk result (λ r. r.nesting ≤ self.now.room + 1) }
    {
        let class = self.reader.name(at + 1)?;
        let args = self.arguments(at + 2)?;
        Ok(Read {
            item: build::make(self.reader.place(at), class, args.item),
            end: args.end,
            nesting: args.nesting + 1,
        })
    }

    /// A function expression.
    fn function(&self, at: usize) -> Result<Read<Expr>, Unread>
        requires nests { Nests self.now E.pre E.post S.pre S.post }
        requires here { at < usize.MAX }
        ensures reads { Gives (read_of tree) result
            (read.read_word (source self.now.reader) (nested self.now.reader self.now.room) at Word.Function) }
        ensures nesting { IfOk result (λ r. r.nesting ≡ nesting (tree r.item)) }
        ensures fits { IfOk result (λ r. r.nesting ≤ self.now.room + 1) }
    {
        let (heading, end) = self.reader.heading(at + 1)?;
        self.handler(self.reader.place(at), false, heading, end)
    }

    /// What a reserved word begins.
    fn by_word(&self, word: Word, at: usize) -> Result<Read<Expr>, Unread>
        requires nests { Nests self.now E.pre E.post S.pre S.post }
        requires here { at < usize.MAX }
        ensures reads { Gives (read_of tree) result
            (read.read_word (source self.now.reader) (nested self.now.reader self.now.room) at word) }
        ensures nesting { IfOk result (λ r. r.nesting ≡ nesting (tree r.item)) }
        ensures fits { IfOk result (λ r. r.nesting ≤ self.now.room + 1) }
    {
        let place = self.reader.place(at);
        match word {
            Word::True => Ok(leaf(place, Node::Truth(true), at + 1)),
            Word::False => Ok(leaf(place, Node::Truth(false), at + 1)),
            Word::Null => Ok(leaf(place, Node::Null, at + 1)),
            Word::This => Ok(leaf(place, Node::This, at + 1)),
            Word::New => self.make(at),
            Word::Super => self.super_call(at),
            Word::Function => self.function(at),
            _ => Err(Unread::Syntax(at)),
        }
    }

    /// A primary without parentheses round it, or a prefix operator and its operand.
    fn primary(&self, at: usize) -> Result<Read<Expr>, Unread>
        requires { Nests self.now E.pre E.post S.pre S.post }
        ensures reads { Gives (read_of tree) result (read.read_primary (source self.now.reader)
            (nested self.now.reader self.now.room) at (source.kind (source self.now.reader) at)) }
        ensures nesting { IfOk result (λ r. r.nesting ≡ nesting (tree r.item)) }
        ensures fits { IfOk result (λ r. r.nesting ≤ self.now.room + 1) }
    {
        let place = self.reader.place(at);
        match self.reader.kind(at) {
            TokenKind::Num(value) => Ok(leaf(place, Node::Num(value), at + 1)),
            TokenKind::Text(text) => Ok(leaf(place, Node::Text(text), at + 1)),
            TokenKind::Name(name) => Ok(leaf(place, Node::Name(name), at + 1)),
            TokenKind::Word(word, _) => self.by_word(word, at),
            TokenKind::Mark(mark) => self.by_mark(mark, at),
            TokenKind::Finish => Err(Unread::Syntax(at)),
        }
    }

    /// The token behind a `)` behind which no arrow goes on.
    #[tactic(auto, unfolding(sts_grammar::specs::ReadExpressions::close_at))]
    fn behind_close(&self, at: usize) -> Result<usize, Unread>
        ensures { Gives (λ j. j) result (read.close_at (source self.now.reader) at) }
    {
        if !self.reader.is_mark(at, Mark::CloseParenthesis) {
            return Err(Unread::Syntax(at));
        }
        if self.reader.is_arrow_behind(at + 1)? {
            return Err(Unread::Syntax(at + 1));
        }
        Ok(at + 1)
    }

    /// The expression that goes on with another behind which open parentheses are closed. These stand from `from` on.
    #[tactic(auto, using(crate::proofs::Turns::unwind_at), unfolding(sts_grammar::specs::ReadExpressions::unwind))]
    fn unwound(
        &self,
        closing: usize,
        level: u8,
        from: usize,
        first: Read<Expr>,
    ) -> Result<Read<Expr>, Unread>
        requires nests { Nests self.now E.pre E.post S.pre S.post }
        requires here { from + closing ≤ usize.MAX }
        requires weighed { first.nesting ≡ nesting (tree first.item) }
        requires small { first.nesting ≤ self.now.room + 1 }
        ensures reads { Gives (read_of tree) result (read.unwind (source self.now.reader) self.now.reader.upto
            self.now.room (nested self.now.reader self.now.room) closing level from (tree first.item) first.end) }
        ensures nesting { IfOk result (λ r. r.nesting ≡ nesting (tree r.item)) }
        ensures fits { IfOk result (λ r. r.nesting ≤ self.now.room + 1) }
    {
        let mut e = first;
        let mut left = closing;
        while left > 0 {
            let inner = self.climb(ASSIGNMENT_LEVEL, self.reader.place(from + left), e)?;
            let end = match self.behind_close(inner.end) {
                Ok(end) => end,
                Err(why) => return lost(why, inner),
            };
            e = Read {
                item: inner.item,
                end,
                nesting: inner.nesting,
            };
            left -= 1;
        }
        self.climb(level, self.reader.place(from), e)
    }

    /// An expression of at least a level, in any number of parentheses.
    #[tactic(auto, unfolding(sts_grammar::specs::ReadExpressions::read_operand, sts_grammar::specs::ReadExpressions::read_inside))]
    pub fn operand(&self, level: u8, at: usize) -> Result<Read<Expr>, Unread>
        requires { Nests self.now E.pre E.post S.pre S.post }
        ensures reads { Gives (read_of tree) result (read.read_operand (source self.now.reader) self.now.reader.upto
            self.now.room (nested self.now.reader self.now.room) level at) }
        ensures nesting { IfOk result (λ r. r.nesting ≡ nesting (tree r.item)) }
        ensures fits { IfOk result (λ r. r.nesting ≤ self.now.room + 1) }
    {
        let (closing, from) = self.reader.open_parentheses(at)?;
        let first = self.primary(from)?;
        self.unwound(closing, level, at, first)
    }
}
