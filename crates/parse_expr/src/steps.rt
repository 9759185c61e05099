// What goes on with an expression.
ghost use Rattle.std.specs.Prelude.{◌≡◌, ◌≤◌, ◌<◌, ◌+◌, IfOk};
ghost use Rattle.sts_syntax.specs.Nesting.{nesting};
ghost use Rattle.sts_syntax.specs.Views.{tree};
ghost use Rattle.sts_grammar.specs.Source as source;
ghost use Rattle.sts_grammar.specs.ReadExpressions as read;
ghost use Rattle.parse_expr.specs.Nests.{Nests};
ghost use Rattle.parse_expr.specs.Gives.{source, nested, Gives, read_of};

use crate::grammar::Grammar;
use crate::operands::is_target;
use crate::operators::{
    ASSIGNMENT_LEVEL, BOTH_LEVEL, EITHER_LEVEL, assignment, bump_by, infix_level, infix_number,
};
use crate::reader::{Read, Reader, Unread, lost};
use sts_lexer::{Mark, TokenKind};
use sts_syntax::{Expr, Stmt, build};

impl<
    'a,
    E: Fn(Reader<'a>, usize, u8, usize) -> Result<Read<Expr>, Unread>,
    S: Fn(Reader<'a>, usize, bool, bool, usize) -> Result<Read<Stmt>, Unread>,
> Grammar<'a, E, S> {
    /// `a.m`
    fn member(&self, place: u32, e: Read<Expr>) -> Result<Read<Expr>, Unread>
        requires nests { Nests self.now E.pre E.post S.pre S.post }
        requires here { e.end < usize.MAX }
        requires weighed { e.nesting ≡ nesting (tree e.item) }
        requires small { e.nesting ≤ self.now.room }
        ensures reads { Gives (read_of tree) result (read.read_further (source self.now.reader)
            (nested self.now.reader self.now.room) place (tree e.item) e.end Mark.Dot) }
        ensures nesting { IfOk result (λ r. r.nesting ≡ nesting (tree r.item)) }
        ensures fits { IfOk result (λ r. r.nesting ≤ self.now.room + 1) }
    {
        let name = match self.reader.member_name(e.end + 1) {
            Ok(name) => name,
            Err(why) => return lost(why, e),
        };
        Ok(Read {
            item: build::member(self.reader.alloc, place, e.item, name)?,
            end: e.end + 2,
            nesting: e.nesting + 1,
        })
    }

    /// `a[i]`
    fn item(&self, place: u32, e: Read<Expr>) -> Result<Read<Expr>, Unread>
        requires nests { Nests self.now E.pre E.post S.pre S.post }
        requires here { e.end < usize.MAX }
        requires weighed { e.nesting ≡ nesting (tree e.item) }
        requires small { e.nesting ≤ self.now.room }
        ensures reads { Gives (read_of tree) result (read.read_further (source self.now.reader)
            (nested self.now.reader self.now.room) place (tree e.item) e.end Mark.OpenBracket) }
        ensures nesting { IfOk result (λ r. r.nesting ≡ nesting (tree r.item)) }
        ensures fits { IfOk result (λ r. r.nesting ≤ self.now.room + 1) }
    {
        let index = match self.expression(ASSIGNMENT_LEVEL, e.end + 1) {
            Ok(index) => index,
            Err(why) => return lost(why, e),
        };
        if !self.reader.is_mark(index.end, Mark::CloseBracket) {
            return lost(Unread::Syntax(index.end), (e, index));
        }
        Ok(Read {
            item: build::item(self.reader.alloc, place, e.item, index.item)?,
            end: index.end + 1,
            nesting: e.nesting.max(index.nesting) + 1,
        })
    }

    /// `f(a, b)`
    fn call(&self, place: u32, e: Read<Expr>) -> Result<Read<Expr>, Unread>
        requires nests { Nests self.now E.pre E.post S.pre S.post }
        requires here { e.end < usize.MAX }
        requires weighed { e.nesting ≡ nesting (tree e.item) }
        requires small { e.nesting ≤ self.now.room }
        ensures reads { Gives (read_of tree) result (read.read_further (source self.now.reader)
            (nested self.now.reader self.now.room) place (tree e.item) e.end Mark.OpenParenthesis) }
        ensures nesting { IfOk result (λ r. r.nesting ≡ nesting (tree r.item)) }
        ensures fits { IfOk result (λ r. r.nesting ≤ self.now.room + 1) }
    {
        let args = match self.listed(false, e.end + 1) {
            Ok(args) => args,
            Err(why) => return lost(why, e),
        };
        Ok(Read {
            item: build::call(self.reader.alloc, place, e.item, args.item)?,
            end: args.end,
            nesting: e.nesting.max(args.nesting) + 1,
        })
    }

    /// `a ? b : c`
    #[tactic(auto, unfolding(sts_grammar::specs::ReadExpressions::read_choice))]
    fn choice(&self, place: u32, e: Read<Expr>) -> Result<Read<Expr>, Unread>
        requires nests { Nests self.now E.pre E.post S.pre S.post }
        requires here { e.end < usize.MAX }
        requires weighed { e.nesting ≡ nesting (tree e.item) }
        requires small { e.nesting ≤ self.now.room }
        ensures reads { Gives (read_of tree) result (read.read_further (source self.now.reader)
            (nested self.now.reader self.now.room) place (tree e.item) e.end Mark.Question) }
        ensures nesting { IfOk result (λ r. r.nesting ≡ nesting (tree r.item)) }
        ensures fits { IfOk result (λ r. r.nesting ≤ self.now.room + 1) }
    {
        let a = match self.expression(ASSIGNMENT_LEVEL, e.end + 1) {
            Ok(a) => a,
            Err(why) => return lost(why, e),
        };
        if !self.reader.is_mark(a.end, Mark::Colon) {
            return lost(Unread::Syntax(a.end), (e, a));
        }
        let b = match self.expression(ASSIGNMENT_LEVEL, a.end + 1) {
            Ok(b) => b,
            Err(why) => return lost(why, (e, a)),
        };
        Ok(Read {
            item: build::choice(self.reader.alloc, place, e.item, a.item, b.item)?,
            end: b.end,
            nesting: e.nesting.max(a.nesting.max(b.nesting)) + 1,
        })
    }

    /// `a || b`
    fn either(&self, place: u32, e: Read<Expr>) -> Result<Read<Expr>, Unread>
        requires nests { Nests self.now E.pre E.post S.pre S.post }
        requires here { e.end < usize.MAX }
        requires weighed { e.nesting ≡ nesting (tree e.item) }
        requires small { e.nesting ≤ self.now.room }
        ensures reads { Gives (read_of tree) result (read.read_further (source self.now.reader)
            (nested self.now.reader self.now.room) place (tree e.item) e.end Mark.BarBar) }
        ensures nesting { IfOk result (λ r. r.nesting ≡ nesting (tree r.item)) }
        ensures fits { IfOk result (λ r. r.nesting ≤ self.now.room + 1) }
    {
        let b = match self.expression(EITHER_LEVEL + 1, e.end + 1) {
            Ok(b) => b,
            Err(why) => return lost(why, e),
        };
        Ok(Read {
            item: build::either(self.reader.alloc, place, e.item, b.item)?,
            end: b.end,
            nesting: e.nesting.max(b.nesting) + 1,
        })
    }

    /// `a && b`
    fn both(&self, place: u32, e: Read<Expr>) -> Result<Read<Expr>, Unread>
        requires nests { Nests self.now E.pre E.post S.pre S.post }
        requires here { e.end < usize.MAX }
        requires weighed { e.nesting ≡ nesting (tree e.item) }
        requires small { e.nesting ≤ self.now.room }
        ensures reads { Gives (read_of tree) result (read.read_further (source self.now.reader)
            (nested self.now.reader self.now.room) place (tree e.item) e.end Mark.AmpersandAmpersand) }
        ensures nesting { IfOk result (λ r. r.nesting ≡ nesting (tree r.item)) }
        ensures fits { IfOk result (λ r. r.nesting ≤ self.now.room + 1) }
    {
        let b = match self.expression(BOTH_LEVEL + 1, e.end + 1) {
            Ok(b) => b,
            Err(why) => return lost(why, e),
        };
        Ok(Read {
            item: build::both(self.reader.alloc, place, e.item, b.item)?,
            end: b.end,
            nesting: e.nesting.max(b.nesting) + 1,
        })
    }

    /// Another operator between two operands.
    fn binary(&self, place: u32, op: u8, e: Read<Expr>) -> Result<Read<Expr>, Unread>
        requires nests { Nests self.now E.pre E.post S.pre S.post }
        requires here { e.end < usize.MAX }
        requires weighed { e.nesting ≡ nesting (tree e.item) }
        requires small { e.nesting ≤ self.now.room }
        ensures reads { Gives (read_of tree) result
            (read.read_operator (nested self.now.reader self.now.room) place (tree e.item) e.end (Some op) None None) }
        ensures nesting { IfOk result (λ r. r.nesting ≡ nesting (tree r.item)) }
        ensures fits { IfOk result (λ r. r.nesting ≤ self.now.room + 1) }
    {
        let b = match self.expression(infix_level(op) + 1, e.end + 1) {
            Ok(b) => b,
            Err(why) => return lost(why, e),
        };
        Ok(Read {
            item: build::binary(self.reader.alloc, place, op, e.item, b.item)?,
            end: b.end,
            nesting: e.nesting.max(b.nesting) + 1,
        })
    }

    /// An assignment.
    fn set(&self, place: u32, op: Option<u8>, e: Read<Expr>) -> Result<Read<Expr>, Unread>
        requires nests { Nests self.now E.pre E.post S.pre S.post }
        requires here { e.end < usize.MAX }
        requires weighed { e.nesting ≡ nesting (tree e.item) }
        requires small { e.nesting ≤ self.now.room }
        ensures reads { Gives (read_of tree) result
            (read.read_operator (nested self.now.reader self.now.room) place (tree e.item) e.end None (Some op) None) }
        ensures nesting { IfOk result (λ r. r.nesting ≡ nesting (tree r.item)) }
        ensures fits { IfOk result (λ r. r.nesting ≤ self.now.room + 1) }
    {
        if !is_target(&e.item) {
            return lost(Unread::Syntax(e.end), e);
        }
        let a = match self.expression(ASSIGNMENT_LEVEL, e.end + 1) {
            Ok(a) => a,
            Err(why) => return lost(why, e),
        };
        Ok(Read {
            item: build::set(self.reader.alloc, place, op, e.item, a.item)?,
            end: a.end,
            nesting: e.nesting.max(a.nesting) + 1,
        })
    }

    /// `a++` and `a--`
    fn bump(&self, place: u32, by: i32, e: Read<Expr>) -> Result<Read<Expr>, Unread>
        requires nests { Nests self.now E.pre E.post S.pre S.post }
        requires here { e.end < usize.MAX }
        requires weighed { e.nesting ≡ nesting (tree e.item) }
        requires small { e.nesting ≤ self.now.room }
        ensures reads { Gives (read_of tree) result
            (read.read_operator (nested self.now.reader self.now.room) place (tree e.item) e.end None None (Some by)) }
        ensures nesting { IfOk result (λ r. r.nesting ≡ nesting (tree r.item)) }
        ensures fits { IfOk result (λ r. r.nesting ≤ self.now.room + 1) }
    {
        if !is_target(&e.item) {
            return lost(Unread::Syntax(e.end), e);
        }
        Ok(Read {
            item: build::bump(self.reader.alloc, place, e.item, by, true)?,
            end: e.end + 1,
            nesting: e.nesting + 1,
        })
    }

    /// What goes on with an expression by an operator between two operands, an assignment, or `++` or `--`.
    fn operated(
        &self,
        place: u32,
        e: Read<Expr>,
        op: Option<u8>,
        assigned: Option<Option<u8>>,
        by: Option<i32>,
    ) -> Result<Read<Expr>, Unread>
        requires nests { Nests self.now E.pre E.post S.pre S.post }
        requires here { e.end < usize.MAX }
        requires weighed { e.nesting ≡ nesting (tree e.item) }
        requires small { e.nesting ≤ self.now.room }
        ensures reads { Gives (read_of tree) result
            (read.read_operator (nested self.now.reader self.now.room) place (tree e.item) e.end op assigned by) }
        ensures nesting { IfOk result (λ r. r.nesting ≡ nesting (tree r.item)) }
        ensures fits { IfOk result (λ r. r.nesting ≤ self.now.room + 1) }
    {
        match (op, assigned, by) {
            (Some(op), _, _) => self.binary(place, op, e),
            (None, Some(op), _) => self.set(place, op, e),
            (None, None, Some(by)) => self.bump(place, by, e),
            (None, None, None) => lost(Unread::Syntax(e.end), e),
        }
    }

    /// What goes on with an expression by a mark.
    fn further(&self, place: u32, e: Read<Expr>, mark: Mark) -> Result<Read<Expr>, Unread>
        requires nests { Nests self.now E.pre E.post S.pre S.post }
        requires here { e.end < usize.MAX }
        requires weighed { e.nesting ≡ nesting (tree e.item) }
        requires small { e.nesting ≤ self.now.room }
        ensures reads { Gives (read_of tree) result (read.read_further (source self.now.reader)
            (nested self.now.reader self.now.room) place (tree e.item) e.end mark) }
        ensures nesting { IfOk result (λ r. r.nesting ≡ nesting (tree r.item)) }
        ensures fits { IfOk result (λ r. r.nesting ≤ self.now.room + 1) }
    {
        match mark {
            Mark::Dot => self.member(place, e),
            Mark::OpenBracket => self.item(place, e),
            Mark::OpenParenthesis => self.call(place, e),
            Mark::Question => self.choice(place, e),
            Mark::BarBar => self.either(place, e),
            Mark::AmpersandAmpersand => self.both(place, e),
            _ => self.operated(
                place,
                e,
                infix_number(mark),
                assignment(mark),
                bump_by(mark),
            ),
        }
    }

    /// What goes on with an expression by the token behind it.
    fn behind(&self, place: u32, e: Read<Expr>) -> Result<Read<Expr>, Unread>
        requires nests { Nests self.now E.pre E.post S.pre S.post }
        requires weighed { e.nesting ≡ nesting (tree e.item) }
        requires small { e.nesting ≤ self.now.room }
        ensures reads { Gives (read_of tree) result (read.read_behind (source self.now.reader) (nested self.now.reader
            self.now.room) place (tree e.item) e.end (source.kind (source self.now.reader) e.end)) }
        ensures nesting { IfOk result (λ r. r.nesting ≡ nesting (tree r.item)) }
        ensures fits { IfOk result (λ r. r.nesting ≤ self.now.room + 1) }
    {
        match self.reader.kind(e.end) {
            TokenKind::Mark(mark) => self.further(place, e, mark),
            _ => lost(Unread::Syntax(e.end), e),
        }
    }

    /// The longest expression that goes on with another, as far as tokens bind at least so tightly.
    #[tactic(auto, unfolding(sts_grammar::specs::ReadExpressions::climb))]
    pub fn climb(&self, level: u8, place: u32, first: Read<Expr>) -> Result<Read<Expr>, Unread>
        requires nests { Nests self.now E.pre E.post S.pre S.post }
        requires weighed { first.nesting ≡ nesting (tree first.item) }
        requires small { first.nesting ≤ self.now.room + 1 }
        ensures reads { Gives (read_of tree) result
            (read.climb (source self.now.reader) self.now.reader.upto self.now.room
            (nested self.now.reader self.now.room) (self.now.room + 1) level place (tree first.item) first.end) }
        ensures nesting { IfOk result (λ r. r.nesting ≡ nesting (tree r.item)) }
        ensures fits { IfOk result (λ r. r.nesting ≤ self.now.room + 1) }
    {
        let mut e = first;
        let mut left = self.room + 1;
        while left > 0 {
            if self.reader.binds(e.end) < level {
                return Ok(e);
            }
            if self.room < e.nesting {
                return lost(Unread::Syntax(e.end), e);
            }
            match self.behind(place, e) {
                Ok(next) => e = next,
                Err(unread) => return Err(unread),
            }
            left -= 1;
        }
        lost(Unread::Syntax(e.end), e)
    }
}
