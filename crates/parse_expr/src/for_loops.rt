// Loops by `for`.
ghost use Rattle.std.specs.Prelude.{◌≡◌, ◌≢◌, ◌≤◌, ◌<◌, ◌+◌, None, IfOk, IfSome, true};
ghost use Rattle.sts_syntax.specs.Nesting.{nesting, optional_nesting, statement_nesting, optional_statement_nesting};
ghost use Rattle.sts_syntax.specs.Views.{tree, optional_expression, optional_written, statement};
ghost use Rattle.sts_grammar.specs.Source as source;
ghost use Rattle.sts_grammar.specs.Found as found;
ghost use Rattle.sts_grammar.specs.ReadStatements as read;
ghost use Rattle.sts_grammar.specs.Precedence.{assignment_level};
ghost use Rattle.parse_expr.specs.Nests.{Nests};
ghost use Rattle.parse_expr.specs.Gives.{source, nested, Gives, read_of};

use crate::grammar::Grammar;
use crate::operators::ASSIGNMENT_LEVEL;
use crate::reader::{Read, Reader, Unread, lost};
use sts_lexer::{Mark, TokenKind, Word};
use sts_syntax::{Expr, Stmt, build};

impl<'a> Reader<'a> {
    /// `let` gives false and `const` true.
    fn let_word(&self, at: usize) -> Option<bool>
        ensures value { result ≡ found.let_of (source.kind (source self.now) at) }
        ensures inside { IfSome result (λ _. at < usize.MAX) }
    {
        match self.kind(at) {
            TokenKind::Word(Word::Let, _) => Some(false),
            TokenKind::Word(Word::Const, _) => Some(true),
            _ => None,
        }
    }

    /// Whether a token is the name `of`.
    fn is_of(&self, at: usize) -> bool
        ensures value { result ≡ found.is_of (source self.now) (source.kind (source self.now) at) }
        ensures inside { result ≡ true → at < usize.MAX }
    {
        match self.kind(at) {
            TokenKind::Name(name) => self.is_spelled(name, b"of"),
            _ => false,
        }
    }

    /// The head of a `for` over a list: whether `const` stands there, and the name before an `of`.
    #[tactic(auto, unfolding(sts_grammar::specs::ReadStatements::of_head))]
    fn of_head(&self, at: usize) -> Option<(bool, u32)>
        ensures value { result ≡ read.of_head (source self.now) at }
        ensures inside { IfSome result (λ _. at + 2 < usize.MAX) }
    {
        let fixed = self.let_word(at)?;
        let TokenKind::Name(name) = self.kind(at + 1) else {
            return None;
        };
        if !self.is_of(at + 2) {
            return None;
        }
        Some((fixed, name))
    }
}

impl<
    'a,
    E: Fn(Reader<'a>, usize, u8, usize) -> Result<Read<Expr>, Unread>,
    S: Fn(Reader<'a>, usize, bool, bool, usize) -> Result<Read<Stmt>, Unread>,
> Grammar<'a, E, S> {
    /// What stands behind the `of` of a `for`.
    #[tactic(auto, unfolding(sts_grammar::specs::ReadStatements::read_for_of))]
    fn going_through(
        &self,
        in_function: bool,
        place: u32,
        fixed: bool,
        name: u32,
        at: usize,
    ) -> Result<Read<Stmt>, Unread>
        requires { Nests self.now E.pre E.post S.pre S.post }
        ensures reads { Gives (read_of statement) result (read.read_for_of (source self.now.reader)
            (nested self.now.reader self.now.room) in_function place fixed name at) }
        ensures nesting { IfOk result (λ r. r.nesting ≡ statement_nesting (statement r.item)) }
        ensures fits { IfOk result (λ r. r.nesting ≤ self.now.room + 1) }
    {
        let list = self.expression(ASSIGNMENT_LEVEL, at)?;
        if !self.reader.is_mark(list.end, Mark::CloseParenthesis) {
            return lost(Unread::Syntax(list.end), list);
        }
        let a = match self.statement(in_function, true, list.end + 1) {
            Ok(a) => a,
            Err(why) => return lost(why, list),
        };
        Ok(Read {
            item: build::for_of(self.reader.alloc, place, fixed, name, list.item, a.item)?,
            end: a.end,
            nesting: list.nesting.max(a.nesting) + 1,
        })
    }

    /// What stands first in a `for`, where it isn't left out.
    fn written_first(&self, at: usize, fixed: Option<bool>) -> Result<Read<Option<Stmt>>, Unread>
        requires nests { Nests self.now E.pre E.post S.pre S.post }
        requires here { fixed ≢ None → at < usize.MAX }
        ensures reads { Gives (read_of optional_written) result (read.read_first (source self.now.reader) self.now.room
            ((nested self.now.reader self.now.room).expr assignment_level) at fixed) }
        ensures nesting { IfOk result (λ r. r.nesting ≡ optional_statement_nesting (optional_written r.item)) }
        ensures fits { IfOk result (λ r. r.nesting ≤ self.now.room) }
    {
        let place = self.reader.place(at);
        match fixed {
            Some(fixed) => {
                let each = self.declarations(fixed, at + 1)?;
                if each.nesting >= self.room {
                    return lost(Unread::Syntax(at), each);
                }
                Ok(Read {
                    item: Some(build::declaring(place, fixed, each.item)),
                    end: each.end,
                    nesting: each.nesting + 1,
                })
            }
            None => {
                let a = self.expression(ASSIGNMENT_LEVEL, at)?;
                if a.nesting >= self.room {
                    return lost(Unread::Syntax(at), a);
                }
                Ok(Read {
                    item: Some(build::plain(place, a.item)),
                    end: a.end,
                    nesting: a.nesting + 1,
                })
            }
        }
    }

    /// What stands first in a `for`.
    #[tactic(auto, unfolding(sts_grammar::specs::ReadStatements::read_optional_first))]
    fn first(&self, at: usize) -> Result<Read<Option<Stmt>>, Unread>
        requires { Nests self.now E.pre E.post S.pre S.post }
        ensures reads { Gives (read_of optional_written) result (read.read_optional_first (source self.now.reader)
            self.now.room ((nested self.now.reader self.now.room).expr assignment_level) at) }
        ensures nesting { IfOk result (λ r. r.nesting ≡ optional_statement_nesting (optional_written r.item)) }
        ensures fits { IfOk result (λ r. r.nesting ≤ self.now.room) }
    {
        if self.reader.is_mark(at, Mark::Semicolon) {
            return Ok(Read {
                item: None,
                end: at,
                nesting: 0,
            });
        }
        self.written_first(at, self.reader.let_word(at))
    }

    /// An expression, unless its end is there already.
    fn optional(&self, ends: bool, at: usize) -> Result<Read<Option<Expr>>, Unread>
        requires { Nests self.now E.pre E.post S.pre S.post }
        ensures reads { Gives (read_of optional_expression) result
            (read.read_optional ((nested self.now.reader self.now.room).expr assignment_level) ends at) }
        ensures nesting { IfOk result (λ r. r.nesting ≡ optional_nesting (optional_expression r.item)) }
        ensures fits { IfOk result (λ r. r.nesting ≤ self.now.room) }
    {
        if ends {
            return Ok(Read {
                item: None,
                end: at,
                nesting: 0,
            });
        }
        let a = self.expression(ASSIGNMENT_LEVEL, at)?;
        Ok(Read {
            item: Some(a.item),
            end: a.end,
            nesting: a.nesting,
        })
    }

    /// What stands behind the `;` after the condition of a `for`.
    #[tactic(auto, unfolding(sts_grammar::specs::ReadStatements::read_step))]
    fn stepping(
        &self,
        in_function: bool,
        place: u32,
        first: Read<Option<Stmt>>,
        test: Read<Option<Expr>>,
        at: usize,
    ) -> Result<Read<Stmt>, Unread>
        requires nests { Nests self.now E.pre E.post S.pre S.post }
        requires first_weighed { first.nesting ≡ optional_statement_nesting (optional_written first.item) }
        requires first_small { first.nesting ≤ self.now.room }
        requires test_weighed { test.nesting ≡ optional_nesting (optional_expression test.item) }
        requires test_small { test.nesting ≤ self.now.room }
        ensures reads { Gives (read_of statement) result
            (read.read_step (source self.now.reader) (nested self.now.reader self.now.room) in_function place
            (optional_written first.item) (optional_expression test.item) at) }
        ensures nesting { IfOk result (λ r. r.nesting ≡ statement_nesting (statement r.item)) }
        ensures fits { IfOk result (λ r. r.nesting ≤ self.now.room + 1) }
    {
        let step = match self.optional(self.reader.is_mark(at, Mark::CloseParenthesis), at) {
            Ok(step) => step,
            Err(why) => return lost(why, (first, test)),
        };
        if !self.reader.is_mark(step.end, Mark::CloseParenthesis) {
            return lost(Unread::Syntax(step.end), (first, test, step));
        }
        let a = match self.statement(in_function, true, step.end + 1) {
            Ok(a) => a,
            Err(why) => return lost(why, (first, test, step)),
        };
        let head = first.nesting.max(test.nesting);
        let rest = step.nesting.max(a.nesting);
        let alloc = self.reader.alloc;
        Ok(Read {
            item: build::for_loop(alloc, place, first.item, test.item, step.item, a.item)?,
            end: a.end,
            nesting: head.max(rest) + 1,
        })
    }

    /// What stands behind the `(` of a `for` with three parts.
    #[tactic(auto, unfolding(sts_grammar::specs::ReadStatements::read_three))]
    fn counting(&self, in_function: bool, place: u32, at: usize) -> Result<Read<Stmt>, Unread>
        requires { Nests self.now E.pre E.post S.pre S.post }
        ensures reads { Gives (read_of statement) result (read.read_three (source self.now.reader) self.now.room
            (nested self.now.reader self.now.room) in_function place at) }
        ensures nesting { IfOk result (λ r. r.nesting ≡ statement_nesting (statement r.item)) }
        ensures fits { IfOk result (λ r. r.nesting ≤ self.now.room + 1) }
    {
        let first = self.first(at)?;
        if !self.reader.is_mark(first.end, Mark::Semicolon) {
            return lost(Unread::Syntax(first.end), first);
        }
        let from = first.end + 1;
        let test = match self.optional(self.reader.is_mark(from, Mark::Semicolon), from) {
            Ok(test) => test,
            Err(why) => return lost(why, first),
        };
        if !self.reader.is_mark(test.end, Mark::Semicolon) {
            return lost(Unread::Syntax(test.end), (first, test));
        }
        let from = test.end + 1;
        self.stepping(in_function, place, first, test, from)
    }

    /// What stands behind a `for`.
    #[tactic(auto, unfolding(sts_grammar::specs::ReadStatements::read_for))]
    pub fn for_loop(&self, in_function: bool, place: u32, at: usize) -> Result<Read<Stmt>, Unread>
        requires { Nests self.now E.pre E.post S.pre S.post }
        ensures reads { Gives (read_of statement) result (read.read_for (source self.now.reader) self.now.room
            (nested self.now.reader self.now.room) in_function place at) }
        ensures nesting { IfOk result (λ r. r.nesting ≡ statement_nesting (statement r.item)) }
        ensures fits { IfOk result (λ r. r.nesting ≤ self.now.room + 1) }
    {
        if !self.reader.is_mark(at, Mark::OpenParenthesis) {
            return Err(Unread::Syntax(at));
        }
        match self.reader.of_head(at + 1) {
            Some((fixed, name)) => self.going_through(in_function, place, fixed, name, at + 4),
            None => self.counting(in_function, place, at + 1),
        }
    }
}
