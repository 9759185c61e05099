// Statements.
ghost use Rattle.std.specs.Prelude.{◌≡◌, ◌≤◌, ◌<◌, ◌+◌, true, Some, IfOk};
ghost use Rattle.sts_syntax.specs.Trees as t;
ghost use Rattle.sts_syntax.specs.Nesting.{nesting, statement_nesting};
ghost use Rattle.sts_syntax.specs.Views.{tree, statement};
ghost use Rattle.sts_grammar.specs.Source as source;
ghost use Rattle.sts_grammar.specs.Found as found;
ghost use Rattle.sts_grammar.specs.ReadStatements as read;
ghost use Rattle.sts_grammar.specs.Precedence.{assignment_level};
ghost use Rattle.parse_expr.specs.Nests.{Nests};
ghost use Rattle.parse_expr.specs.Gives.{source, nested, Gives, read_of};

use crate::grammar::Grammar;
use crate::operators::ASSIGNMENT_LEVEL;
use crate::reader::{Read, Reader, Unread, lost};
use sts_lexer::{Mark, TokenKind, Word};
use sts_syntax::{Expr, Form, Stmt, build};

impl<
    'a,
    E: Fn(Reader<'a>, usize, u8, usize) -> Result<Read<Expr>, Unread>,
    S: Fn(Reader<'a>, usize, bool, bool, usize) -> Result<Read<Stmt>, Unread>,
> Grammar<'a, E, S> {
    /// A condition in parentheses.
    #[tactic(auto, unfolding(sts_grammar::specs::ReadStatements::read_condition))]
    pub fn condition(&self, at: usize) -> Result<Read<Expr>, Unread>
        requires { Nests self.now E.pre E.post S.pre S.post }
        ensures reads { Gives (read_of tree) result (read.read_condition (source self.now.reader)
            ((nested self.now.reader self.now.room).expr assignment_level) at) }
        ensures nesting { IfOk result (λ r. r.nesting ≡ nesting (tree r.item)) }
        ensures fits { IfOk result (λ r. r.nesting ≤ self.now.room) }
    {
        if !self.reader.is_mark(at, Mark::OpenParenthesis) {
            return Err(Unread::Syntax(at));
        }
        let test = self.expression(ASSIGNMENT_LEVEL, at + 1)?;
        if !self.reader.is_mark(test.end, Mark::CloseParenthesis) {
            return lost(Unread::Syntax(test.end), test);
        }
        Ok(Read {
            item: test.item,
            end: test.end + 1,
            nesting: test.nesting,
        })
    }

    /// An expression as a statement.
    #[tactic(auto, unfolding(sts_grammar::specs::ReadStatements::read_plain))]
    fn plain(&self, at: usize) -> Result<Read<Stmt>, Unread>
        requires { Nests self.now E.pre E.post S.pre S.post }
        ensures reads { Gives (read_of statement) result
            (read.read_plain (source self.now.reader) (nested self.now.reader self.now.room) at) }
        ensures nesting { IfOk result (λ r. r.nesting ≡ statement_nesting (statement r.item)) }
        ensures fits { IfOk result (λ r. r.nesting ≤ self.now.room + 1) }
    {
        let a = self.expression(ASSIGNMENT_LEVEL, at)?;
        let end = match self.reader.ended(a.end) {
            Ok(end) => end,
            Err(why) => return lost(why, a),
        };
        Ok(Read {
            item: build::plain(self.reader.place(at), a.item),
            end,
            nesting: a.nesting + 1,
        })
    }

    /// `let` and `const`, behind that word.
    #[tactic(auto, unfolding(sts_grammar::specs::ReadStatements::read_let_statement))]
    fn declaring(&self, place: u32, fixed: bool, at: usize) -> Result<Read<Stmt>, Unread>
        requires { Nests self.now E.pre E.post S.pre S.post }
        ensures reads { Gives (read_of statement) result (read.read_let_statement (source self.now.reader) self.now.room
            (nested self.now.reader self.now.room) place fixed at) }
        ensures nesting { IfOk result (λ r. r.nesting ≡ statement_nesting (statement r.item)) }
        ensures fits { IfOk result (λ r. r.nesting ≤ self.now.room + 1) }
    {
        let each = self.declarations(fixed, at)?;
        if self.room < each.nesting {
            return lost(Unread::Syntax(at), each);
        }
        let end = match self.reader.ended(each.end) {
            Ok(end) => end,
            Err(why) => return lost(why, each),
        };
        Ok(Read {
            item: build::declaring(place, fixed, each.item),
            end,
            nesting: each.nesting + 1,
        })
    }

    /// `if` with two branches.
    fn two_branches(
        &self,
        place: u32,
        test: Read<Expr>,
        a: Read<Stmt>,
        b: Read<Stmt>,
    ) -> Result<Read<Stmt>, Unread>
        requires nests { Nests self.now E.pre E.post S.pre S.post }
        requires test_weighed { test.nesting ≡ nesting (tree test.item) }
        requires test_small { test.nesting ≤ self.now.room }
        requires a_weighed { a.nesting ≡ statement_nesting (statement a.item) }
        requires a_small { a.nesting ≤ self.now.room }
        requires b_weighed { b.nesting ≡ statement_nesting (statement b.item) }
        requires b_small { b.nesting ≤ self.now.room }
        ensures reads { Gives (read_of statement) result
            (Some (t.IfElse place (tree test.item) (statement a.item) (statement b.item), b.end)) }
        ensures nesting { IfOk result (λ r. r.nesting ≡ statement_nesting (statement r.item)) }
        ensures fits { IfOk result (λ r. r.nesting ≤ self.now.room + 1) }
    {
        let alloc = self.reader.alloc;
        Ok(Read {
            item: build::if_else(alloc, place, test.item, a.item, b.item)?,
            end: b.end,
            nesting: test.nesting.max(a.nesting.max(b.nesting)) + 1,
        })
    }

    /// The second branch of an `if`, behind the `else` at the end of the first.
    fn with_else(
        &self,
        in_function: bool,
        in_loop: bool,
        place: u32,
        test: Read<Expr>,
        a: Read<Stmt>,
    ) -> Result<Read<Stmt>, Unread>
        requires nests { Nests self.now E.pre E.post S.pre S.post }
        requires here { a.end < usize.MAX }
        requires test_weighed { test.nesting ≡ nesting (tree test.item) }
        requires test_small { test.nesting ≤ self.now.room }
        requires a_weighed { a.nesting ≡ statement_nesting (statement a.item) }
        requires a_small { a.nesting ≤ self.now.room }
        ensures reads { Gives (read_of statement) result (read.read_else ((nested self.now.reader self.now.room).stmt
            in_function in_loop) place (tree test.item) (statement a.item) a.end true) }
        ensures nesting { IfOk result (λ r. r.nesting ≡ statement_nesting (statement r.item)) }
        ensures fits { IfOk result (λ r. r.nesting ≤ self.now.room + 1) }
    {
        match self.statement(in_function, in_loop, a.end + 1) {
            Ok(b) => self.two_branches(place, test, a, b),
            Err(why) => lost(why, (test, a)),
        }
    }

    /// What stands behind the first branch of an `if`.
    fn other(
        &self,
        in_function: bool,
        in_loop: bool,
        place: u32,
        test: Read<Expr>,
        a: Read<Stmt>,
    ) -> Result<Read<Stmt>, Unread>
        requires nests { Nests self.now E.pre E.post S.pre S.post }
        requires test_weighed { test.nesting ≡ nesting (tree test.item) }
        requires test_small { test.nesting ≤ self.now.room }
        requires a_weighed { a.nesting ≡ statement_nesting (statement a.item) }
        requires a_small { a.nesting ≤ self.now.room }
        ensures reads { Gives (read_of statement) result
            (read.read_else ((nested self.now.reader self.now.room).stmt in_function in_loop) place (tree test.item)
            (statement a.item) a.end (source.is_word Word.Else (source.kind (source self.now.reader) a.end))) }
        ensures nesting { IfOk result (λ r. r.nesting ≡ statement_nesting (statement r.item)) }
        ensures fits { IfOk result (λ r. r.nesting ≤ self.now.room + 1) }
    {
        if self.reader.is_word(a.end, Word::Else) {
            return self.with_else(in_function, in_loop, place, test, a);
        }
        Ok(Read {
            item: build::if_only(self.reader.alloc, place, test.item, a.item)?,
            end: a.end,
            nesting: test.nesting.max(a.nesting) + 1,
        })
    }

    /// What stands behind an `if`.
    #[tactic(auto, unfolding(sts_grammar::specs::ReadStatements::read_if))]
    fn choosing(
        &self,
        in_function: bool,
        in_loop: bool,
        place: u32,
        at: usize,
    ) -> Result<Read<Stmt>, Unread>
        requires { Nests self.now E.pre E.post S.pre S.post }
        ensures reads { Gives (read_of statement) result (read.read_if (source self.now.reader)
            (nested self.now.reader self.now.room) in_function in_loop place at) }
        ensures nesting { IfOk result (λ r. r.nesting ≡ statement_nesting (statement r.item)) }
        ensures fits { IfOk result (λ r. r.nesting ≤ self.now.room + 1) }
    {
        let test = self.condition(at)?;
        let a = match self.statement(in_function, in_loop, test.end) {
            Ok(a) => a,
            Err(why) => return lost(why, test),
        };
        self.other(in_function, in_loop, place, test, a)
    }

    /// What stands behind a `while`.
    #[tactic(auto, unfolding(sts_grammar::specs::ReadStatements::read_while))]
    fn repeating(&self, in_function: bool, place: u32, at: usize) -> Result<Read<Stmt>, Unread>
        requires { Nests self.now E.pre E.post S.pre S.post }
        ensures reads { Gives (read_of statement) result
            (read.read_while (source self.now.reader) (nested self.now.reader self.now.room) in_function place at) }
        ensures nesting { IfOk result (λ r. r.nesting ≡ statement_nesting (statement r.item)) }
        ensures fits { IfOk result (λ r. r.nesting ≤ self.now.room + 1) }
    {
        let test = self.condition(at)?;
        let a = match self.statement(in_function, true, test.end) {
            Ok(a) => a,
            Err(why) => return lost(why, test),
        };
        Ok(Read {
            item: build::while_loop(self.reader.alloc, place, test.item, a.item)?,
            end: a.end,
            nesting: test.nesting.max(a.nesting) + 1,
        })
    }

    /// What stands behind a `do`.
    #[tactic(auto, unfolding(sts_grammar::specs::ReadStatements::read_do))]
    fn doing(&self, in_function: bool, place: u32, at: usize) -> Result<Read<Stmt>, Unread>
        requires { Nests self.now E.pre E.post S.pre S.post }
        ensures reads { Gives (read_of statement) result
            (read.read_do (source self.now.reader) (nested self.now.reader self.now.room) in_function place at) }
        ensures nesting { IfOk result (λ r. r.nesting ≡ statement_nesting (statement r.item)) }
        ensures fits { IfOk result (λ r. r.nesting ≤ self.now.room + 1) }
    {
        let a = self.statement(in_function, true, at)?;
        if !self.reader.is_word(a.end, Word::While) {
            return lost(Unread::Syntax(a.end), a);
        }
        let test = match self.condition(a.end + 1) {
            Ok(test) => test,
            Err(why) => return lost(why, a),
        };
        Ok(Read {
            item: build::do_while(self.reader.alloc, place, a.item, test.item)?,
            end: self.reader.behind_semicolon(test.end),
            nesting: a.nesting.max(test.nesting) + 1,
        })
    }

    /// What stands behind a `return`.
    fn returning(&self, place: u32, at: usize) -> Result<Read<Stmt>, Unread>
        requires { Nests self.now E.pre E.post S.pre S.post }
        ensures reads { Gives (read_of statement) result (read.read_returned (source self.now.reader)
            (nested self.now.reader self.now.room) place at (read.read_end (source self.now.reader) at)) }
        ensures nesting { IfOk result (λ r. r.nesting ≡ statement_nesting (statement r.item)) }
        ensures fits { IfOk result (λ r. r.nesting ≤ self.now.room + 1) }
    {
        if let Some(end) = self.reader.end_of(at) {
            return Ok(Read {
                item: build::returning(place, None),
                end,
                nesting: 1,
            });
        }
        let value = self.expression(ASSIGNMENT_LEVEL, at)?;
        let end = match self.reader.ended(value.end) {
            Ok(end) => end,
            Err(why) => return lost(why, value),
        };
        Ok(Read {
            item: build::returning(place, Some(value.item)),
            end,
            nesting: value.nesting + 1,
        })
    }

    /// `break`
    fn breaking(&self, in_loop: bool, at: usize) -> Result<Read<Stmt>, Unread>
        requires nests { Nests self.now E.pre E.post S.pre S.post }
        requires here { at < usize.MAX }
        ensures reads { Gives (read_of statement) result (read.read_word_statement (source self.now.reader)
            self.now.room (nested self.now.reader self.now.room) true in_loop at Word.Break) }
        ensures nesting { IfOk result (λ r. r.nesting ≡ statement_nesting (statement r.item)) }
        ensures fits { IfOk result (λ r. r.nesting ≤ self.now.room + 1) }
    {
        if !in_loop {
            return Err(Unread::Syntax(at));
        }
        let end = self.reader.ended(at + 1)?;
        Ok(Read {
            item: Stmt {
                at: self.reader.place(at),
                form: Form::Break,
            },
            end,
            nesting: 1,
        })
    }

    /// `continue`
    fn continuing(&self, in_loop: bool, at: usize) -> Result<Read<Stmt>, Unread>
        requires nests { Nests self.now E.pre E.post S.pre S.post }
        requires here { at < usize.MAX }
        ensures reads { Gives (read_of statement) result (read.read_word_statement (source self.now.reader)
            self.now.room (nested self.now.reader self.now.room) true in_loop at Word.Continue) }
        ensures nesting { IfOk result (λ r. r.nesting ≡ statement_nesting (statement r.item)) }
        ensures fits { IfOk result (λ r. r.nesting ≤ self.now.room + 1) }
    {
        if !in_loop {
            return Err(Unread::Syntax(at));
        }
        let end = self.reader.ended(at + 1)?;
        Ok(Read {
            item: Stmt {
                at: self.reader.place(at),
                form: Form::Continue,
            },
            end,
            nesting: 1,
        })
    }

    /// A statement that begins with a reserved word.
    fn by_reserved(
        &self,
        word: Word,
        in_function: bool,
        in_loop: bool,
        at: usize,
    ) -> Result<Read<Stmt>, Unread>
        requires nests { Nests self.now E.pre E.post S.pre S.post }
        requires here { at < usize.MAX }
        ensures reads { Gives (read_of statement) result (read.read_word_statement (source self.now.reader)
            self.now.room (nested self.now.reader self.now.room) in_function in_loop at word) }
        ensures nesting { IfOk result (λ r. r.nesting ≡ statement_nesting (statement r.item)) }
        ensures fits { IfOk result (λ r. r.nesting ≤ self.now.room + 1) }
    {
        let place = self.reader.place(at);
        match word {
            Word::Let => self.declaring(place, false, at + 1),
            Word::Const => self.declaring(place, true, at + 1),
            Word::If => self.choosing(in_function, in_loop, place, at + 1),
            Word::While => self.repeating(in_function, place, at + 1),
            Word::Do => self.doing(in_function, place, at + 1),
            Word::For => self.for_loop(in_function, place, at + 1),
            Word::Return => {
                if !in_function {
                    return Err(Unread::Syntax(at));
                }
                self.returning(place, at + 1)
            }
            Word::Break => self.breaking(in_loop, at),
            Word::Continue => self.continuing(in_loop, at),
            Word::Function => Err(Unread::Syntax(at)),
            Word::Class => Err(Unread::Syntax(at)),
            _ => self.plain(at),
        }
    }

    /// A statement.
    pub fn any_statement(
        &self,
        in_function: bool,
        in_loop: bool,
        at: usize,
    ) -> Result<Read<Stmt>, Unread>
        requires { Nests self.now E.pre E.post S.pre S.post }
        ensures reads { Gives (read_of statement) result (read.read_statement (source self.now.reader) self.now.room
            (nested self.now.reader self.now.room) in_function in_loop at (source.kind (source self.now.reader) at)) }
        ensures nesting { IfOk result (λ r. r.nesting ≡ statement_nesting (statement r.item)) }
        ensures fits { IfOk result (λ r. r.nesting ≤ self.now.room + 1) }
    {
        match self.reader.kind(at) {
            TokenKind::Mark(Mark::OpenBrace) => {
                let all = self.block(in_function, in_loop, at)?;
                Ok(Read {
                    item: build::block(self.reader.place(at), all.item),
                    end: all.end,
                    nesting: all.nesting + 1,
                })
            }
            TokenKind::Mark(Mark::Semicolon) => Ok(Read {
                item: Stmt {
                    at: self.reader.place(at),
                    form: Form::Empty,
                },
                end: at + 1,
                nesting: 1,
            }),
            TokenKind::Word(word, _) => self.by_reserved(word, in_function, in_loop, at),
            _ => self.plain(at),
        }
    }
}
