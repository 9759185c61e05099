// Lists: expressions with commas between them, and blocks.
ghost use Rattle.std.specs.Prelude.{◌≡◌, ◌≤◌, ◌+◌, [], length, IfOk};
ghost use Rattle.sts_syntax.specs.Trees.{none, done};
ghost use Rattle.sts_syntax.specs.Nesting.{deepest_tree, deepest_statement};
ghost use Rattle.sts_syntax.specs.Views.{trees, statements};
ghost use Rattle.sts_grammar.specs.ReadExpressions as read;
ghost use Rattle.sts_grammar.specs.Precedence.{assignment_level};
ghost use Rattle.parse_expr.specs.Nests.{Nests};
ghost use Rattle.parse_expr.specs.Gives.{source, nested, Gives, read_of};

use crate::grammar::Grammar;
use crate::operators::ASSIGNMENT_LEVEL;
use crate::reader::{Read, Reader, Unread};
use sts_base::Seq;
use sts_lexer::Mark;
use sts_syntax::{Expr, Stmt};

impl<
    'a,
    E: Fn(Reader<'a>, usize, u8, usize) -> Result<Read<Expr>, Unread>,
    S: Fn(Reader<'a>, usize, bool, bool, usize) -> Result<Read<Stmt>, Unread>,
> Grammar<'a, E, S> {
    /// Expressions from the first on up to the mark that closes them, and the token behind it.
    fn some_items(&self, square: bool, at: usize) -> Result<Read<Seq<Expr>>, Unread>
        requires { Nests self.now E.pre E.post S.pre S.post }
        ensures reads { Gives (read_of trees) result (read.read_items (source self.now.reader) square
            ((nested self.now.reader self.now.room).expr assignment_level)
            (length self.now.reader.tokens.now) none at) }
        ensures nesting { IfOk result (λ r. r.nesting ≡ deepest_tree (trees r.item)) }
        ensures fits { IfOk result (λ r. r.nesting ≤ self.now.room) }
    {
        let mut item = Seq::new(self.reader.alloc);
        let mut nesting = 0;
        let mut next = at;
        let mut left = self.reader.count();
        while left > 0 {
            let a = self.expression(ASSIGNMENT_LEVEL, next)?;
            item.push(a.item)?;
            nesting = a.nesting.max(nesting);
            if self.reader.closes(square, a.end) {
                let end = a.end + 1;
                return Ok(Read { item, end, nesting });
            }
            if !self.reader.is_mark(a.end, Mark::Comma) {
                return Err(Unread::Syntax(a.end));
            }
            next = a.end + 1;
            left -= 1;
        }
        Err(Unread::Syntax(next))
    }

    /// Expressions with commas between them up to the mark that closes them, `]` where they are in square brackets or else `)`.
    #[tactic(auto, unfolding(sts_grammar::specs::ReadExpressions::read_listed))]
    pub fn listed(&self, square: bool, at: usize) -> Result<Read<Seq<Expr>>, Unread>
        requires { Nests self.now E.pre E.post S.pre S.post }
        ensures reads { Gives (read_of trees) result (read.read_listed (source self.now.reader) square
            ((nested self.now.reader self.now.room).expr assignment_level) at) }
        ensures nesting { IfOk result (λ r. r.nesting ≡ deepest_tree (trees r.item)) }
        ensures fits { IfOk result (λ r. r.nesting ≤ self.now.room) }
    {
        if self.reader.closes(square, at) {
            return Ok(Read {
                item: Seq::new(self.reader.alloc),
                end: at + 1,
                nesting: 0,
            });
        }
        self.some_items(square, at)
    }

    /// Arguments in parentheses.
    #[tactic(auto, unfolding(sts_grammar::specs::ReadExpressions::read_arguments))]
    pub fn arguments(&self, at: usize) -> Result<Read<Seq<Expr>>, Unread>
        requires { Nests self.now E.pre E.post S.pre S.post }
        ensures reads { Gives (read_of trees) result (read.read_arguments (source self.now.reader)
            ((nested self.now.reader self.now.room).expr assignment_level) at) }
        ensures nesting { IfOk result (λ r. r.nesting ≡ deepest_tree (trees r.item)) }
        ensures fits { IfOk result (λ r. r.nesting ≤ self.now.room) }
    {
        if !self.reader.is_mark(at, Mark::OpenParenthesis) {
            return Err(Unread::Syntax(at));
        }
        self.listed(false, at + 1)
    }

    /// Statements up to a `}`, and the token behind it.
    fn statements(
        &self,
        in_function: bool,
        in_loop: bool,
        at: usize,
    ) -> Result<Read<Seq<Stmt>>, Unread>
        requires { Nests self.now E.pre E.post S.pre S.post }
        ensures reads { Gives (read_of statements) result (read.read_statements (source self.now.reader)
            ((nested self.now.reader self.now.room).stmt in_function in_loop)
            (length self.now.reader.tokens.now) done at) }
        ensures nesting { IfOk result (λ r. r.nesting ≡ deepest_statement (statements r.item)) }
        ensures fits { IfOk result (λ r. r.nesting ≤ self.now.room) }
    {
        let mut item = Seq::new(self.reader.alloc);
        let mut nesting = 0;
        let mut next = at;
        let mut left = self.reader.count();
        while left > 0 {
            if self.reader.is_mark(next, Mark::CloseBrace) {
                let end = next + 1;
                return Ok(Read { item, end, nesting });
            }
            let a = self.statement(in_function, in_loop, next)?;
            item.push(a.item)?;
            nesting = a.nesting.max(nesting);
            next = a.end;
            left -= 1;
        }
        Err(Unread::Syntax(next))
    }

    /// `{`, statements and `}`.
    #[tactic(auto, unfolding(sts_grammar::specs::ReadExpressions::read_block))]
    pub fn block(
        &self,
        in_function: bool,
        in_loop: bool,
        at: usize,
    ) -> Result<Read<Seq<Stmt>>, Unread>
        requires { Nests self.now E.pre E.post S.pre S.post }
        ensures reads { Gives (read_of statements) result (read.read_block (source self.now.reader)
            ((nested self.now.reader self.now.room).stmt in_function in_loop) at) }
        ensures nesting { IfOk result (λ r. r.nesting ≡ deepest_statement (statements r.item)) }
        ensures fits { IfOk result (λ r. r.nesting ≤ self.now.room) }
    {
        if !self.reader.is_mark(at, Mark::OpenBrace) {
            return Err(Unread::Syntax(at));
        }
        self.statements(in_function, in_loop, at + 1)
    }
}
