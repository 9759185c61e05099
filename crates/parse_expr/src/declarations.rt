// Declared names.
ghost use Rattle.std.specs.Prelude.{◌≡◌, ◌≤◌, ◌<◌, ◌+◌, length, IfOk};
ghost use Rattle.sts_syntax.specs.Trees.{ended};
ghost use Rattle.sts_syntax.specs.Nesting.{optional_nesting, declaration_nesting, deepest_declaration};
ghost use Rattle.sts_syntax.specs.Views.{optional_expression, declaration, declarations};
ghost use Rattle.sts_grammar.specs.Source as source;
ghost use Rattle.sts_grammar.specs.ReadStatements as read;
ghost use Rattle.sts_grammar.specs.Precedence.{assignment_level};
ghost use Rattle.parse_expr.specs.Nests.{Nests};
ghost use Rattle.parse_expr.specs.Gives.{source, nested, Gives, read_of};

use crate::grammar::Grammar;
use crate::operators::ASSIGNMENT_LEVEL;
use crate::reader::{Read, Reader, Unread};
use sts_base::Seq;
use sts_lexer::Mark;
use sts_syntax::{Binding, Expr, Stmt, build};

impl<
    'a,
    E: Fn(Reader<'a>, usize, u8, usize) -> Result<Read<Expr>, Unread>,
    S: Fn(Reader<'a>, usize, bool, bool, usize) -> Result<Read<Stmt>, Unread>,
> Grammar<'a, E, S> {
    /// `=` and an initialiser, which `let` may lack.
    pub fn initialiser(&self, fixed: bool, at: usize) -> Result<Read<Option<Expr>>, Unread>
        requires { Nests self.now E.pre E.post S.pre S.post }
        ensures reads { Gives (read_of optional_expression) result
            (read.read_initialiser ((nested self.now.reader self.now.room).expr assignment_level) fixed
            (source.is_mark Mark.Assign (source.kind (source self.now.reader) at)) at) }
        ensures nesting { IfOk result (λ r. r.nesting ≡ optional_nesting (optional_expression r.item)) }
        ensures fits { IfOk result (λ r. r.nesting ≤ self.now.room) }
    {
        if self.reader.is_mark(at, Mark::Assign) {
            let first = self.expression(ASSIGNMENT_LEVEL, at + 1)?;
            return Ok(Read {
                item: Some(first.item),
                end: first.end,
                nesting: first.nesting,
            });
        }
        if fixed {
            return Err(Unread::Syntax(at));
        }
        Ok(Read {
            item: None,
            end: at,
            nesting: 0,
        })
    }

    /// A declared name.
    #[tactic(auto, unfolding(sts_grammar::specs::ReadStatements::read_declaration))]
    fn declared(&self, fixed: bool, at: usize) -> Result<Read<Binding>, Unread>
        requires { Nests self.now E.pre E.post S.pre S.post }
        ensures reads { Gives (read_of declaration) result (read.read_declaration (source self.now.reader)
            ((nested self.now.reader self.now.room).expr assignment_level) fixed at) }
        ensures nesting { IfOk result (λ r. r.nesting ≡ declaration_nesting (declaration r.item)) }
        ensures fits { IfOk result (λ r. r.nesting ≤ self.now.room + 1) }
    {
        let name = self.reader.name(at)?;
        let (shape, end) = self.reader.written_type(at + 1)?;
        let first = self.initialiser(fixed, end)?;
        Ok(Read {
            item: build::binding(self.reader.place(at), name, shape, first.item),
            end: first.end,
            nesting: first.nesting + 1,
        })
    }

    /// Declared names with commas between them.
    #[tactic(auto, unfolding(sts_grammar::specs::ReadStatements::read_let))]
    pub fn declarations(&self, fixed: bool, at: usize) -> Result<Read<Seq<Binding>>, Unread>
        requires { Nests self.now E.pre E.post S.pre S.post }
        ensures reads { Gives (read_of declarations) result (read.read_let (source self.now.reader)
            ((nested self.now.reader self.now.room).expr assignment_level) fixed at) }
        ensures nesting { IfOk result (λ r. r.nesting ≡ deepest_declaration (declarations r.item)) }
        ensures fits { IfOk result (λ r. r.nesting ≤ self.now.room + 1) }
    {
        let mut item = Seq::new(self.reader.alloc);
        let mut nesting = 0;
        let mut next = at;
        let mut left = self.reader.count();
        while left > 0 {
            let a = self.declared(fixed, next)?;
            item.push(a.item)?;
            nesting = a.nesting.max(nesting);
            if !self.reader.is_mark(a.end, Mark::Comma) {
                let end = a.end;
                return Ok(Read { item, end, nesting });
            }
            next = a.end + 1;
            left -= 1;
        }
        Err(Unread::Syntax(next))
    }
}
