// Types and parameters.
ghost use Rattle.std.specs.Prelude.{◌≡◌, ◌<◌, ◌+◌, [], length, Some, IfOk, true};
ghost use Rattle.sts_syntax.specs.Annotations.{annotation};
ghost use Rattle.sts_syntax.specs.Views.{optional_annotation, parameter, parameters};
ghost use Rattle.sts_grammar.specs.ReadHeadings as read;
ghost use Rattle.parse_expr.specs.Gives.{source, Gives, found};
ghost use Rattle.parse_expr.specs.Headings.{parts, opened_by};

use crate::reader::{Reader, Unread};
use sts_base::Seq;
use sts_lexer::{Mark, Word};
use sts_syntax::build::list_of;
use sts_syntax::{Param, Shape};

/// What stands before a routine's block, or before its `=>`.
#[derive(Drop)]
pub struct Heading {
    pub params: Seq<Param>,
    pub gives: Option<Shape>,
}

impl<'a> Reader<'a> {
    /// The type that a name spells, which stands at a token.
    fn named_type(&self, name: u32, at: usize) -> Shape
        ensures { annotation result ≡ read.type_named (source self.now) name at }
    {
        if self.is_spelled(name, b"number") {
            return Shape::Number;
        }
        if self.is_spelled(name, b"boolean") {
            return Shape::Boolean;
        }
        if self.is_spelled(name, b"string") {
            return Shape::Text;
        }
        Shape::Named {
            at: self.place(at),
            name,
        }
    }

    /// Whether `[]` stands at a token, with no line break before it.
    fn is_pair(&self, at: usize) -> bool
        ensures value { result ≡ read.is_pair (source self.now) at }
        ensures inside { result ≡ true → at + 1 < usize.MAX }
    {
        self.is_mark(at, Mark::OpenBracket)
            && !self.is_broken(at)
            && self.is_mark(at + 1, Mark::CloseBracket)
    }

    /// A type with the `[]` behind it.
    #[tactic(auto, using(crate::proofs::Loops::wrap_at), unfolding(sts_grammar::specs::ReadHeadings::wrap_type))]
    fn wrapped(&self, item: Shape, at: usize) -> Result<(Shape, usize), Unread>
        ensures { Gives (found annotation) result
            (Some (read.wrap_type (source self.now) (length self.now.tokens.now) (annotation item) at)) }
    {
        let mut shape = item;
        let mut end = at;
        let mut left = self.count();
        while left > 0 && self.is_pair(end) {
            shape = list_of(self.alloc, shape)?;
            end += 2;
            left -= 1;
        }
        Ok((shape, end))
    }

    /// The type that begins at a token, and the token behind it.
    #[tactic(auto, unfolding(sts_grammar::specs::ReadHeadings::read_type))]
    pub fn shape(&self, at: usize) -> Result<(Shape, usize), Unread>
        ensures { Gives (found annotation) result (read.read_type (source self.now) at) }
    {
        let name = self.name(at)?;
        self.wrapped(self.named_type(name, at), at + 1)
    }

    /// A result's type.
    #[tactic(auto, unfolding(sts_grammar::specs::ReadHeadings::read_result))]
    fn result_shape(&self, at: usize) -> Result<(Shape, usize), Unread>
        ensures { Gives (found annotation) result (read.read_result (source self.now) at) }
    {
        if self.is_word(at, Word::Void) {
            return Ok((Shape::Nothing, at + 1));
        }
        self.shape(at)
    }

    /// `:` and a type, where one is written.
    #[tactic(auto, unfolding(sts_grammar::specs::ReadHeadings::read_optional_type))]
    pub fn written_type(&self, at: usize) -> Result<(Option<Shape>, usize), Unread>
        ensures { Gives (found optional_annotation) result (read.read_optional_type (source self.now) at) }
    {
        if !self.is_mark(at, Mark::Colon) {
            return Ok((None, at));
        }
        let (shape, end) = self.shape(at + 1)?;
        Ok((Some(shape), end))
    }

    /// `:` and a result's type, where one is written.
    #[tactic(auto, unfolding(sts_grammar::specs::ReadHeadings::read_optional_result))]
    pub fn written_result(&self, at: usize) -> Result<(Option<Shape>, usize), Unread>
        ensures { Gives (found optional_annotation) result (read.read_optional_result (source self.now) at) }
    {
        if !self.is_mark(at, Mark::Colon) {
            return Ok((None, at));
        }
        let (shape, end) = self.result_shape(at + 1)?;
        Ok((Some(shape), end))
    }

    /// A parameter.
    #[tactic(auto, unfolding(sts_grammar::specs::ReadHeadings::read_parameter))]
    fn parameter(&self, at: usize) -> Result<(Param, usize), Unread>
        ensures { Gives (found parameter) result (read.read_parameter (source self.now) at) }
    {
        let name = self.name(at)?;
        let (shape, end) = self.written_type(at + 1)?;
        let param = Param {
            at: self.place(at),
            name,
            shape,
        };
        Ok((param, end))
    }

    /// Parameters from the first on, and the token behind their `)`.
    #[tactic(auto, using(crate::proofs::Loops::parameters_at, crate::proofs::OneMore::parameters_put), unfolding(sts_grammar::specs::ReadHeadings::read_more_parameters))]
    fn some_parameters(&self, at: usize) -> Result<(Seq<Param>, usize), Unread>
        ensures { Gives (found parameters) result
            (read.read_more_parameters (source self.now) (length self.now.tokens.now) [] at) }
    {
        let mut all = Seq::new(self.alloc);
        let mut next = at;
        let mut left = self.count();
        while left > 0 {
            let (param, end) = self.parameter(next)?;
            all.push(param)?;
            if self.is_mark(end, Mark::CloseParenthesis) {
                return Ok((all, end + 1));
            }
            if !self.is_mark(end, Mark::Comma) {
                return Err(Unread::Syntax(end));
            }
            next = end + 1;
            left -= 1;
        }
        Err(Unread::Syntax(next))
    }

    /// The parameters behind a `(`, and the token behind their `)`.
    #[tactic(auto, unfolding(sts_grammar::specs::ReadHeadings::read_parameters))]
    pub fn parameters(&self, at: usize) -> Result<(Seq<Param>, usize), Unread>
        ensures { Gives (found parameters) result (read.read_parameters (source self.now) at) }
    {
        if self.is_mark(at, Mark::CloseParenthesis) {
            return Ok((Seq::new(self.alloc), at + 1));
        }
        self.some_parameters(at)
    }

    /// Parameters in parentheses, and the result's type where one is written.
    #[tactic(auto, unfolding(sts_grammar::specs::ReadHeadings::read_heading))]
    pub fn heading(&self, at: usize) -> Result<(Heading, usize), Unread>
        ensures { Gives (found parts) result (read.read_heading (source self.now) at) }
    {
        if !self.is_mark(at, Mark::OpenParenthesis) {
            return Err(Unread::Syntax(at));
        }
        let (params, end) = self.parameters(at + 1)?;
        let (gives, end) = self.written_result(end)?;
        Ok((Heading { params, gives }, end))
    }

    /// The heading of an arrow, with its `=>`.
    #[tactic(auto, unfolding(sts_grammar::specs::ReadHeadings::read_arrow_heading))]
    pub fn arrow_heading(&self, at: usize) -> Result<(Heading, usize), Unread>
        ensures { Gives (found parts) result (read.read_arrow_heading (source self.now) at) }
    {
        let (heading, end) = self.heading(at)?;
        if !self.is_mark(end, Mark::Arrow) {
            return Err(Unread::Syntax(end));
        }
        Ok((heading, end + 1))
    }

    /// Whether an arrow goes on behind a `)`: `=>`, perhaps behind a result's type.
    #[tactic(auto, unfolding(sts_grammar::specs::ReadHeadings::is_arrow_behind))]
    pub fn is_arrow_behind(&self, at: usize) -> Result<bool, Unread>
        ensures { Gives (λ test. test) result (Some (read.is_arrow_behind (source self.now) at)) }
    {
        match self.written_result(at) {
            Ok((_, end)) => Ok(self.is_mark(end, Mark::Arrow)),
            Err(Unread::Syntax(_)) => Ok(false),
            Err(Unread::NoMemory) => Err(Unread::NoMemory),
        }
    }

    /// Whether the parameters of an arrow begin at a token.
    #[tactic(auto, unfolding(sts_grammar::specs::ReadHeadings::begins_arrow))]
    fn begins_arrow(&self, at: usize) -> Result<bool, Unread>
        ensures { Gives (λ test. test) result (Some (read.begins_arrow (source self.now) at)) }
    {
        match self.arrow_heading(at) {
            Ok(_) => Ok(true),
            Err(Unread::Syntax(_)) => Ok(false),
            Err(Unread::NoMemory) => Err(Unread::NoMemory),
        }
    }

    /// The number of `(` from a token on that begin no arrow, one behind the other, and the token behind them.
    #[tactic(auto, using(crate::proofs::Loops::opened_at), unfolding(sts_grammar::specs::ReadExpressions::opened))]
    pub fn open_parentheses(&self, at: usize) -> Result<(usize, usize), Unread>
        ensures { Gives (λ r. r) result (Some (opened_by (source self.now) at)) }
    {
        let mut open = 0;
        let mut next = at;
        let mut left = self.count();
        while left > 0 && self.is_mark(next, Mark::OpenParenthesis) {
            if self.begins_arrow(next)? {
                return Ok((open, next));
            }
            open += 1;
            next += 1;
            left -= 1;
        }
        Ok((open, next))
    }
}
