//! The law of formed programs.
ghost use Rattle.std.specs.Prelude.{ℕ, List, Option, length};
ghost use Rattle.sts_base.specs.declared.tables.Tables.{Tables};
ghost use Rattle.sts_lexer.specs.declared.token.Token.{Token};
ghost use Rattle.sts_lexer.specs.Tokens.{IsTokenization};
ghost use Rattle.sts_syntax.specs.Programs.{Program};
ghost use Rattle.sts_grammar.specs.Units.{IsProgram};
ghost use Rattle.sts_grammar.specs.Texts.{source};
ghost use Rattle.sts_syntax.specs.Nodes.{NamesTexts};
ghost use Rattle.sts_scope.specs.declared.kinds.StaticType.{StaticType};
ghost use Rattle.typed_laws.specs.Formed.{IsFormedProgram, TextsBelow};
ghost use Rattle.typed_laws.specs.inner.FilledTexts.{filled_program};

/// A program that the tokens of a text spell is formed: its numbers have 32 bits, `++` and `--` are by one, `break` and `continue` stand in
/// loops, and first in the head of a `for` stands a declaration or an expression.
/// And its texts stand in the tables.
pub fn spelled_programs_are_formed()
    ensures formed { (tables : Tables) (text : List ℕ) (tokens : List Token) (program : Program)
        → IsTokenization tables text tokens → IsProgram (source tokens tables) program → IsFormedProgram program }
    ensures texts { (tables : Tables) (text : List ℕ) (tokens : List Token) (program : Program)
        → IsTokenization tables text tokens → IsProgram (source tokens tables) program
        → TextsBelow (length tables.texts) program }
{}

/// The texts of a typed program are those of the library and the text that it is made of.
pub fn typed_programs_name_texts_of_their_trees()
    ensures { (n : ℕ) (tables : Tables) (library text : Program) (kinds : List (Option StaticType))
        → TextsBelow n library → TextsBelow n text → NamesTexts n (filled_program tables library text kinds) }
{}
