// Laws of the sizes of texts and programs.
ghost use Rattle.std.specs.Prelude.{ℕ, ◌+◌, ◌<◌, ◌≤◌, List, length};
ghost use Rattle.sts_base.specs.declared.tables.Tables.{Tables};
ghost use Rattle.sts_lexer.specs.declared.token.Token.{Token};
ghost use Rattle.sts_lexer.specs.Bytes.{most_bytes};
ghost use Rattle.sts_lexer.specs.Tokens.{IsTokenization};
ghost use Rattle.sts_syntax.specs.Programs.{Program};
ghost use Rattle.sts_grammar.specs.Source.{Source};
ghost use Rattle.sts_grammar.specs.Units.{IsProgram};
ghost use Rattle.sts_scope.specs.Entries.{Naming, entries_from};
ghost use Rattle.sts_scope.specs.Handlers.{all_routines};
ghost use Rattle.text_sizes.specs.Numbered.{all_numbered};

/// A text has at most one token for each of its bytes, and the last one.
pub fn texts_have_few_tokens()
    ensures bytes { (tables : Tables) (text : List ℕ) (all : List Token) → IsTokenization tables text all
        → length all ≤ length text + 1 }
    ensures most { (tables : Tables) (text : List ℕ) (all : List Token) → IsTokenization tables text all
        → length all ≤ most_bytes + 1 }
{}

/// A program has fewer functions, constructors that aren't written and handlers included, than the tokens that spell it, and fewer declarations of globals, functions,
/// classes, fields and methods. Its functions, with their parameters and locals, take fewer numbers as well.
pub fn programs_have_few_parts()
    ensures functions { (s : Source) (p : Program) → IsProgram s p → all_routines p < length s.tokens }
    ensures numbered { (s : Source) (p : Program) → IsProgram s p → all_numbered p < length s.tokens }
    ensures declarations { (s : Source) (p : Program) → IsProgram s p → (names : Naming) (first : ℕ)
        → length (entries_from names first p) < length s.tokens }
{}
