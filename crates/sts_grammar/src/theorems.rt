// Laws of the grammar, and of how it is read.
ghost use Rattle.sts_grammar.specs.Laws.{LongestIsRead, OneProgram, OneTree, OneVerdict, ProgramIsRead, ReadIsSpelled, SpelledIsRead};

/// Tokens spell at most one tree.
pub fn one_tree()
    ensures { OneTree }
{}

/// What is read is spelled.
pub fn what_is_read_is_spelled()
    ensures { ReadIsSpelled }
{}

/// What the tokens spell is read.
pub fn what_is_spelled_is_read()
    ensures { SpelledIsRead }
{}

/// The longest expression and statement from a token on are read, or there is none.
pub fn the_longest_is_read()
    ensures { LongestIsRead }
{}

/// The tokens of a whole text spell at most one program.
pub fn one_program()
    ensures { OneProgram }
{}

/// The program that is read of a whole text is the one that its tokens spell, or they spell none.
pub fn the_program_is_read()
    ensures { ProgramIsRead }
{}

/// A text spells a program or is refused, and never both.
pub fn one_verdict()
    ensures { OneVerdict }
{}
