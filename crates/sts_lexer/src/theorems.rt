// Laws of tokens.
ghost use Rattle.sts_lexer.specs.Laws.{OneNumbering, OneReading, SomeReading, SpellingsStay};

/// A text has one list of tokens by given tables, or one refusal, and never both.
pub fn one_reading()
    ensures { OneReading }
{}

/// Tokens stay tokens of their text when the tables grow.
pub fn spellings_stay()
    ensures { SpellingsStay }
{}

/// A text that is read over given tables has one list of tokens, and leaves one pair of tables.
pub fn one_numbering()
    ensures { OneNumbering }
{}

/// A text that is read over given tables has tokens, or is refused for want of them.
pub fn texts_are_read_or_refused()
    ensures { SomeReading }
{}
