// Types as names and calls are given them.
ghost use Rattle.std.specs.Prelude.{◌≡◌};
ghost use Rattle.sts_scope.specs.Kinds as kind;

/// What stands before the `[]` of a type.
#[derive(Clone, Copy)]
pub enum Base {
    /// a whole number
    Number,
    /// true or false
    Boolean,
    /// a text
    Text,
    /// no value
    Nothing,
    /// what `null` alone has
    Null,
    /// What `[]` has where a type is given: it goes to every array.
    Empty,
    /// an object of the class with this number, the library's classes first
    Class(u32),
}

/// A type: a base, and how many `[]` stand behind it.
#[derive(Clone, Copy)]
pub struct StaticType {
    /// what stands before the `[]`
    pub base: Base,
    /// how many `[]` there are
    pub depth: u32,
}
