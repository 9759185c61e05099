//! Texts without a failure are built.
ghost use Rattle.typed_laws.specs.BuiltTexts.{TextsAreBuilt, RefusalsAreFound};

/// Behind a library a text without a failure of headings, overriding methods and nodes has a typed program: all is there that is looked for. It is the one that is built where a value stands
/// for what is missing; and so each text has the failure that is found over that.
pub fn texts_without_a_failure_are_built()
    ensures built { TextsAreBuilt }
    ensures refused { RefusalsAreFound }
{}
