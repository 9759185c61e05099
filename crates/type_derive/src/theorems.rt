//! Laws of derived types.
ghost use Rattle.type_derive.specs.Laws.{DerivedTypesExist, GrowsWithTypes, IsOne, RulesGrow};

/// Two least tables of types for the same declarations are one.
pub fn derived_types_are_one()
    ensures { IsOne }
{}

/// Where more types are known, an expression has the type that it had, if it had one.
pub fn types_grow()
    ensures { GrowsWithTypes }
{}

/// The rule of a declaration gives no less from a table of types that has more.
pub fn rules_grow()
    ensures { RulesGrow }
{}

/// Each library and text have derived types: the least table that meets the rules of all declarations.
pub fn derived_types_exist()
    ensures { DerivedTypesExist }
{}
