//! What the making of typed trees looks for is there, where a tree has no failure, and that of typed programs, where a text is accepted.
ghost use Rattle.std.specs.Prelude.{◌≡◌, ℕ, Bool, true, Option, Some, None, List, [], ◌∷◌, ◌++◌, IsSome};
ghost use Rattle.sts_base.specs.declared.tables.Tables.{Tables};
ghost use Rattle.sts_syntax.specs.declared.typed.Spot.TheVariants.{Local};
ghost use Rattle.sts_syntax.specs.Annotations.{Annotation};
ghost use Rattle.sts_syntax.specs.Programs.{Program};
ghost use Rattle.sts_syntax.specs.Trees.{Parameter, Tree, Statement, ForOf, Statements, OptionalTree, Declare};
ghost use Rattle.sts_scope.specs.declared.kinds.StaticType.{StaticType};
ghost use Rattle.sts_scope.specs.declared.entries.DeclarationKind.TheVariants as sort;
ghost use Rattle.sts_scope.specs.declared.known.Known.{Known};
ghost use Rattle.sts_scope.specs.declared.known.Part.TheVariants as part;
ghost use Rattle.sts_scope.specs.declared.known.This.{This};
ghost use Rattle.sts_scope.specs.Entries.{Naming};
ghost use Rattle.sts_scope.specs.Lookup.{sort_of};
ghost use Rattle.sts_scope.specs.Numbers.{Numbering, numbering, is_listed, field_names, slot_names};
ghost use Rattle.sts_scope.specs.Places.{NameScope, inner, outside};
ghost use Rattle.sts_scope.specs.Rules.{class_part};
ghost use Rattle.sts_scope.specs.Scopes.{all_names, library_classes};
ghost use Rattle.type_derive.specs.declared.roles.Role.{Role};
ghost use Rattle.type_derive.specs.declared.roles.Role.TheVariants.{Free};
ghost use Rattle.type_derive.specs.Derived.{AreDerived, known};
ghost use Rattle.typed_laws.specs.Accepted.{text_failure};
ghost use Rattle.type_derive.specs.Built.{Site, in_block, behind_statement, in_handler_site};
ghost use Rattle.typed_laws.specs.Formed.{IsFormedProgram};
ghost use Rattle.typed_laws.specs.Libraries.{IsLibrary};
ghost use Rattle.type_derive.specs.Nodes.{failure, declaration_failure, statement_failure};
ghost use Rattle.type_derive.specs.Functions.{site};
ghost use Rattle.type_derive.specs.Returns.{bound, looped, items_of};
ghost use Rattle.type_derive.specs.Typing.{finds, super_method, type_of};
ghost use Rattle.typed_laws.specs.Laws.{IsRead};
ghost use Rattle.typed_laws.specs.Needs.{IsWholeNode, HasSpots};
ghost use Rattle.typed_laws.specs.WholePrograms.{IsAcceptedWith, DeclarationsHaveTypes, NamesAreMembers, IsDeclaredSo, NumbersAreThere, IsWholeText};

/// At a node that is read and has no failure all is there that the making of its typed tree looks for; so is the type of a name that is declared, and of the items
/// that a loop goes through. The parts of such a node have no failure, so the same holds of them.
pub fn nodes_without_a_failure_are_whole()
    ensures expressions { (tables : Tables) (names : Naming) (k : Known) (p : NameScope) (r : Role) (e : Tree)
        → IsRead r → failure tables names k p r e ≡ None → IsWholeNode tables k p r e }
    ensures declarations { (tables : Tables) (names : Naming) (k : Known) (p : NameScope) (at x : ℕ)
        (shape : Option Annotation) (first : OptionalTree) →
        declaration_failure tables names k p (Declare at x shape first) ≡ None
        → IsSome (bound tables names k p shape first) }
    ensures loops { (tables : Tables) (names : Naming) (k : Known) (p : NameScope) (at x : ℕ) (fixed : Bool)
        (list : Tree) (a : Statement) →
        statement_failure tables names k p (ForOf at fixed x list a) ≡ None
        → IsSome (items_of (type_of tables k p Free list)) }
{}

/// Each local in scope has its spot: outside all functions and where a function or a handler without parameters begins, and then in a block, behind a statement and in a loop.
pub fn each_local_in_scope_has_a_spot()
    ensures outside { (this : This) (library : Bool) (gives : Option StaticType)
        → HasSpots (record { place = outside this library gives; spots = [] }) }
    ensures functions { (names : Naming) (this : This) (result : Option StaticType) (library : Bool) (i : ℕ)
        (params : List Parameter) →
        HasSpots (site names this result library i params) }
    ensures handlers { (tables : Tables) (names : Naming) (k : Known) (s : Site)
        (gives : Option Annotation) (all : Statements) →
        HasSpots (in_handler_site tables names k s [] gives all) }
    ensures blocks { (s : Site) → HasSpots s → HasSpots (in_block s) }
    ensures statements { (tables : Tables) (names : Naming) (k : Known) (m : ℕ) (s : Site)
        (a : Statement) → HasSpots s → HasSpots (behind_statement tables names k m s a) }
    ensures loops { (tables : Tables) (names : Naming) (k : Known) (m x : ℕ) (s : Site) (fixed : Bool) (list : Tree)
        → HasSpots s →
        HasSpots (record {
          place = inner (looped tables k s.place fixed x list);
          spots = s.spots ++ Local m ∷ [];
        }) }
{}

/// In an accepted text a field and a method, found by its name in a class, stands among the names of the class's fields or slots.
pub fn members_stand_among_the_names_of_their_class()
    ensures fields { (tables : Tables) (library text : Program) (kinds : List (Option StaticType))
        → IsFormedProgram text → AreDerived tables library text kinds →
        IsLibrary tables library text kinds → text_failure tables library text kinds ≡ None → (c m d : ℕ)
        → class_part (known library text kinds) (Some c) m ≡ part.Field d →
        is_listed (field_names (known library text kinds) c) m ≡ true }
    ensures slots { (tables : Tables) (library text : Program) (kinds : List (Option StaticType)) → IsFormedProgram text
        → AreDerived tables library text kinds →
        IsLibrary tables library text kinds → text_failure tables library text kinds ≡ None → (c m d : ℕ)
        → class_part (known library text kinds) (Some c) m ≡ part.Method d →
        is_listed (slot_names (known library text kinds) c) m ≡ true }
{}

/// In an accepted text the making of the typed program looks for nothing in vain among the declarations, so what it gives where something is missing stands nowhere. Fields, methods, globals and
/// functions of the text have a type, and so has each parameter. What stands among the names of a class's fields or slots is a field or a method that the class has, and its own stand there.
/// A name and `super.m` stand for what is declared so. A constructor of a class with a base begins with `super(..)`. The numbers of globals, functions and constructors are there for each text.
pub fn accepted_programs_look_for_nothing_in_vain()
    ensures types { (tables : Tables) (library text : Program) (kinds : List (Option StaticType))
        → IsAcceptedWith tables library text kinds → DeclarationsHaveTypes (known library text kinds) }
    ensures members { (tables : Tables) (library text : Program) (kinds : List (Option StaticType))
        → IsAcceptedWith tables library text kinds → NamesAreMembers (known library text kinds) }
    ensures names { (tables : Tables) (library text : Program) (kinds : List (Option StaticType))
        → IsAcceptedWith tables library text kinds →
        (p : NameScope) (x : ℕ) → IsDeclaredSo (known library text kinds)
        (finds tables (known library text kinds) p x) }
    ensures routines { (tables : Tables) (library text : Program) (kinds : List (Option StaticType))
        → IsAcceptedWith tables library text kinds →
        IsWholeText (all_names library text) (known library text kinds) (library_classes library text) text }
    ensures supers { (tables : Tables) (k : Known) (this : This) (m d : ℕ) → super_method k this m ≡ Some d
        → sort_of k.entries d ≡ Some sort.Method }
    ensures numbers { (library text : Program) (kinds : List (Option StaticType))
        → NumbersAreThere (known library text kinds) (numbering (library ++ text)) }
{}
