//! Worked rows: small texts and their first failure. Codes and places were set by hand from the rules.
ghost use Rattle.std.specs.Prelude.{◌≡◌, Some, None, [], ◌∷◌};
ghost use Rattle.sts_base.specs.declared.refused.Code.TheVariants.{UnknownName, TwiceNamed, NeedsType, ClassCycle};
ghost use Rattle.sts_syntax.specs.Annotations as s;
ghost use Rattle.sts_scope.specs.Failures.{failure_at};
ghost use Rattle.sts_scope.specs.Rows.{refused, global, function, parameter, class, subclass, field, untyped_field, empty_method, constructor};

/// Names of the whole text.
pub fn rows_of_names()
    ensures dollar { refused (global 4 3 ∷ []) ≡ failure_at UnknownName 4 }
    ensures second { refused (global 4 0 ∷ function 19 0 [] ∷ []) ≡ failure_at TwiceNamed 19 }
    ensures before_bases { refused (subclass 6 0 1 16 [] ∷ class 28 0 [] ∷ []) ≡ failure_at TwiceNamed 28 }
    ensures none { refused (global 4 0 ∷ class 16 1 (field 20 0 ∷ empty_method 30 1 ∷ [])
        ∷ function 50 2 (parameter 52 0 (Some (s.Named 55 1)) ∷ []) ∷ []) ≡ None }
{}

/// Bases of classes.
pub fn rows_of_bases()
    ensures unknown { refused (subclass 6 0 1 16 [] ∷ []) ≡ failure_at UnknownName 16 }
    ensures own { refused (subclass 6 0 0 16 [] ∷ []) ≡ failure_at ClassCycle 6 }
    ensures runs_into_a_circle { refused (subclass 6 0 1 16 [] ∷ subclass 28 1 1 38 [] ∷ []) ≡ failure_at ClassCycle 6 }
    ensures unknown_before_circle { refused (subclass 6 0 0 16 [] ∷ subclass 28 1 2 38 [] ∷ [])
        ≡ failure_at UnknownName 38 }
    ensures before_headings { refused (class 6 0 (untyped_field 10 1 ∷ []) ∷ subclass 28 1 1 38 [] ∷ [])
        ≡ failure_at ClassCycle 28 }
{}

/// Headings of functions and members.
pub fn rows_of_headings()
    ensures unknown_type { refused (function 9 0 (parameter 11 1 (Some (s.ListOf (s.Named 14 2))) ∷ []) ∷ [])
        ≡ failure_at UnknownName 14 }
    ensures untyped { refused (function 9 0 (parameter 11 1 None ∷ []) ∷ []) ≡ failure_at NeedsType 11 }
    ensures second_parameter { refused (function 9 0 (parameter 11 1 (Some s.Number)
        ∷ parameter 22 1 (Some s.Number) ∷ []) ∷ []) ≡ failure_at TwiceNamed 22 }
    ensures untyped_second { refused (function 9 0 (parameter 11 1 (Some s.Number) ∷ parameter 22 1 None ∷ []) ∷ [])
        ≡ failure_at NeedsType 22 }
    ensures second_member { refused (class 6 0 (field 10 1 ∷ empty_method 20 1 ∷ []) ∷ []) ≡ failure_at TwiceNamed 20 }
    ensures second_constructor { refused (class 6 0 (constructor 10 ∷ constructor 30 ∷ []) ∷ [])
        ≡ failure_at TwiceNamed 30 }
    ensures constructor_after_field { refused (class 6 0 (field 10 4 ∷ constructor 30 ∷ []) ∷ [])
        ≡ failure_at TwiceNamed 30 }
    ensures field_after_constructor { refused (class 6 0 (constructor 10 ∷ empty_method 20 1 ∷ field 30 4 ∷ []) ∷ [])
        ≡ failure_at TwiceNamed 30 }
    ensures field_named_constructor { refused (class 6 0 (field 10 4 ∷ []) ∷ subclass 30 1 0 40 (constructor 44 ∷ [])
        ∷ []) ≡ None }
    ensures field_of_base { refused (class 6 0 (field 10 1 ∷ []) ∷ subclass 30 2 0 40 (field 44 1 ∷ []) ∷ [])
        ≡ failure_at TwiceNamed 44 }
    ensures method_over_field { refused (subclass 6 2 0 16 (empty_method 20 1 ∷ []) ∷ class 40 0 (field 44 1 ∷ []) ∷ [])
        ≡ failure_at TwiceNamed 20 }
    ensures method_over_method { refused (subclass 6 2 0 16 (empty_method 20 1 ∷ [])
        ∷ class 40 0 (empty_method 44 1 ∷ []) ∷ []) ≡ None }
    ensures untyped_field { refused (class 6 0 (untyped_field 10 1 ∷ []) ∷ []) ≡ failure_at NeedsType 10 }
    ensures text_order { refused (class 6 0 (untyped_field 10 1 ∷ []) ∷ function 30 1 (parameter 32 2 None ∷ []) ∷ [])
        ≡ failure_at NeedsType 10 }
{}
