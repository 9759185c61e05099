//! What the functions come to that climb as many bases as there are classes.
ghost use Rattle.std.specs.Prelude.{◌≡◌, ◌↔◌, ℕ, ◌<◌, true, Some, None, List, [], length};
ghost use Rattle.sts_syntax.specs.Programs.{Program};
ghost use Rattle.sts_scope.specs.declared.kinds.StaticType.{StaticType};
ghost use Rattle.sts_scope.specs.declared.entries.Entry.{Entry};
ghost use Rattle.sts_scope.specs.declared.entries.ClassHead.{ClassHead};
ghost use Rattle.sts_scope.specs.declared.known.Known.{Known};
ghost use Rattle.sts_scope.specs.Bases.{is_endless};
ghost use Rattle.sts_scope.specs.Lookup.{base_of, member_number, inherited, is_field};
ghost use Rattle.sts_scope.specs.Numbers.{is_method, own_names, added, field_names, slot_names};
ghost use Rattle.sts_scope.specs.Rules.{reaches, maker_takes_of};
ghost use Rattle.sts_scope.specs.Scopes.{all_classes};
ghost use Rattle.typed_laws.specs.Chains.{BasesAreClasses, HasAbove, ComesBack, IsNearest, IsMemberOf, own_maker_takes};

/// The bases of the classes of a library and a text are classes of them, as the laws below ask.
pub fn bases_are_classes()
    ensures { (library text : Program) → BasesAreClasses (all_classes library text) }
{}

/// A chain of bases has no end exactly where it comes back.
pub fn endless_chains_come_back()
    ensures { (classes : List ClassHead) (c : ℕ) → BasesAreClasses classes → c < length classes
        → (is_endless classes c ≡ true) ↔ ComesBack classes c }
{}

/// A member of a class is its own one, else that of the nearest class above it that declares one. What it inherits is the member of its base.
pub fn members_are_of_the_nearest()
    ensures members { (entries : List Entry) (classes : List ClassHead) (c x d : ℕ) → BasesAreClasses classes
        → c < length classes →
        (member_number entries classes c x ≡ Some d) ↔ IsMemberOf entries classes c x d }
    ensures inherited { (entries : List Entry) (classes : List ClassHead) (c x d : ℕ) → BasesAreClasses classes →
        (inherited entries classes c x ≡ Some d) ↔ ((b : ℕ) × (base_of classes c ≡ Some b)
        × IsMemberOf entries classes b x d) }
{}

/// The classes that a class reaches are itself and those above it.
pub fn classes_reach_those_above()
    ensures { (classes : List ClassHead) (c a : ℕ) → BasesAreClasses classes
        → (reaches classes (length classes) c a ≡ true) ↔ HasAbove classes c a }
{}

/// A class is made with what the nearest written constructor takes, its own or one of a class above it, and with nothing where none is written.
pub fn constructors_are_of_the_nearest()
    ensures written { (classes : List ClassHead) (c : ℕ) (takes : List StaticType) → BasesAreClasses classes
        → c < length classes →
        IsNearest classes (own_maker_takes classes) c takes → maker_takes_of classes c ≡ takes }
    ensures unwritten { (classes : List ClassHead) (c : ℕ)
        → ((a : ℕ) → HasAbove classes c a → own_maker_takes classes a ≡ None) → maker_takes_of classes c ≡ [] }
{}

/// Fields and slots are those of the base, and behind them the class's own new ones, where the chain of the class doesn't come back.
pub fn names_of_the_base_come_first()
    ensures fields { (k : Known) (c : ℕ) → BasesAreClasses k.classes → c < length k.classes
        → (ComesBack k.classes c → ⊥) → field_names k c ≡ elim (base_of k.classes c) [
          | None ↦ own_names is_field k.entries c
          | Some b ↦ added (field_names k b) (own_names is_field k.entries c)
        ] }
    ensures slots { (k : Known) (c : ℕ) → BasesAreClasses k.classes → c < length k.classes → (ComesBack k.classes c → ⊥)
        → slot_names k c ≡ elim (base_of k.classes c) [
          | None ↦ own_names is_method k.entries c
          | Some b ↦ added (slot_names k b) (own_names is_method k.entries c)
        ] }
{}
