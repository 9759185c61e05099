//! The law of elaboration.
ghost use Rattle.std.specs.Prelude.{ℕ};
ghost use Rattle.sts_syntax.specs.Trees.{Tree, Statements};
ghost use Rattle.type_derive.specs.Built.{Site};
ghost use Rattle.elaborated.specs.Elaborated.{Whole, Place};
ghost use Rattle.elaborated.specs.Laws.{HasItsSpots, AgreesOnTrees, AgreesOnStatements};

/// Where each local in scope has its spot, elaboration fails by the first failure of an expression or of statements; where there is none, it gives what is made of them, and the type of an expression.
pub fn elaboration_agrees()
    ensures trees { (w : Whole) (s : Site) (r : Place) (a : Tree) (m n : ℕ) → HasItsSpots s
        → AgreesOnTrees w s r a m n }
    ensures statements { (w : Whole) (s : Site) (all : Statements) (m n : ℕ) → HasItsSpots s
        → AgreesOnStatements w s all m n }
{}
