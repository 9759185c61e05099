//! Laws of what a class writes.
ghost use Rattle.std.specs.Prelude.{◌≡◌, ℕ};
ghost use Rattle.board_world.specs.Observations.{ByteList};
ghost use Rattle.class_world.specs.Classes.{Class, AreInOrder};
ghost use Rattle.class_steps.specs.Texts.{HasWholeText, IsTextOf};

/// A class has one text where each of its boards may make so many steps, whole or cut; and one whole text, whatever its boards may make.
pub fn one_class_text<A, S>()
    ensures one { (C : Class A S) (budget : ℕ) (text other : ByteList) → AreInOrder C.members → IsTextOf C budget text
        → IsTextOf C budget other → text ≡ other }
    ensures whole { (C : Class A S) (budget more : ℕ) (text other : ByteList) → AreInOrder C.members
        → HasWholeText C budget text → HasWholeText C more other → text ≡ other }
{}
