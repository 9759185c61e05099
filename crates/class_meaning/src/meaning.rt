//! A law of classes of boards that implement others.
ghost use Rattle.std.specs.Prelude.{ℕ, List};
ghost use Rattle.board_world.specs.Observations.{ByteList};
ghost use Rattle.board_world.specs.Simulation.{Paired};
ghost use Rattle.class_world.specs.Classes.{Member, Class};
ghost use Rattle.class_world.specs.Implementing.{MemberImplements};
ghost use Rattle.class_steps.specs.Texts.{HasWholeText, HasSpentText};
ghost use Rattle.class_meaning.specs.Meaning.{MeansWhole, MeansCut};

/// What boards write of which each implements another one, in at most so many steps for one, is what the class of those others writes: whole where it is whole, its runs ended as theirs; and cut where it is cut, by a
/// board that has made at most as many steps as the budget, and at least one for each `bound` of it.
pub fn classes_write_what_others_write<A, S, C, D>()
    ensures whole { (bound : ℕ) (members : List (Member A S)) (L : Class C D) (budget : ℕ) (text : ByteList)
        → Paired (MemberImplements bound) members L.members
        → (w : HasWholeText L budget text) → MeansWhole members L budget text w.runs }
    ensures cut { (bound : ℕ) (members : List (Member A S)) (L : Class C D) (budget : ℕ) (text : ByteList)
        → Paired (MemberImplements bound) members L.members
        → HasSpentText L budget text → MeansCut bound members L budget text }
{}
