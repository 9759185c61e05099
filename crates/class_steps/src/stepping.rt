//! Laws of boards that were stepped.
ghost use Rattle.std.specs.Prelude.{◌≡◌, ◌≤◌, ◌++◌, ◌∷◌, suc, length, ℕ, List, map};
ghost use Rattle.std.specs.List.{AllByRecursion};
ghost use Rattle.sts_base.specs.Prefix.{IsPrefix};
ghost use Rattle.board_world.specs.Observations.{ByteList, Observation};
ghost use Rattle.board_world.specs.Board.{Board};
ghost use Rattle.board_world.specs.Simulation.{Paired};
ghost use Rattle.class_world.specs.Hearing.{before};
ghost use Rattle.class_world.specs.Classes.{Class, Played, AreInOrder, IsWhole, Hear, seen_before, world_before, world_of};
ghost use Rattle.class_world.specs.Lines.{lines_at, lines_before, moment_lines, whole_text};
ghost use Rattle.class_steps.specs.Outlook.{Outlook, IsSeenAs, text_of_looks};
ghost use Rattle.class_steps.specs.Texts.{Reached, IsTextOf};

/// Boards that were stepped past the class's end, each on what it heard of the others, are a whole class run, and its text is theirs.
pub fn boards_that_wait_have_ended<A, S>()
    ensures { (C : Class A S) (ps : List (Played A S)) (os : List Outlook) → AreInOrder C.members
        → map (λ (p : Played A S). p.member) ps ≡ C.members
        → Hear C (suc C.until) (map (seen_before C.until (suc C.until)) ps) 0 ps
        → Paired (IsSeenAs C.until (suc C.until)) ps os
        → IsWhole C ps
        × (whole_text C.until (map (λ (p : Played A S). (world_of C.until p).board) ps) ≡ text_of_looks C.until os) }
{}

/// Boards in the midst of a moment, each on what it heard of what these have seen before it: the first have gone through it, the next has made a part of its steps in it, and the others have come to it. Where none has
/// made more steps than a budget, some text of their class begins with what they have written: all lines from before the moment, and at it those of the first and those that the next has written so far.
pub fn boards_in_a_moment_begin_a_text<A, S>()
    ensures { (C : Class A S) (budget t : ℕ) (ps qs : List (Played A S)) (here : Played A S) (bs cs : List Board)
        → AreInOrder C.members → t ≤ C.until
        → (let v = (world_before C.until (suc t) here).board in
        map (λ (p : Played A S). p.member) (ps ++ here ∷ qs) ≡ C.members
        → Hear C t (map (λ (w : Board). before t w.seen) (bs ++ v ∷ cs)) 0 (ps ++ here ∷ qs)
        → Paired (Reached C.until (suc t)) ps bs → Paired (Reached C.until t) qs cs → t ≤ v.clock
        → AllByRecursion (λ (p : Played A S). p.steps ≤ budget) (ps ++ here ∷ qs)
        → (text : ByteList) × IsTextOf C budget text
        × IsPrefix (lines_before t (bs ++ v ∷ cs) ++ (moment_lines t 0 bs ++ lines_at t (length ps) v)) text) }
{}
