//! Laws of simulations: what one kind of activity does in a world, another does in steps of its own.

ghost use Rattle.std.specs.Prelude.{◌≡◌, ℕ, ◌+◌, ◌*◌, ◌≤◌, ◌<◌, true, List};
ghost use Rattle.board_world.specs.Board.{Entry, over};
ghost use Rattle.board_world.specs.Kinds.{Kind};
ghost use Rattle.board_world.specs.Activities.{World};
ghost use Rattle.board_world.specs.World.{start};
ghost use Rattle.board_world.specs.Runs.{Arrival, Rises, Keeps, run, run_with, board_with};
ghost use Rattle.board_world.specs.Simulation.{Simulation, Alike, ties, one, always};
ghost use Rattle.board_world.specs.Composed.{seen, joined_seen};
ghost use Rattle.board_world.specs.Implements.{EndsByNoFault, Implements, boards_from};
ghost use Rattle.board_world.specs.Sound.{NoFault, PartialSimulation, Sound, typing};
ghost use Rattle.board_world.specs.Trailing.{PartialTrailingSimulation};
ghost use Rattle.board_world.specs.Standing.{PanicsTogether, worlds_from};

/// What ties two kinds of activity: their own states, what they share, the numbers of their functions, and the places
/// at which they may panic.
pub trait Tied {
    type Upper;

    type UpperShared;

    type Lower;

    type LowerShared;

    ghost shared: { ℕ → Self.UpperShared → Self.LowerShared → Type 0 };

    ghost active: { Self.UpperShared → Self.LowerShared → Self.Upper → Self.Lower → Type 0 };

    ghost code: { ℕ → ℕ → Type 0 };

    ghost placed: { Self.Upper → Self.Lower → Type 0 };
}

/// A simulation between two kinds of activity is one between their worlds, whatever arrives between two steps.
pub fn simulations_lift<T: Tied>()
    ensures { (K : Kind T.Upper T.UpperShared) (L : Kind T.Lower T.LowerShared) (bound : ℕ)
        (w : World T.Upper T.UpperShared) (v : World T.Lower T.LowerShared)
        → 0 < bound → Simulation K L (ties T.shared T.active T.code T.placed) one (always bound)
        → Alike (ties T.shared T.active T.code T.placed) w v
        → (arrivals : List Arrival) → Rises 0 arrivals → (m : ℕ)
        → Keeps bound (board_with K w) (board_with L v) arrivals m }
{}

/// A run that ends within s steps has ended below within `bound * s`.
pub fn simulated_runs_end_in_time<T: Tied>()
    ensures { (K : Kind T.Upper T.UpperShared) (L : Kind T.Lower T.LowerShared) (bound : ℕ)
        (w : World T.Upper T.UpperShared) (v : World T.Lower T.LowerShared)
        → 0 < bound → Simulation K L (ties T.shared T.active T.code T.placed) one (always bound)
        → Alike (ties T.shared T.active T.code T.placed) w v
        → (s : ℕ) → over (run K s w).board ≡ true → over (run L (bound * s) v).board ≡ true }
{}

/// The same where acts come between two steps, each at its own place in either run.
pub fn simulated_runs_end_in_time_with_arrivals<A, S, C, D>()
    ensures { (K : Kind A S) (L : Kind C D) (bound : ℕ) (w : World A S) (v : World C D) (arrivals : List Arrival)
        (s : ℕ) (kept : Keeps bound (board_with K w) (board_with L v) arrivals (bound * s))
        → over (run_with K kept.places s w).board ≡ true → over (run_with L arrivals (bound * s) v).board ≡ true }
{}

/// Three kinds of activity in a chain, where the middle one's shared state is a part of the upper one's.
pub trait Chained {
    type Upper;

    type Middle;

    type Shared;

    type MiddleShared;

    type Lower;

    type LowerShared;

    ghost down: { Self.Shared → Self.MiddleShared };

    ghost fine: { ℕ → Self.Shared → Type 0 };

    ghost active: { Self.Shared → Self.Upper → Self.Middle → Type 0 };

    ghost code: { ℕ → ℕ → Type 0 };

    ghost placed: { Self.Upper → Self.Middle → Type 0 };

    ghost lower_shared: { ℕ → Self.MiddleShared → Self.LowerShared → Type 0 };

    ghost lower_active: { Self.MiddleShared → Self.LowerShared → Self.Middle → Self.Lower → Type 0 };

    ghost lower_code: { ℕ → ℕ → Type 0 };

    ghost lower_placed: { Self.Middle → Self.Lower → Type 0 };
}

/// Two simulations behind one another are one, where the weight of the middle kind's steps is the bound of the lower simulation.
pub fn simulations_compose<T: Chained>()
    ensures { (K : Kind T.Upper T.Shared) (L : Kind T.Middle T.MiddleShared) (M : Kind T.Lower T.LowerShared)
        (bound : T.Upper → T.Shared → ℕ) (weight : T.Middle → T.MiddleShared → ℕ)
        (lower_weight : T.Lower → T.LowerShared → ℕ)
        → Simulation K L (seen T.down T.fine T.active T.code T.placed) weight bound
        → Simulation L M (ties T.lower_shared T.lower_active T.lower_code T.lower_placed) lower_weight weight
        → Simulation K M (joined_seen T.down T.fine T.active T.code T.placed
        (ties T.lower_shared T.lower_active T.lower_code T.lower_placed)) lower_weight bound }
{}

/// Simulations that owe nothing where the upper kind makes a fault compose in the same way.
pub fn partial_simulations_compose<T: Chained>()
    ensures { (K : Kind T.Upper T.Shared) (L : Kind T.Middle T.MiddleShared) (M : Kind T.Lower T.LowerShared)
        (bound : T.Upper → T.Shared → ℕ) (weight : T.Middle → T.MiddleShared → ℕ)
        (lower_weight : T.Lower → T.LowerShared → ℕ)
        → PartialSimulation K L (seen T.down T.fine T.active T.code T.placed) weight bound
        → PartialSimulation L M (ties T.lower_shared T.lower_active T.lower_code T.lower_placed)
        lower_weight weight
        → PartialSimulation K M (joined_seen T.down T.fine T.active T.code T.placed
        (ties T.lower_shared T.lower_active T.lower_code T.lower_placed)) lower_weight bound }
{}

/// One whose lower activity may trail behind its turns stands behind one that doesn't.
pub fn trailing_simulations_compose<T: Chained>()
    ensures { (K : Kind T.Upper T.Shared) (L : Kind T.Middle T.MiddleShared) (M : Kind T.Lower T.LowerShared)
        (bound : T.Upper → T.Shared → ℕ) (weight : T.Middle → T.MiddleShared → ℕ)
        (lower_weight : T.Lower → T.LowerShared → ℕ) (r : ℕ)
        → PartialSimulation K L (seen T.down T.fine T.active T.code T.placed) weight bound
        → PartialTrailingSimulation L M (ties T.lower_shared T.lower_active T.lower_code T.lower_placed)
        lower_weight r weight
        → PartialTrailingSimulation K M (joined_seen T.down T.fine T.active T.code T.placed
        (ties T.lower_shared T.lower_active T.lower_code T.lower_placed)) lower_weight r bound }
{}

/// What is typed of a kind of activity, and what ties it to another.
pub trait Typed: Tied {
    ghost typed_shared: { ℕ → Self.UpperShared → Type 0 };

    ghost typed: { Self.UpperShared → Self.Upper → Type 0 };

    ghost typed_code: { ℕ → Type 0 };
}

/// Where each step of a typed activity is no fault and leaves all typed, no run ends by a fault, whatever arrives.
pub fn typed_runs_make_no_fault<T: Typed>()
    ensures { (K : Kind T.Upper T.UpperShared) → Sound K (typing T.typed_shared T.typed T.typed_code)
        → (main : ℕ) (shared : T.UpperShared) → T.typed_code main → T.typed_shared 0 shared
        → (until : ℕ) (script : List Entry) (arrivals : List Arrival) → Rises 0 arrivals → (m : ℕ)
        → EndsByNoFault (run_with K arrivals m (start K main shared until script)).board.end }
{}

/// There a simulation that owes nothing at faults makes the lower kind implement the upper one.
pub fn typed_simulations_implement<T: Typed>()
    ensures { (K : Kind T.Upper T.UpperShared) (L : Kind T.Lower T.LowerShared) (bound : ℕ)
        → 0 < bound → Sound K (typing T.typed_shared T.typed T.typed_code)
        → PartialSimulation K L (ties T.shared T.active T.code T.placed) one (always bound)
        → (main entry : ℕ) (shared : T.UpperShared) (below : T.LowerShared) → T.typed_code main → T.code main entry
        → T.typed_shared 0 shared → T.shared 0 shared below
        → Implements bound (boards_from K main shared) (boards_from L entry below) }
{}

/// So does one whose lower activity may trail behind its turns.
pub fn typed_trailing_simulations_implement<T: Typed>()
    ensures { (K : Kind T.Upper T.UpperShared) (L : Kind T.Lower T.LowerShared) (r bound : ℕ)
        → 0 < bound → Sound K (typing T.typed_shared T.typed T.typed_code)
        → PartialTrailingSimulation K L (ties T.shared T.active T.code T.placed) one r (always bound)
        → (main entry : ℕ) (shared : T.UpperShared) (below : T.LowerShared) → T.typed_code main → T.code main entry
        → T.typed_shared 0 shared → T.shared 0 shared below
        → Implements bound (boards_from K main shared) (boards_from L entry below) }
{}

/// Where the lower run has ended by a panic, so has the run above that it keeps, and those who panicked are at places
/// that belong together.
pub fn typed_panics_stand<T: Typed>()
    ensures { (K : Kind T.Upper T.UpperShared) (L : Kind T.Lower T.LowerShared) (r bound : ℕ)
        → 0 < bound → Sound K (typing T.typed_shared T.typed T.typed_code)
        → PartialTrailingSimulation K L (ties T.shared T.active T.code T.placed) one r (always bound)
        → (main entry : ℕ) (shared : T.UpperShared) (below : T.LowerShared) → T.typed_code main → T.code main entry
        → T.typed_shared 0 shared → T.shared 0 shared below
        → PanicsTogether bound T.placed (worlds_from K main shared) (worlds_from L entry below) }
{}

/// A run that ends in s steps has ended in `bound * s` steps of one that implements it, where nothing arrives.
pub fn implemented_runs_end_in_time<A, S, C, D>()
    ensures { (K : Kind A S) (L : Kind C D) (bound main entry : ℕ) (shared : S) (below : D)
        → Implements bound (boards_from K main shared) (boards_from L entry below)
        → (until : ℕ) (script : List Entry) (s : ℕ) → over (run K s (start K main shared until script)).board ≡ true
        → over (run L (bound * s) (start L entry below until script)).board ≡ true }
{}

/// A simulation within some bound is one within a greater bound, also one that owes nothing at faults. The bound need be
/// greater only where the activities are tied, and for the latter only where the upper step is no fault.
pub fn simulations_have_greater_bounds<T: Tied>()
    ensures whole { (K : Kind T.Upper T.UpperShared) (L : Kind T.Lower T.LowerShared)
        (weight : T.Lower → T.LowerShared → ℕ) (bound greater : T.Upper → T.UpperShared → ℕ)
        → ((used : ℕ) (s : T.UpperShared) (t : T.LowerShared) (a : T.Upper) (c : T.Lower) → T.shared used s t
        → T.active s t a c → bound a s ≤ greater a s)
        → Simulation K L (ties T.shared T.active T.code T.placed) weight bound
        → Simulation K L (ties T.shared T.active T.code T.placed) weight greater }
    ensures partial { (K : Kind T.Upper T.UpperShared) (L : Kind T.Lower T.LowerShared)
        (weight : T.Lower → T.LowerShared → ℕ) (bound greater : T.Upper → T.UpperShared → ℕ)
        → ((used : ℕ) (s : T.UpperShared) (t : T.LowerShared) (a : T.Upper) (c : T.Lower) → T.shared used s t
        → T.active s t a c → NoFault (K.step a s) → bound a s ≤ greater a s)
        → PartialSimulation K L (ties T.shared T.active T.code T.placed) weight bound
        → PartialSimulation K L (ties T.shared T.active T.code T.placed) weight greater }
{}
