// What stands for the keys: what calls do to keys, the world's moves do to activities.
ghost use Rattle.std.specs.Prelude.{◌≡◌, ◌≤◌, ◌++◌, ◌∷◌, [], ℕ, ℤ, Bool, false, List, length, map};
ghost use Rattle.board_world.specs.declared.events.Event.{Event};
ghost use Rattle.board_world.specs.Waiting.{chosen, left, least, hears};
ghost use Rattle.board_world.specs.Activities.{Activity, World, woken};
ghost use Rattle.board_world.specs.Kinds.{Kind, Pauses, Waits};
ghost use Rattle.board_world.specs.Rules.{wake_time};
ghost use Rattle.board_world.specs.World.{jump, leaves, acted, lacks_seat};
ghost use Rattle.fiber_queues.specs.Lists.{ListsOf};
ghost use Rattle.fiber_queues.specs.Keys.{how_often, listed, IsOnce};
ghost use Rattle.fiber_queues.specs.Calls.{Call, Ready, Sleep, Wait, Next, WakeDue, WakeWaiter, called, after, times, all_woken, keyed, meant, meant_call};
ghost use Rattle.fiber_queues.specs.Moves.{lists_of, blocked_as, woken_by};

/// Over any list of calls: what stands for the keys behind them is what the same calls make of what stands for the keys
/// before. So lists of keys go the way of the lists of activities that they stand for.
pub fn keys_stand_for_activities<A>()
    ensures calls { (f : ℕ → Activity A) (cs : List (Call ℕ)) (q : ListsOf ℕ)
        → meant f (after cs q) ≡ after (map (meant_call f) cs) (meant f q) }
    ensures next_wake { (f : ℕ → Activity A) (q : ListsOf ℕ) → least (meant f q).sleepers ≡ least q.sleepers }
{}

/// Who passes a test is chosen of what stands for the keys as of the keys, and the others are left. So it makes no
/// difference whether the keys or what stands for them is looked at.
pub fn keys_are_chosen_alike<Y, Z>()
    ensures chosen { (test : Z → Bool) (f : ℕ → Y) (ps : List (Z × ℕ))
        → chosen test (keyed f ps) ≡ map f (chosen test ps) }
    ensures left { (test : Z → Bool) (f : ℕ → Y) (ps : List (Z × ℕ)) → left test (keyed f ps) ≡ keyed f (left test ps) }
{}

/// Where something else stands for some keys than before, the lists mean what they meant wherever none of these keys
/// stands in them. And where all waiters that hear an event become ready, and what stands for each of them has the
/// event's value, that is what the world does to its waiters.
pub fn woken_keys_have_the_value<A>()
    ensures others { (f f2 : ℕ → Activity A) (q : ListsOf ℕ)
        → ((key : ℕ) → 1 ≤ how_often key (listed q) → f2 key ≡ f key) → meant f2 q ≡ meant f q }
    ensures woken { (f f2 : ℕ → Activity A) (e : Event) (q : ListsOf ℕ) → IsOnce q
        → ((key : ℕ) → 1 ≤ how_often key (chosen (hears e) q.waiters) → f2 key ≡ woken e.value (f key))
        → ((key : ℕ) → how_often key (chosen (hears e) q.waiters) ≡ 0 → f2 key ≡ f key)
        → meant f2 (all_woken e q) ≡ woken_by e (meant f q) }
{}

/// As many wakings of a waiter as there are waiters that hear the event make all of those ready, in order, and the
/// others wait on.
pub fn wakings_add_up<Y>()
    ensures { (e : Event) (n : ℕ) (q : ListsOf Y) → length (chosen (hears e) q.waiters) ≤ n →
        after (times n (WakeWaiter e)) q ≡ all_woken e q }
{}

/// What the moves of the world do to its lists are calls.
pub fn moves_are_calls<A, S>()
    ensures jump { (t : ℕ) (w : World A S) → lists_of (jump t w) ≡ called (WakeDue t) (lists_of w) }
    ensures leaves { (a : Activity A) (others : List (Activity A)) (shared : S) (w : World A S) → w.ready ≡ a ∷ others →
        lists_of (leaves a others shared w) ≡ called Next (lists_of w) }
    ensures pauses { (K : Kind A S) (a : Activity A) (others : List (Activity A)) (n : ℤ) (self : A) (shared : S)
        (w : World A S) → w.ready ≡ a ∷ others → lacks_seat a w.board ≡ false →
        lists_of (acted K a others w (Pauses n self shared))
        ≡ after (Next ∷ Sleep (blocked_as a self) (wake_time w.board.clock n) ∷ []) (lists_of w) }
    ensures waits { (K : Kind A S) (a : Activity A) (others : List (Activity A)) (e : Event) (self : A) (shared : S)
        (w : World A S) → w.ready ≡ a ∷ others → lacks_seat a w.board ≡ false →
        lists_of (acted K a others w (Waits e self shared))
        ≡ after (Next ∷ Wait (blocked_as a self) e ∷ []) (lists_of w) }
{}
