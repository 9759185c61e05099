// Over the world's moves a bus goes on saying what the world says.
ghost use Rattle.std.specs.Prelude.{◌≡◌, ◌<◌, ◌≤◌, ℕ, ℤ, List, [], ◌∷◌, ◌++◌, length, map, Some, None, nat_le, nat_lt, ◌&&◌, not, true, false};
ghost use Rattle.board_world.specs.declared.events.Event.{Event};
ghost use Rattle.board_world.specs.declared.events.Listener.{Listener};
ghost use Rattle.board_world.specs.Limits.{listener_limit, raiser_limit};
ghost use Rattle.board_world.specs.Observations.{End};
ghost use Rattle.board_world.specs.Board.{Board, raised, arrive_all};
ghost use Rattle.std.specs.List.{list_any};
ghost use Rattle.board_world.specs.Waiting.{none, how_many, handler_of};
ghost use Rattle.board_world.specs.Activities.{Activity, World, handlers, holding};
ghost use Rattle.board_world.specs.Kinds.{Kind, Question, Goes, Asks, Takes, Pauses, Waits, Spawns, Listens, RaisesNow};
ghost use Rattle.board_world.specs.World.{dispatch, acted, ends, leaves, stops, jump};
ghost use Rattle.message_bus.specs.ListenerState.{ListenerState, fresh, begins_new, heard, ended};
ghost use Rattle.message_bus.specs.BusState.{BusState, queued, begun_bits, changed};
ghost use Rattle.message_bus.specs.Numbers.{numbers, beginning, IsRising};
ghost use Rattle.message_bus.specs.Agreement.{Agrees, hearings, handler_activity, begun, asked_queue};

/// Where a bus agrees with a world, the listeners that begin are the world's new activities for an event, in order, and
/// the events that the listeners hold behind it are the world's. So `Bus::begins` is true exactly where the world has a
/// new activity.
pub fn hearing_is_the_worlds<A, S>()
    ensures begun { (make : ℕ → A) (e : Event) (b : BusState) (w : World A S) → Agrees b w
        → handlers make e w 0 w.listeners ≡ begun make e 0 b.listeners }
    ensures by_number { (make : ℕ → A) (e : Event) (b : BusState) (w : World A S) → Agrees b w
        → handlers make e w 0 w.listeners
        ≡ map (λ i. handler_activity (make (handler_of i (hearings b.listeners))) e i) (beginning e 0 b.listeners) }
    ensures begins { (make : ℕ → A) (e : Event) (b : BusState) (w : World A S) → Agrees b w
        → none (handlers make e w 0 w.listeners) ≡ not (list_any (begins_new e) b.listeners) }
    ensures held { (e : Event) (b : BusState) (w : World A S) → Agrees b w
        → holding e w 0 w.listeners ≡ hearings (map (heard e) b.listeners) }
{}

/// The set of bits that `Bus::dispatch` gives has the numbers of the listeners that begin. They ascend, and each is that
/// of a listener.
pub fn bits_are_the_numbers()
    ensures bits { (e : Event) (ls : List ListenerState) → length ls ≤ listener_limit
        → numbers listener_limit 0 (begun_bits e ls) ≡ beginning e 0 ls }
    ensures rising { (e : Event) (ls : List ListenerState) → IsRising 0 (beginning e 0 ls) (length ls) }
{}

/// A listener's number keeps its function: when listeners hear an event, when an activity ends or begins again, and when
/// a listener comes.
pub fn handlers_stay()
    ensures hearing { (e : Event) (i : ℕ) (ls : List ListenerState)
        → handler_of i (hearings (map (heard e) ls)) ≡ handler_of i (hearings ls) }
    ensures ending { (i k : ℕ) (ls : List ListenerState)
        → handler_of i (hearings (changed ended k ls)) ≡ handler_of i (hearings ls) }
    ensures coming { (l : Listener) (i : ℕ) (ls : List ListenerState) → i < length ls
        → handler_of i (hearings (ls ++ fresh l ∷ [])) ≡ handler_of i (hearings ls) }
{}

/// A raise does to the bus what it does to the board.
pub fn raises_are_the_worlds()
    ensures { (e : Event) (board : Board) → (raised e board).queue ≡ queued e board.queue }
{}

/// A bus that agrees with a world still does behind each move of the world that concerns it, where the bus is called:
/// a dispatch, where the event is taken from the queue and heard; an event that is raised at once, where it is heard;
/// a new listener; and the end of a listener's activity, which may begin again.
pub fn moves_agree<A, S>()
    ensures dispatch { (K : Kind A S) (e : Event) (rest : List Event) (b : BusState) (w : World A S) → Agrees b w →
        Agrees (record b { queue = rest; listeners = map (heard e) b.listeners }) (dispatch K e rest w) }
    ensures raise_now { (K : Kind A S) (a : Activity A) (others : List (Activity A)) (e : Event) (above : ℕ → A)
        (self : A) (shared : S) (b : BusState) (w : World A S) → Agrees b w → w.ready ≡ a ∷ others
        → (not (none (handlers above e w 0 w.listeners)) && nat_le raiser_limit (how_many (λ c. c.suspended) others))
        ≡ false
        → Agrees (record b { listeners = map (heard e) b.listeners })
        (acted K a others w (RaisesNow e above self shared)) }
    ensures listen { (K : Kind A S) (a : Activity A) (others : List (Activity A)) (l : Listener) (self : A) (shared : S)
        (b : BusState) (w : World A S) → Agrees b w → w.ready ≡ a ∷ others
        → nat_lt (length w.listeners) listener_limit ≡ true
        → Agrees (record b { listeners = b.listeners ++ fresh l ∷ [] }) (acted K a others w (Listens l self shared)) }
    ensures end { (a : Activity A) (others : List (Activity A)) (again : ℕ → A) (shared : S) (i : ℕ) (b : BusState)
        (w : World A S) → Agrees b w → w.ready ≡ a ∷ others → a.listener ≡ Some i
        → Agrees (record b { listeners = changed ended i b.listeners }) (ends a others again shared (Some i) w) }
{}

/// A bus that agrees with a world still does behind each other turn of an activity, each other end and each move of the
/// clock, where the bus isn't called, except that an event that is raised joins its queue: by what an activity asks, or
/// by what the script does at a moment.
pub fn other_moves_agree<A, S>()
    ensures goes { (K : Kind A S) (a : Activity A) (others : List (Activity A)) (self : A) (shared : S) (b : BusState)
        (w : World A S) → Agrees b w → w.ready ≡ a ∷ others →
        Agrees b (acted K a others w (Goes self shared)) }
    ensures asks { (K : Kind A S) (a : Activity A) (others : List (Activity A)) (q : Question) (next : ℤ → A × S)
        (b : BusState) (w : World A S) → Agrees b w → w.ready ≡ a ∷ others →
        Agrees (record b { queue = asked_queue q b.queue }) (acted K a others w (Asks q next)) }
    ensures takes { (K : Kind A S) (a : Activity A) (others : List (Activity A)) (n : ℕ) (next : ℕ → A × S)
        (b : BusState) (w : World A S) → Agrees b w → w.ready ≡ a ∷ others →
        Agrees b (acted K a others w (Takes n next)) }
    ensures pauses { (K : Kind A S) (a : Activity A) (others : List (Activity A)) (n : ℤ) (self : A) (shared : S)
        (b : BusState) (w : World A S) → Agrees b w → w.ready ≡ a ∷ others →
        Agrees b (acted K a others w (Pauses n self shared)) }
    ensures waits { (K : Kind A S) (a : Activity A) (others : List (Activity A)) (e : Event) (self : A) (shared : S)
        (b : BusState) (w : World A S) → Agrees b w → w.ready ≡ a ∷ others →
        Agrees b (acted K a others w (Waits e self shared)) }
    ensures spawns { (K : Kind A S) (a : Activity A) (others : List (Activity A)) (f : ℕ) (self : A) (shared : S)
        (b : BusState) (w : World A S) → Agrees b w → w.ready ≡ a ∷ others →
        Agrees b (acted K a others w (Spawns f self shared)) }
    ensures leaves { (a : Activity A) (others : List (Activity A)) (shared : S) (b : BusState) (w : World A S) →
        Agrees b w → w.ready ≡ a ∷ others → a.listener ≡ None →
        Agrees b (leaves a others shared w) }
    ensures stops { (end : End) (b : BusState) (w : World A S) → Agrees b w → Agrees b (stops end w) }
    ensures jump { (t : ℕ) (b : BusState) (w : World A S) → Agrees b w →
        Agrees (record b { queue = (arrive_all t w.board.script (record w.board { clock = t })).queue }) (jump t w) }
{}
