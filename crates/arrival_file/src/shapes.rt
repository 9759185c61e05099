// The rows of the form: each is read as what it says; and small lists.
ghost use Rattle.std.specs.Prelude.{◌≡◌, ◌<◌, ◌≤◌, ℕ, List, length, false, Some, None, Ok, Err, codes, pos, [], ◌∷◌};
ghost use Rattle.serde_json.specs.Data.{Data, Items, no_items, item};
ghost use Rattle.event_script.specs.Limits.{greatest_number};
ghost use Rattle.event_script.specs.Names.{HasExactly};
ghost use Rattle.event_script.specs.Trees.{items_of};
ghost use Rattle.event_script.specs.declared.script.Act.TheVariants.{Down, Up, Raise};
ghost use Rattle.arrival_file.specs.Limits.{greatest_after};
ghost use Rattle.arrival_file.specs.declared.arrival.Arrival.{Arrival};
ghost use Rattle.arrival_file.specs.declared.arrival.ArrivalCode.TheVariants.{NotArrivals, OutOfOrder, TooMany};
ghost use Rattle.arrival_file.specs.Form.{arrival_of, arrivals_of};
ghost use Rattle.arrival_file.specs.Verdict.{falls, judged, judged_form};
ghost use Rattle.arrival_file.specs.Shapes.{press_tree, raise_tree, unplug_tree, arrivals_tree, two, names_of};

/// Each row of the form is an arrival, behind every number of instructions and with every number that it may have; an
/// unplug is none; and an object of a list of arrivals is that list.
pub fn rows_are_arrivals()
    ensures down_a { (n : ℕ) → 0 < n → n ≤ greatest_after
        → arrival_of (press_tree n (codes "down") (codes "A")) ≡ Some (record { after = n; act = Down 1 }) }
    ensures down_b { (n : ℕ) → 0 < n → n ≤ greatest_after
        → arrival_of (press_tree n (codes "down") (codes "B")) ≡ Some (record { after = n; act = Down 2 }) }
    ensures up_a { (n : ℕ) → 0 < n → n ≤ greatest_after
        → arrival_of (press_tree n (codes "up") (codes "A")) ≡ Some (record { after = n; act = Up 1 }) }
    ensures up_b { (n : ℕ) → 0 < n → n ≤ greatest_after
        → arrival_of (press_tree n (codes "up") (codes "B")) ≡ Some (record { after = n; act = Up 2 }) }
    ensures raise { (n source value : ℕ) → 0 < n → n ≤ greatest_after → source ≤ greatest_number →
        value ≤ greatest_number →
        arrival_of (raise_tree n source value)
        ≡ Some (record { after = n; act = Raise (record { source = pos source; value = pos value }) }) }
    ensures unplug { (n port : ℕ) → arrival_of (unplug_tree n port) ≡ None }
    ensures lists { (items : Items) (arrivals : List Arrival) → items_of arrival_of items ≡ Some arrivals
        → arrivals_of (arrivals_tree items) ≡ Some arrivals }
{}

/// An arrival's object has exactly the members of its row, and the whole exactly `arrivals`.
pub fn members_are_exact()
    ensures rows { (d : Data) (a : Arrival) → arrival_of d ≡ Some a → HasExactly (names_of a.act) d }
    ensures lists { (d : Data) (arrivals : List Arrival) → arrivals_of d ≡ Some arrivals
        → HasExactly (codes "arrivals" ∷ []) d }
{}

/// Small lists, and trees that are none.
pub fn worked_arrivals()
    ensures none { judged_form (arrivals_of (arrivals_tree no_items)) ≡ Ok [] }
    ensures rising { judged_form
        (arrivals_of (two (raise_tree 1 50 7) (press_tree 2147483648 (codes "down") (codes "A"))))
        ≡ Ok (record { after = 1; act = Raise (record { source = pos 50; value = pos 7 }) }
        ∷ record { after = 2147483648; act = Down 1 } ∷ []) }
    ensures equal { judged_form
        (arrivals_of (two (press_tree 9 (codes "up") (codes "B")) (press_tree 9 (codes "down") (codes "B"))))
        ≡ Ok (record { after = 9; act = Up 2 } ∷ record { after = 9; act = Down 2 } ∷ []) }
    ensures falling { judged_form (arrivals_of (two (raise_tree 2 50 7) (raise_tree 1 50 7))) ≡ Err OutOfOrder }
    ensures at_once { judged_form (arrivals_of (two (raise_tree 0 50 7) (raise_tree 1 50 7))) ≡ Err NotArrivals }
    ensures too_late { judged_form (arrivals_of (two (raise_tree 1 50 7) (raise_tree 2147483649 50 7)))
        ≡ Err NotArrivals }
    ensures unplugged { judged_form (arrivals_of (two (raise_tree 2 50 7) (unplug_tree 1 1))) ≡ Err NotArrivals }
{}

/// There are at most 4,096 arrivals.
pub fn counts_are_limited()
    ensures within { (arrivals : List Arrival) → falls arrivals ≡ false → length arrivals ≤ 4096
        → judged arrivals ≡ Ok arrivals }
    ensures more { (arrivals : List Arrival) → falls arrivals ≡ false → 4096 < length arrivals
        → judged arrivals ≡ Err TooMany }
{}
