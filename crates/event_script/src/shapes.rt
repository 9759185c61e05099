// The rows of the form: each is read as what it says.
ghost use Rattle.std.specs.Prelude.{◌≡◌, ◌≤◌, ℕ, List, Some, codes, pos, [], ◌∷◌};
ghost use Rattle.serde_json.specs.Data.{Data, Items};
ghost use Rattle.board_world.specs.Limits.{end_limit, last_port};
ghost use Rattle.event_script.specs.Limits.{greatest_number};
ghost use Rattle.event_script.specs.declared.script.Script.{Script};
ghost use Rattle.event_script.specs.Names.{HasExactly, names_of};
ghost use Rattle.event_script.specs.declared.script.Act.TheVariants.{Down, Up, Raise, Unplug};
ghost use Rattle.event_script.specs.declared.script.Entry.{Entry};
ghost use Rattle.event_script.specs.Form.{entry_of, entries_of, script_of};
ghost use Rattle.event_script.specs.Shapes.{press_tree, raise_tree, unplug_tree, script_tree};

/// Each row of the form is an entry, at every moment and with every number that it may have.
pub fn rows_are_entries()
    ensures down_a { (t : ℕ) → t ≤ end_limit
        → entry_of (press_tree t (codes "down") (codes "A")) ≡ Some (record { at = t; act = Down 1 }) }
    ensures down_b { (t : ℕ) → t ≤ end_limit
        → entry_of (press_tree t (codes "down") (codes "B")) ≡ Some (record { at = t; act = Down 2 }) }
    ensures up_a { (t : ℕ) → t ≤ end_limit
        → entry_of (press_tree t (codes "up") (codes "A")) ≡ Some (record { at = t; act = Up 1 }) }
    ensures up_b { (t : ℕ) → t ≤ end_limit
        → entry_of (press_tree t (codes "up") (codes "B")) ≡ Some (record { at = t; act = Up 2 }) }
    ensures raise { (t source value : ℕ) → t ≤ end_limit → source ≤ greatest_number → value ≤ greatest_number →
        entry_of (raise_tree t source value)
        ≡ Some (record { at = t; act = Raise (record { source = pos source; value = pos value }) }) }
    ensures unplug { (t port : ℕ) → t ≤ end_limit → port ≤ last_port
        → entry_of (unplug_tree t port) ≡ Some (record { at = t; act = Unplug port }) }
{}

/// An object of an end and a list of such entries is a script.
pub fn lists_of_entries_are_scripts()
    ensures { (end : ℕ) (events : Items) (entries : List Entry) → end ≤ end_limit → entries_of events ≡ Some entries →
        script_of (script_tree end events) ≡ Some (record { end = end; entries = entries }) }
{}

/// An entry's object has exactly the members of its row, and a script's exactly `end` and `events`.
pub fn members_are_exact()
    ensures entries { (d : Data) (e : Entry) → entry_of d ≡ Some e → HasExactly (names_of e.act) d }
    ensures scripts { (d : Data) (s : Script) → script_of d ≡ Some s
        → HasExactly (codes "end" ∷ codes "events" ∷ []) d }
{}
