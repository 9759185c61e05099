// The parts of the form: each is read as what it says; and small classes.
ghost use Rattle.std.specs.Prelude.{◌≡◌, ◌≤◌, ◌<◌, ℕ, List, length, Some, None, Ok, Err, codes, [], ◌∷◌};
ghost use Rattle.serde_json.specs.Data.{Data, Items, no_items, item};
ghost use Rattle.board_world.specs.Limits.{end_limit};
ghost use Rattle.event_script.specs.Names.{HasExactly};
ghost use Rattle.class_file.specs.Limits.{last_board};
ghost use Rattle.event_script.specs.Trees.{items_of};
ghost use Rattle.class_file.specs.declared.class.ClassFile.{ClassFile};
ghost use Rattle.class_file.specs.declared.class.Names.{Names};
ghost use Rattle.class_file.specs.declared.class.Loss.{Loss};
ghost use Rattle.class_file.specs.declared.class.ClassCode.TheVariants.{NotClass, BadCount};
ghost use Rattle.class_file.specs.Form.{names_of, loss_of, class_of};
ghost use Rattle.class_file.specs.Verdict.{judged, judged_form};
ghost use Rattle.class_file.specs.Shapes.{names_tree, loss_tree, class_tree};
ghost use Rattle.class_file.specs.Rows.{alike, one_loss, class_of_boards, read_of_boards, with_more};

/// Two texts are a board, three numbers within their limits a loss, and an end with lists of those a class.
pub fn parts_are_classes()
    ensures names { (program script : List ℕ)
        → names_of (names_tree program script) ≡ Some (record { program = program; script = script }) }
    ensures losses { (at sender hearer : ℕ) → at ≤ end_limit → sender ≤ last_board → hearer ≤ last_board →
        loss_of (loss_tree at sender hearer) ≡ Some (record { at = at; «from» = sender; to = hearer }) }
    ensures classes { (end : ℕ) (boards lose : Items) (names : List Names) (losses : List Loss) → end ≤ end_limit →
        items_of names_of boards ≡ Some names → items_of loss_of lose ≡ Some losses →
        class_of (class_tree end boards lose) ≡ Some (record { end = end; boards = names; lose = losses }) }
{}

/// A board's object has exactly the members `program` and `script`, a loss's exactly `at`, `from` and `to`, and a class's
/// exactly `end`, `boards` and `lose`.
pub fn members_are_exact()
    ensures names { (d : Data) (n : Names) → names_of d ≡ Some n
        → HasExactly (codes "program" ∷ codes "script" ∷ []) d }
    ensures losses { (d : Data) (l : Loss) → loss_of d ≡ Some l
        → HasExactly (codes "at" ∷ codes "from" ∷ codes "to" ∷ []) d }
    ensures classes { (d : Data) (c : ClassFile) → class_of d ≡ Some c
        → HasExactly (codes "end" ∷ codes "boards" ∷ codes "lose" ∷ []) d }
{}

/// Small classes, and trees that are none.
pub fn worked_classes()
    ensures one { judged_form (class_of (class_of_boards 1)) ≡ Ok (read_of_boards 1) }
    ensures eight { judged_form (class_of (class_of_boards 8)) ≡ Ok (read_of_boards 8) }
    ensures none { judged_form (class_of (class_of_boards 0)) ≡ Err BadCount }
    ensures nine { judged_form (class_of (class_of_boards 9)) ≡ Err BadCount }
    ensures latest { judged_form (class_of (class_tree 1073741824 (alike 1) no_items)) ≡ Ok (record { end = 1073741824; boards = record { program = codes "p.ts"; script = codes "s.json" } ∷ []; lose = [] }) }
    ensures too_late { judged_form (class_of (class_tree 1073741825 (alike 1) no_items)) ≡ Err NotClass }
    ensures last_board { judged_form (class_of (class_tree 1000 (alike 1) (item (loss_tree 0 7 7) no_items)))
        ≡ Ok (record { end = 1000; boards = record { program = codes "p.ts"; script = codes "s.json" } ∷ []; lose = record { at = 0; «from» = 7; to = 7 } ∷ [] }) }
    ensures no_such_board { judged_form (class_of (class_tree 1000 (alike 1) (item (loss_tree 0 0 8) no_items)))
        ≡ Err NotClass }
    ensures more { judged_form (class_of with_more) ≡ Err NotClass }
    ensures no_such_sender { judged_form (class_of (class_tree 1000 (alike 1) (item (loss_tree 0 8 0) no_items)))
        ≡ Err NotClass }
    ensures form_before_count { judged_form (class_of (class_tree 1000 no_items (item (loss_tree 0 8 0) no_items)))
        ≡ Err NotClass }
{}

/// A class has one board to eight, and at most 4,096 losses.
pub fn counts_are_limited()
    ensures within { (c : ClassFile) → 1 ≤ length c.boards → length c.boards ≤ 8 → length c.lose ≤ 4096
        → judged c ≡ Ok c }
    ensures boards { (c : ClassFile) → 8 < length c.boards → judged c ≡ Err BadCount }
    ensures losses { (c : ClassFile) → 4096 < length c.lose → judged c ≡ Err BadCount }
{}
