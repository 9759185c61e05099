// Laws of the words.
ghost use Rattle.std.specs.Prelude.{◌≡◌, ℕ, List};
ghost use Rattle.std.specs.declared.option.Option.{Option};
ghost use Rattle.sts_words.specs.Orders.{Asked};
ghost use Rattle.sts_words.specs.Words.{IsAskedBy};

/// Words ask for one thing at most, however parts may be found that they spell: what they ask for is one, or nothing.
pub fn words_ask_for_one_thing()
    ensures some { (words : List (List ℕ)) → (asked : Option Asked) × IsAskedBy words asked }
    ensures one { (words : List (List ℕ)) (first second : Option Asked)
        → IsAskedBy words first → IsAskedBy words second → first ≡ second }
{}
