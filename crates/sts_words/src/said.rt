// What the words behind a command say together.
ghost use Rattle.std.specs.Prelude.{◌≡◌, None, IfSome, option_and_then};
ghost use Rattle.std.specs.Option.{option_map};
ghost use Rattle.sts_words.specs.Orders.{HasBudget};
ghost use Rattle.sts_words.specs.Words as spec;
ghost use Rattle.sts_words.specs.Words.{nothing};
ghost use Rattle.sts_words.specs.Views.{added, behind_budget, budget_part, name_part, part_of, said_view, spoken};

use crate::numbers::read_number;

/// The greatest budget of instructions.
const MOST_BUDGET: u32 = 2_147_483_648;

/// Up to three names.
#[derive(Clone, Copy, Drop)]
pub enum Names<'a> {
    /// No name.
    Nothing,
    /// One name.
    One(&'a str),
    /// Two names, in their order.
    Two(&'a str, &'a str),
    /// Three names, in their order.
    Three(&'a str, &'a str, &'a str),
}

/// What the words behind a command say together: names, a budget in instructions where one is given, and whether `--stats` and `--image`
/// stand there.
#[derive(Clone, Copy, Drop)]
pub struct Given<'a> {
    /// The names.
    pub names: Names<'a>,
    /// The number of `--budget`.
    pub budget: Option<u32>,
    /// Whether `--stats` stands there.
    pub stats: bool,
    /// Whether `--image` stands there.
    pub image: bool,
}

/// Whether a word may be a file's name: it isn't empty and doesn't begin with a dash.
fn can_be_name(word: &str) -> bool
    ensures { result ≡ spec.is_name word.now }
{
    match word.as_bytes() {
        [] => false,
        [first, ..] => *first != b'-',
    }
}

/// What stands behind `--budget=` in a word that begins so.
fn behind_budget(word: &str) -> Option<&str>
    ensures { option_map spoken result ≡ behind_budget word.now }
{
    word.strip_prefix("--budget=")
}

impl<'a> Given<'a> {
    /// Nothing is said.
    pub fn nothing() -> Given<'a>
        ensures said { said_view result ≡ nothing }
        ensures range { HasBudget result.budget }
    {
        Given {
            names: Names::Nothing,
            budget: None,
            stats: false,
            image: false,
        }
    }

    /// The same with a budget, where the word is one and none stands there yet.
    pub fn with_budget(self, word: &str) -> Option<Given<'a>>
        ensures said { option_map said_view result
            ≡ option_and_then (added (said_view self.entry)) (budget_part word.now) }
        ensures range { HasBudget self.entry.budget → IfSome result (λ given. HasBudget given.budget) }
    {
        let number = read_number(word, MOST_BUDGET)?;
        match self.budget {
            None => Some(Given {
                names: self.names,
                budget: Some(number),
                stats: self.stats,
                image: self.image,
            }),
            Some(_) => None,
        }
    }

    /// The same with a name, where the word is one and fewer than three stand there.
    fn with_name(self, word: &'a str) -> Option<Given<'a>>
        ensures said { option_map said_view result
            ≡ option_and_then (added (said_view self.entry)) (name_part word.entry.now) }
        ensures range { HasBudget self.entry.budget → IfSome result (λ given. HasBudget given.budget) }
    {
        if !can_be_name(word) {
            return None;
        }
        let names = match self.names {
            Names::Nothing => Names::One(word),
            Names::One(first) => Names::Two(first, word),
            Names::Two(first, second) => Names::Three(first, second, word),
            Names::Three(_, _, _) => return None,
        };
        Some(Given {
            names,
            budget: self.budget,
            stats: self.stats,
            image: self.image,
        })
    }

    /// The same with `--stats`, where it doesn't stand there yet.
    fn with_stats(self) -> Option<Given<'a>>
        ensures said { option_map said_view result ≡ added (said_view self.entry) spec.the_stats }
        ensures range { HasBudget self.entry.budget → IfSome result (λ given. HasBudget given.budget) }
    {
        if self.stats {
            return None;
        }
        Some(Given {
            names: self.names,
            budget: self.budget,
            stats: true,
            image: self.image,
        })
    }

    /// The same with `--image`, where it doesn't stand there yet.
    fn with_image(self) -> Option<Given<'a>>
        ensures said { option_map said_view result ≡ added (said_view self.entry) spec.the_image }
        ensures range { HasBudget self.entry.budget → IfSome result (λ given. HasBudget given.budget) }
    {
        if self.image {
            return None;
        }
        Some(Given {
            names: self.names,
            budget: self.budget,
            stats: self.stats,
            image: true,
        })
    }

    /// The same with what a word says by itself, where it says something that may stand there.
    pub fn with(self, word: &'a str) -> Option<Given<'a>>
        ensures said { option_map said_view result
            ≡ option_and_then (added (said_view self.entry)) (part_of word.entry.now) }
        ensures range { HasBudget self.entry.budget → IfSome result (λ given. HasBudget given.budget) }
    {
        if word == "--stats" {
            return self.with_stats();
        }
        if word == "--image" {
            return self.with_image();
        }
        match behind_budget(word) {
            Some(number) => self.with_budget(number),
            None => self.with_name(word),
        }
    }
}
