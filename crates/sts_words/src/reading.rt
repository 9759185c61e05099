// The words, read.
ghost use Rattle.std.specs.Prelude.{◌≡◌, List, ℕ, Bool, IfSome, Some, true, false, ◌∷◌, map, string_bytes, option_and_then, unwrap_or, codes, if◌then◌else◌};
ghost use Rattle.std.specs.Option.{option_map};
ghost use Rattle.std.specs.Str.{bytes_eq};
ghost use Rattle.sts_words.specs.Orders.{order_view, IsInRange, IsBudget, HasBudget, default_budget};
ghost use Rattle.sts_words.specs.Words as spec;
ghost use Rattle.sts_words.specs.Views.{added, budget_part, names_view, part_of, said_view, spoken};

use crate::numbers::read_number;
use crate::order::Order;
use crate::said::{Given, Names};

/// The budget of instructions where none is given.
const DEFAULT_BUDGET: u32 = 50_000_000;

/// The greatest size of a generated program.
const MOST_SIZE: u32 = 200;

/// What is said with one more word, and whether the number of a budget is due behind it. `awaits` says whether the word is to be one.
fn with_word<'a>(given: Given<'a>, awaits: bool, word: &'a str) -> Option<(Given<'a>, bool)>
    ensures next { option_map {U = spec.Said × Bool} (λ after. (said_view after.0, after.1)) result
        ≡ (if awaits then option_map (λ more. (more, false))
        (option_and_then (added (said_view given.entry)) (budget_part word.entry.now))
        else if bytes_eq word.entry.now (codes "--budget") then Some (said_view given.entry, true)
        else option_map (λ more. (more, false))
        (option_and_then (added (said_view given.entry)) (part_of word.entry.now))) }
    ensures range { HasBudget given.entry.budget → IfSome result (λ after. HasBudget after.0.budget) }
{
    if awaits {
        Some((given.with_budget(word)?, false))
    } else if word == "--budget" {
        Some((given, true))
    } else {
        Some((given.with(word)?, false))
    }
}

/// What the words behind a command say, if each is a part and each option stands at most once: what a command asks for by that, if it does, is what
/// the words with the command in front ask for.
fn given_by<'a>(words: &'a [String]) -> Option<Given<'a>>
    ensures said { (command : List ℕ) → spec.IsAskedBy (command ∷ map string_bytes words.now)
        (option_and_then (spec.asked_by command) (option_map said_view result)) }
    ensures range { IfSome result (λ given. HasBudget given.budget) }
{
    let mut so_far = (Given::nothing(), false);
    for word in words {
        so_far = with_word(so_far.0, so_far.1, word.as_str())?;
    }
    if so_far.1 { None } else { Some(so_far.0) }
}

/// The name, where there is one.
fn one_name<'a>(names: Names<'a>) -> Option<&'a str>
    ensures { option_map spoken result ≡ spec.one_name (names_view names.entry) }
{
    match names {
        Names::One(name) => Some(name),
        Names::Nothing | Names::Two(_, _) | Names::Three(_, _, _) => None,
    }
}

/// One name, and that of a script or none.
fn with_script<'a>(names: Names<'a>) -> Option<(&'a str, Option<&'a str>)>
    ensures { option_map (λ named. (named.0.now, option_map spoken named.1)) result
        ≡ spec.with_script (names_view names.entry) }
{
    match names {
        Names::Nothing | Names::Three(_, _, _) => None,
        Names::One(name) => Some((name, None)),
        Names::Two(name, script) => Some((name, Some(script))),
    }
}

/// The name of a command that has no options.
fn plain_name<'a>(given: Given<'a>) -> Option<&'a str>
    ensures { option_map spoken result ≡ spec.plain_name (said_view given.entry) }
{
    if given.budget.is_some() || given.stats || given.image {
        None
    } else {
        one_name(given.names)
    }
}

/// The budget that was said, or the one where none is.
fn budget_of(given: Given<'_>) -> u32
    requires { HasBudget given.budget }
    ensures value { result ≡ unwrap_or (said_view given.entry).budget default_budget }
    ensures range { IsBudget result }
{
    match given.budget {
        Some(budget) => budget,
        None => DEFAULT_BUDGET,
    }
}

/// What `run` asks for. `--image` stands only where `--stats` stands too.
fn run_by<'a>(given: Given<'a>) -> Option<Order<'a>>
    requires { HasBudget given.budget }
    ensures order { option_map order_view result ≡ spec.run_by (said_view given.entry) }
    ensures range { IfSome result IsInRange }
{
    if given.image && !given.stats {
        return None;
    }
    let (program, script) = with_script(given.names)?;
    Some(Order::Run {
        program,
        script,
        budget: budget_of(given),
        stats: given.stats,
        image: given.image,
    })
}

/// What `run-hex` asks for.
fn run_hex_by<'a>(given: Given<'a>) -> Option<Order<'a>>
    requires { HasBudget given.budget }
    ensures order { option_map order_view result ≡ spec.run_hex_by (said_view given.entry) }
    ensures range { IfSome result IsInRange }
{
    if given.stats || given.image {
        return None;
    }
    let (image, script) = with_script(given.names)?;
    Some(Order::RunHex {
        image,
        script,
        budget: budget_of(given),
    })
}

/// What `run-at` asks for.
fn run_at_by<'a>(given: Given<'a>) -> Option<Order<'a>>
    requires { HasBudget given.budget }
    ensures order { option_map order_view result ≡ spec.run_at_by (said_view given.entry) }
    ensures range { IfSome result IsInRange }
{
    match given.names {
        Names::Three(program, script, arrivals) if !given.stats && !given.image => {
            Some(Order::RunAt {
                program,
                script,
                arrivals,
                budget: budget_of(given),
            })
        }
        _ => None,
    }
}

/// What `class` asks for.
fn class_by<'a>(given: Given<'a>) -> Option<Order<'a>>
    requires { HasBudget given.budget }
    ensures order { option_map order_view result ≡ spec.class_by (said_view given.entry) }
    ensures range { IfSome result IsInRange }
{
    match given.names {
        Names::One(name) if !given.stats && !given.image => Some(Order::Class {
            name,
            budget: budget_of(given),
        }),
        _ => None,
    }
}

/// What `big` asks for.
fn big_by<'a>(given: Given<'a>) -> Option<Order<'a>>
    requires { HasBudget given.budget }
    ensures order { option_map order_view result ≡ spec.big_by (said_view given.entry) }
    ensures range { IfSome result IsInRange }
{
    if given.image {
        return None;
    }
    let size = read_number(one_name(given.names)?, MOST_SIZE)?;
    Some(Order::Big {
        size,
        budget: budget_of(given),
        stats: given.stats,
    })
}

/// What a command asks for with what is said behind it; none where the word is no command, or the command doesn't take what is said.
pub fn asked_by<'a>(command: &str, given: Given<'a>) -> Option<Order<'a>>
    requires { HasBudget given.budget }
    ensures order { option_map order_view result ≡ spec.asked_by command.now (said_view given.entry) }
    ensures range { IfSome result IsInRange }
{
    if command == "check" {
        Some(Order::Check(plain_name(given)?))
    } else if command == "build" {
        Some(Order::Build(plain_name(given)?))
    } else if command == "run" {
        run_by(given)
    } else if command == "run-hex" {
        run_hex_by(given)
    } else if command == "run-at" {
        run_at_by(given)
    } else if command == "class" {
        class_by(given)
    } else if command == "big" {
        big_by(given)
    } else {
        None
    }
}

/// What the words ask for, those behind the program's name, if they are taken: a command, and behind it, in any order, its names in
/// their order and its options, each at most once. `--budget` is one word with its number behind `=`, or two.
pub fn read_words<'a>(words: &'a [String]) -> Option<Order<'a>>
    ensures order { spec.IsAskedBy (map string_bytes words.now) (option_map order_view result) }
    ensures range { IfSome result IsInRange }
{
    match words {
        [command, rest @ ..] => asked_by(command.as_str(), given_by(rest)?),
        [] => None,
    }
}
