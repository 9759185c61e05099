// What `clap`'s matches ask for.
ghost use Rattle.std.specs.Prelude.{◌≡◌, IfSome, ℕ, List, Some, codes, slice_get, option_and_then};
ghost use Rattle.std.specs.Option.{option_map};
ghost use Rattle.clap.specs.Words.{Row, rows_of, found_of, subcommand_rows_of};
ghost use Rattle.sts_words.specs.Orders.{order_view, IsInRange, HasBudget};
ghost use Rattle.sts_words.specs.Views.{said_view, names_view};
ghost use Rattle.sts_words.specs.Words.{Said, asked_by};
ghost use Rattle.command_line.specs.Found.{Says};

use clap::ArgMatches;
use sts_words::{Given, Names, Order, asked_by};

/// The names, of which each stands only behind the one before.
fn names_in<'a>(matches: &ArgMatches<'a>) -> Names<'a>
    ensures { (said : Said) → Says said (rows_of (found_of matches.now)) → names_view result ≡ said.names }
{
    match matches.get_str("name") {
        None => Names::Nothing,
        Some(name) => match matches.get_str("script") {
            None => Names::One(name),
            Some(script) => match matches.get_str("arrivals") {
                None => Names::Two(name, script),
                Some(arrivals) => Names::Three(name, script, arrivals),
            },
        },
    }
}

/// What the matches of a command say.
fn given_in<'a>(matches: &ArgMatches<'a>) -> Option<Given<'a>>
    ensures said { (said : Said) → Says said (rows_of (found_of matches.now))
        → option_map said_view result ≡ Some said }
    ensures range { IfSome result (λ given. HasBudget given.budget) }
{
    let given = Given {
        names: names_in(matches),
        budget: None,
        stats: matches.get_flag("stats"),
        image: matches.get_flag("image"),
    };
    match matches.get_str("budget") {
        None => Some(given),
        Some(number) => given.with_budget(number),
    }
}

/// What the matches ask for.
pub fn order_in<'a>(matches: &ArgMatches<'a>) -> Option<Order<'a>>
    ensures order { (command : List ℕ) (rows : List Row) (said : Said)
        → subcommand_rows_of matches.now ≡ Some (command, rows) → Says said rows
        → option_map order_view result ≡ asked_by command said }
    ensures range { IfSome result IsInRange }
{
    let (command, below) = matches.subcommand()?;
    asked_by(command, given_in(below)?)
}
