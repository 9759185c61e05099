// The words of the command line.
use clap::error::ErrorKind;
use clap::{Arg, ArgAction, ArgMatches, Command, Error};
use std::alloc::{AllocError, Global};
use sts_base::NoMemory;

/// How many columns a view has where none are given, and at most.
const COLUMNS: usize = 80;

const MOST_COLUMNS: usize = 100_000;

/// What is asked for: the file that is read, if it isn't standard input; the file of the program whose refusal is explained,
/// and of the script, class file or arrivals, if one is; a page's title,
/// if one is given; how wide the text is; whether it is a page; whether it has all lines.
#[derive(Clone, Copy, Drop)]
pub struct Asked<'a> {
    pub file: Option<&'a str>,
    pub program: Option<&'a str>,
    pub input: Option<&'a str>,
    pub title: Option<&'a str>,
    pub width: usize,
    pub html: bool,
    pub all: bool,
}

/// A word that begins with two hyphens.
fn option<'a>(alloc: Global, name: &'a str, action: ArgAction) -> Arg<'a> {
    Arg::new(alloc, name).long(name).action(action)
}

fn command<'a>(alloc: Global) -> Result<Command<'a>, AllocError> {
    let line = Command::new(alloc, "view")
        .no_binary_name(true)
        .disable_help_flag(true);
    line.arg(Arg::new(alloc, "file").action(ArgAction::Set))?
        .arg(option(alloc, "width", ArgAction::Set))?
        .arg(option(alloc, "program", ArgAction::Set))?
        .arg(option(alloc, "input", ArgAction::Set))?
        .arg(option(alloc, "title", ArgAction::Set))?
        .arg(option(alloc, "all", ArgAction::SetTrue))?
        .arg(option(alloc, "html", ArgAction::SetTrue))
}

/// The columns that a word asks for, from 1 on.
fn columns_of(word: Option<&str>) -> Option<usize> {
    match word {
        None => Some(COLUMNS),
        Some(number) => match number.parse::<usize>() {
            Ok(columns) if 1 <= columns && columns <= MOST_COLUMNS => Some(columns),
            _ => None,
        },
    }
}

/// What is asked for, where the number of columns is one.
fn asked_by<'a>(matches: &ArgMatches<'a>) -> Option<Asked<'a>> {
    Some(Asked {
        file: matches.get_str("file"),
        program: matches.get_str("program"),
        input: matches.get_str("input"),
        title: matches.get_str("title"),
        width: columns_of(matches.get_str("width"))?,
        html: matches.get_flag("html"),
        all: matches.get_flag("all"),
    })
}

fn matches_of<'a>(alloc: Global, words: &'a [String]) -> Result<ArgMatches<'a>, Error> {
    let line = command(alloc)?;
    line.try_get_matches_from(words)
}

/// What the words behind the program's name ask for, if they are taken.
pub fn read_words<'a>(alloc: Global, words: &'a [String]) -> Result<Option<Asked<'a>>, NoMemory> {
    match matches_of(alloc, words) {
        Ok(matches) => Ok(asked_by(&matches)),
        Err(error) if error.kind() == ErrorKind::OutOfMemory => Err(NoMemory),
        Err(_) => Ok(None),
    }
}
