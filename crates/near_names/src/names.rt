// The nearest of some names.
ghost use Rattle.std.specs.Prelude.{◌≡◌, map};
ghost use Rattle.std.specs.Option.{option_map};
ghost use Rattle.near_names.specs.Nearest as spec;

/// Whether two words have the same letters, and not all in the same case.
fn in_other_case(word: &[u8], name: &[u8]) -> bool
    ensures { result ≡ spec.in_other_case word.now name.now }
{
    word.eq_ignore_ascii_case(name) && word != name
}

/// Whether a word is another with one letter more.
#[tactic(auto, unfolding(crate::specs::Nearest::has_one_more))]
fn has_one_more(word: &[u8], name: &[u8]) -> bool
    ensures { result ≡ spec.has_one_more word.now name.now }
{
    match (word, name) {
        ([], _) => false,
        ([_, long @ ..], []) => long.is_empty(),
        ([letter, long @ ..], [first, short @ ..]) => {
            long == name || (*letter == *first && has_one_more(long, short))
        }
    }
}

/// Whether a word is another with one letter other.
#[tactic(auto, unfolding(crate::specs::Nearest::has_one_other))]
fn has_one_other(word: &[u8], name: &[u8]) -> bool
    ensures { result ≡ spec.has_one_other word.now name.now }
{
    match word {
        [] => false,
        [letter, word @ ..] => match name {
            [] => false,
            [first, name @ ..] => {
                if *letter == *first {
                    has_one_other(word, name)
                } else {
                    word == name
                }
            }
        },
    }
}

/// Whether what follows two letters begins with them exchanged, and is the same from there on.
fn begin_exchanged(a: u8, c: u8, word: &[u8], name: &[u8]) -> bool
    ensures { result ≡ spec.begin_exchanged a c word.now name.now }
{
    match word {
        [] => false,
        [b, word @ ..] => match name {
            [] => false,
            [d, name @ ..] => a == *d && (*b == c && word == name),
        },
    }
}

/// Whether a word is another with two neighbours exchanged.
#[tactic(auto, unfolding(crate::specs::Nearest::has_two_exchanged))]
fn has_two_exchanged(word: &[u8], name: &[u8]) -> bool
    ensures { result ≡ spec.has_two_exchanged word.now name.now }
{
    match word {
        [] => false,
        [a, word @ ..] => match name {
            [] => false,
            [c, name @ ..] => {
                if *a == *c {
                    has_two_exchanged(word, name)
                } else {
                    begin_exchanged(*a, *c, word, name)
                }
            }
        },
    }
}

/// Whether one letter is more, less or other, or two are exchanged.
fn has_one_change(word: &[u8], name: &[u8]) -> bool
    ensures { result ≡ spec.has_one_change word.now name.now }
{
    (has_one_more(word, name) || has_one_more(name, word))
        || (has_one_other(word, name) || has_two_exchanged(word, name))
}

/// The first name in another case.
#[tactic(auto, unfolding(crate::specs::Nearest::first_that))]
fn first_in_case<'a>(names: &[&'a [u8]], word: &[u8]) -> Option<&'a [u8]>
    ensures { option_map (λ name. name.now) result
        ≡ spec.first_that (spec.in_other_case word.now) (map (λ name. name.now) names.now) }
{
    match names {
        [] => None,
        [name, rest @ ..] => {
            if in_other_case(word, *name) {
                Some(*name)
            } else {
                first_in_case(rest, word)
            }
        }
    }
}

/// The first name with one change.
#[tactic(auto, unfolding(crate::specs::Nearest::first_that))]
fn first_changed<'a>(names: &[&'a [u8]], word: &[u8]) -> Option<&'a [u8]>
    ensures { option_map (λ name. name.now) result
        ≡ spec.first_that (spec.has_one_change word.now) (map (λ name. name.now) names.now) }
{
    match names {
        [] => None,
        [name, rest @ ..] => {
            if has_one_change(word, *name) {
                Some(*name)
            } else {
                first_changed(rest, word)
            }
        }
    }
}

/// The nearest name: the first that is the word in another case, else the first that is it but for one letter more, less or other, or two exchanged.
pub fn nearest<'a>(names: &[&'a [u8]], word: &[u8]) -> Option<&'a [u8]>
    ensures { option_map (λ name. name.now) result ≡ spec.nearest word.now (map (λ name. name.now) names.now) }
{
    match first_in_case(names, word) {
        Some(name) => Some(name),
        None => first_changed(names, word),
    }
}
