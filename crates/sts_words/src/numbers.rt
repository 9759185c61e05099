// Numbers on a command line.
ghost use Rattle.std.specs.Prelude.{◌≡◌, ◌<◌, ◌≤◌, ◌^◌, true, SomeIff, IfSome};
ghost use Rattle.std.specs.Char.{is_ascii_digit};
ghost use Rattle.std.specs.List.{list_all};
ghost use Rattle.std.specs.Str.Parse.{digits_value};
ghost use Rattle.sts_words.specs.Words.{is_number, number_within};

/// Whether each byte is a decimal digit.
fn are_digits(bytes: &[u8]) -> bool
    ensures { result ≡ list_all is_ascii_digit bytes.now }
{
    bytes.iter().all(|byte| byte.is_ascii_digit())
}

/// Whether a word is one to ten decimal digits.
fn is_number(word: &str) -> bool
    ensures { result ≡ is_number word.now }
{
    let digits = word.as_bytes();
    match digits.len() {
        1..=10 => are_digits(digits),
        _ => false,
    }
}

/// The value of one to ten decimal digits, where it is below 2^32.
fn value_of(number: &str) -> Option<u32>
    requires { is_number number.now ≡ true }
    ensures { SomeIff result (digits_value 10 number.now < 2 ^ 32) (digits_value 10 number.now) }
{
    match number.parse::<u32>() {
        Ok(value) => Some(value),
        Err(_) => None,
    }
}

/// The number that a word is, if it is one to ten decimal digits with a value from 1 to `most`.
pub fn read_number(word: &str, most: u32) -> Option<u32>
    ensures { result ≡ number_within most word.now }
{
    if !is_number(word) {
        return None;
    }
    match value_of(word) {
        Some(value) if 1 <= value && value <= most => Some(value),
        _ => None,
    }
}
