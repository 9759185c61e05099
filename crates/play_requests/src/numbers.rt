// Numbers in a path.
ghost use Rattle.std.specs.Prelude.{◌≡◌, SomeIff};
ghost use Rattle.std.specs.Option.{option_map};
ghost use Rattle.std.specs.Char.{is_ascii_digit};
ghost use Rattle.std.specs.List.{list_all};
ghost use Rattle.play_requests.specs.Numbers.{is_path_number, path_number, IsAllowed};

/// Whether each byte is a decimal digit.
fn are_digits(bytes: &[u8]) -> bool
    ensures { result ≡ list_all is_ascii_digit bytes.now }
{
    bytes.iter().all(|byte| byte.is_ascii_digit())
}

/// Whether a word is one to eight decimal digits.
fn is_number(word: &str) -> bool
    ensures { result ≡ is_path_number word.now }
{
    let digits = word.as_bytes();
    match digits.len() {
        1..=8 => are_digits(digits),
        _ => false,
    }
}

/// The number that a word writes: one to eight decimal digits.
pub fn number_of(word: &str) -> Option<u32>
    ensures { result ≡ path_number word.now }
{
    if !is_number(word) {
        return None;
    }
    match word.parse::<u32>() {
        Ok(value) => Some(value),
        Err(_) => None,
    }
}

/// The most instructions that a request may ask for.
const MOST: u32 = 50_000_000;

/// How many instructions a run may make.
#[derive(Clone, Copy, Debug, PartialEq, Eq, Drop)]
pub struct Budget {
    instructions: u32,
    ghost within: { IsAllowed instructions },
}

impl Budget {
    /// So many, if a request may ask for them.
    pub fn allowed(instructions: u32) -> Option<Budget>
        ensures { SomeIff (option_map (λ budget. budget.instructions) result) (IsAllowed instructions) instructions }
    {
        if 1 <= instructions && instructions <= MOST {
            Some(Budget { instructions })
        } else {
            None
        }
    }

    /// How many they are.
    pub fn instructions(self) -> u32
        ensures value { result ≡ self.instructions }
        ensures allowed { IsAllowed result }
    {
        self.instructions
    }
}
