// Numbers of functions and constructors, and names of members, as a plan has them.
ghost use Rattle.std.specs.Prelude.{◌≡◌, ◌+◌, ◌-◌, ◌^◌, ◌<◌, [], length, get_or, min};
ghost use Rattle.sts_scope.specs.Numbers as number;
ghost use Rattle.typed_numbers.specs.Building.{numbering_of};

use sts_base::Seq;
use typed_numbers::Numbers;

/// The number behind one, up to the last one of 32 bits.
pub fn one_more(number: u32) -> u32
    ensures { result ≡ min (number + 1) (2 ^ 32 - 1) }
{
    number.saturating_add(1)
}

/// The number of a function by its declaration.
pub fn routine_number(numbers: &Numbers, d: usize) -> u32
    ensures { result ≡ number.routine_number (numbering_of numbers.now) d }
{
    let routines = numbers.routines.as_slice();
    if d < routines.len() { routines[d] } else { 0 }
}

/// The number of a class's constructor.
pub fn maker_number(numbers: &Numbers, class: u32) -> u32
    ensures { result ≡ number.maker_number (numbering_of numbers.now) class }
{
    let makers = numbers.makers.as_slice();
    if (class as usize) < makers.len() {
        makers[class as usize]
    } else {
        0
    }
}

/// The names that stand for a class.
pub fn names_at(lists: &Seq<Seq<u32>>, class: u32) -> &[u32]
    requires { class < length lists.now }
    ensures { result.now ≡ get_or lists.now class [] }
{
    lists.as_slice()[class as usize].as_slice()
}
