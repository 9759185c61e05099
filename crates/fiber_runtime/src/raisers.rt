// The raisers, the innermost first.
ghost use Rattle.std.specs.Prelude.{◌≡◌, ◌∷◌, ◌++◌, ◌<◌, ◌≤◌, [], length, IfOk, IfNone};
ghost use Rattle.std.specs.Option.{option_to_list};
ghost use Rattle.board_world.specs.Limits.{raiser_limit};
ghost use Rattle.fiber_runtime.specs.State.{innermost};

use crate::turning::Raiser;
use board_world::RAISER_LIMIT;
use std::alloc::Global;
use std::marker::Model;
use sts_base::NoMemory;

/// Up to 32 raisers. All memory is taken by `new`.
#[derive(Drop)]
pub struct Raisers {
    list: Vec<Raiser>,
}

impl Model for Raisers {
    ghost use Rattle.std.specs.Prelude.{List, reverse, ◌≤◌, vec_len, vec_capacity};
    ghost use Rattle.board_world.specs.Limits.{raiser_limit};
    ghost use Rattle.fiber_runtime.specs.declared.turning.Raiser.{Raiser};

    ghost Value = { List Raiser };

    ghost view = { λ r. reverse r.list.items };

    ghost invariant = { λ r. (raiser_limit ≤ vec_capacity r.list) × (vec_len r.list ≤ raiser_limit) };
}

impl Raisers {
    /// No raisers.
    pub fn new(alloc: Global) -> Result<Raisers, NoMemory>
        ensures { IfOk result (λ r. r ≡ []) }
    {
        match Vec::with_capacity(alloc, RAISER_LIMIT) {
            Ok(list) => Ok(Raisers { list }),
            Err(_) => Err(NoMemory),
        }
    }

    /// How many raisers stand.
    pub fn depth(&self) -> usize
        ensures depth { result ≡ length self.now }
        ensures most { result ≤ raiser_limit }
    {
        self.list.len()
    }

    /// Puts a raiser in front.
    pub fn push(&mut self, raiser: Raiser)
        requires { length self.old < raiser_limit }
        ensures { self.new ≡ raiser ∷ self.old }
    {
        match self.list.push(raiser) {
            Ok(()) => {}
            Err(_) => unreachable!(),
        }
    }

    /// Takes the innermost raiser. None exactly where none stands.
    pub fn pop(&mut self) -> Option<Raiser>
        ensures taken { self.old ≡ option_to_list result ++ self.new }
        ensures none { IfNone result (self.old ≡ []) }
    {
        self.list.pop()
    }

    /// The innermost raiser's SP.
    pub fn sp(&self) -> Option<u32>
        ensures { result ≡ innermost self.now }
    {
        match self.list.last() {
            None => None,
            Some(raiser) => Some(raiser.registers.sp),
        }
    }
}
