// What a call passes, and how many ops it has behind its arguments.
ghost use Rattle.std.specs.Prelude.{◌≡◌, ℕ, List, ◌+◌, ◌≤◌, [], map, length};
ghost use Rattle.sts_syntax.specs.BoardTable.{placed};
ghost use Rattle.sts_syntax.specs.BoardViews.{service_place};
ghost use Rattle.sts_syntax.specs.Measures as m;
ghost use Rattle.sts_lower.specs.Sizes as z;
ghost use Rattle.sts_lower.specs.inner.Works as p;

use sts_syntax::{BoardAction, Callee, ServicePlace};

/// What stands at the places of what is called: nothing but written arguments, except in a service.
#[tactic(auto, using(sts_syntax::proofs::Laws::few_places))]
pub(crate) fn places(callee: Callee) -> &'static [ServicePlace]
    ensures sizes { (xs : List ℕ) → m.argument_sizes 1 callee xs ≡ placed (λ n. 1) (map service_place result.now) xs }
    ensures few { length result.now ≤ 4 }
    ensures list { map service_place result.now ≡ p.places_of callee }
{
    match callee {
        Callee::Board(call) => match call.action() {
            BoardAction::Service(_, places) => places,
            BoardAction::Library(_) | BoardAction::Repeats => &[],
        },
        Callee::Function(_) | Callee::Slot(_) | Callee::Push | Callee::Pop => &[],
    }
}

/// How many numbers of its own a callee gets between the written arguments.
pub(crate) fn own_numbers(callee: Callee) -> u32
    ensures sum { result ≡ m.total (m.argument_sizes 1 callee []) }
    ensures few { result ≤ 4 }
{
    let mut count = 0;
    for place in places(callee) {
        match place {
            ServicePlace::Always(_) => count += 1,
            ServicePlace::Written => {}
        }
    }
    count
}

/// How many ops a call has behind its arguments.
pub(crate) fn call_size(callee: Callee) -> u32
    ensures { result ≡ z.call_size callee }
{
    match callee {
        Callee::Function(_) | Callee::Slot(_) | Callee::Push | Callee::Pop => 1,
        Callee::Board(call) => match call.action() {
            BoardAction::Service(_, _) | BoardAction::Library(_) => 1,
            BoardAction::Repeats => 2,
        },
    }
}
