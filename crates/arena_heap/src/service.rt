//! What is proved of a push and the service.
ghost use Rattle.std.specs.Prelude.{◌≡◌, ◌≢◌, ℕ};
ghost use Rattle.bank_model.specs.Fibers.{Fiber, Shared};
ghost use Rattle.bank_model.specs.AllServices.{word_argument, pushes};
ghost use Rattle.arena_heap.specs.Pushing.{pushing};
ghost use Rattle.arena_heap.specs.AsService.{IsAsked};

/// What a push comes to is what a fiber's turn does that asks for it, at an array that isn't null.
pub fn a_push_is_the_service()
    ensures { (at : ℕ) (f : Fiber) (s : Shared) → word_argument f 0 ≢ 0
        → IsAsked at f s (pushing s.arena s.used (word_argument f 0) (word_argument f 1)) (pushes at f s) }
{}
