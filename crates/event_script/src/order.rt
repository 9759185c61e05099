// Lists in the order of a number.
ghost use Rattle.std.specs.Prelude.{◌≡◌, ℕ};
ghost use Rattle.event_script.specs.Order.{falls_by};

/// What stands in a list in the order of a number, as of its moment.
pub trait Ordered {
    ghost place: { Self → ℕ };

    /// The number.
    fn place(&self) -> u32
        ensures { result ≡ place self.now };
}

/// Whether some item's number is below that of the one before it.
pub fn falls<X: Ordered>(items: &[X]) -> bool
    ensures { result ≡ falls_by X.place 0 items.now }
{
    let mut before = 0;
    for item in items {
        let place = item.place();
        if place < before {
            return true;
        }
        before = place;
    }
    false
}
