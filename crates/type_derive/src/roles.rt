// What the place of an expression does with it.

/// What the place of an expression does with it.
#[derive(Clone, Copy)]
pub enum Role {
    /// reads it
    Free,
    /// gives it a type to go to, so that `[]` fits there
    Given,
    /// calls it
    Called,
    /// serves events by it
    Served,
}
