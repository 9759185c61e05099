//! The halfwords of an instruction.

/// One or two halfwords, the first at the lower address.
#[derive(Clone, Copy, PartialEq, Eq, Debug, Drop)]
pub enum Half {
    One(u16),
    Two(u16, u16),
}
