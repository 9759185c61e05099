// The numbers of flat code's own operators.

/// One more than a number. It is a prefix operator beside those of the source, which have the numbers 1 to 4.
pub const INCREMENT: u8 = 5;
/// One less than a number.
pub const DECREMENT: u8 = 6;
