/// Memory ran out. No clause of any call says when that is.
#[derive(Clone, Copy, Debug, PartialEq, Eq, Drop)]
pub struct NoMemory;
