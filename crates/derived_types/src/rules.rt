// What the types of declarations follow from.
use crate::origins::Origin;
use std::alloc::Global;
use sts_base::Tables;
use sts_scope::ByNumber;

/// What the types of all declarations follow from, but for the types that are known already.
#[derive(Clone, Copy)]
pub struct Rules<'a> {
    pub alloc: Global,
    /// the names and texts
    pub tables: &'a Tables,
    /// the numbers of the classes, by their names
    pub classes: &'a ByNumber,
    /// how the type of each declaration follows
    pub origins: &'a [Origin<'a>],
}
