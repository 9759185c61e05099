// What is known where the nodes of a text are gone through.
use std::alloc::Global;
use sts_base::Tables;
use sts_scope::{ByNumber, Environment};

/// What is known of a library and a text, wherever a node stands.
#[derive(Clone, Copy)]
pub struct Context<'a> {
    pub alloc: Global,
    /// the names and texts
    pub tables: &'a Tables,
    /// the numbers of the classes, by their names
    pub classes: &'a ByNumber,
    /// all declarations, with their types where they are known
    pub known: &'a Environment,
}
