// A function that is lowered.

use std::alloc::Global;
use sts_base::Seq;
use sts_syntax::TypedClass;

/// What is known of a program and of the function that is lowered.
#[derive(Clone, Copy)]
pub(crate) struct Frame<'a> {
    /// where the memory of lists comes from
    pub(crate) alloc: Global,
    /// the program's classes
    pub(crate) classes: &'a Seq<TypedClass>,
    /// the functions whose calls `forever` repeats, in the order of the calls
    pub(crate) repeated: &'a [u32],
    /// how many functions the program has
    pub(crate) functions: u32,
    /// how many parameters the function has
    pub(crate) params: u32,
    /// the temporary at which its operands begin
    pub(crate) base: u32,
    /// whether it is a constructor
    pub(crate) maker: bool,
}
