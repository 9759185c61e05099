//! The types of expressions, and what functions return; definitions of derived types, failures and typed trees.
#![tactic(auto)]

mod beginnings;
mod boards;
mod callees;
mod context;
mod drawings;
mod evaluation;
mod heads;
mod locals;
mod parts;
mod results;
mod returns;
mod roles;
mod scopes;
mod theorems;
mod wanted;

pub use beginnings::{handler_scope, outer_scope, routine_scope};
pub use boards::{BoardTakes, board_kind, board_takes, goes_at, goes_some, is_function, is_given};
pub use callees::{
    Called, board_callee, constant, gives_of, made, named_callee, part_callee, routine, spelling,
    super_method, takes_at, takes_of,
};
pub use context::Context;
pub use drawings::{draws, is_drawing};
pub use evaluation::{part_behind, type_of};
pub use heads::{head_of, lets_of};
pub use locals::{Locals, Mark};
pub use parts::{both, bump_kind, chosen, indexed, listed, operated, prefixed, set_kind};
pub use results::handler_result;
pub use returns::{
    after, bound, declare, declare_all, enter, is_alone, items_of, leave, returned_in_block,
};
pub use roles::Role;
pub use scopes::{
    Scope, is_twice, kind_at, name_fixed, name_found, name_kind, part_kind, part_of, part_settable,
    serves, this_kind,
};
pub use theorems::{derived_types_are_one, derived_types_exist, rules_grow, types_grow};
pub use wanted::Wanted;
