//! Laws and worked rows of failures and typed trees, and of the prelude's library.
#![tactic(auto)]

mod bases;
mod built;
mod formed;
mod library;
mod needs;
mod rows;
mod theorems;

pub use bases::{
    bases_are_classes, classes_reach_those_above, constructors_are_of_the_nearest,
    endless_chains_come_back, members_are_of_the_nearest, names_of_the_base_come_first,
};
pub use built::texts_without_a_failure_are_built;
pub use formed::{spelled_programs_are_formed, typed_programs_name_texts_of_their_trees};
pub use library::{
    library_functions_have_types, library_is_read, library_leaves_first, prelude_is_library,
    typed_library_is_light,
};
pub use needs::{
    accepted_programs_look_for_nothing_in_vain, each_local_in_scope_has_a_spot,
    members_stand_among_the_names_of_their_class, nodes_without_a_failure_are_whole,
};
pub use rows::{
    rows_of_accepted, rows_of_declarations, rows_of_failures, rows_of_functions, rows_of_limits,
};
pub use theorems::{
    accepted_texts_are_well_typed, functions_are_those_of_their_declarations, no_failure_has_a_type,
};
