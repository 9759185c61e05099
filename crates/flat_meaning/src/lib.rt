//! What flat code does, as a kind of activity in the board's world.
//!
//! `specs/` has the definitions: values and heaps are those of the source's meaning. One law ties the services that answer to the
//! board's table.
#![tactic(auto)]

mod services;

pub use services::services_answer_where_calls_have_values;
