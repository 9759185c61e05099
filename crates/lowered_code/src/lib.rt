//! What lowered code is like, what it names, and what it keeps alive: laws of the definition of code, without what code does.
//!
//! `specs/` has what lowering needs of a program (`IsFine`), bounds on what ops cost for the weight of a tree (`Costs`), and what it is that code names only some texts
//! (`NamesOnly`), and that its numbers are such ones (`AllHave`). Which temporaries are live is defined with flat code.
#![tactic(auto)]

mod costs;
mod forms;
mod lives;
mod needs;
mod texts;

pub use costs::{code_costs_at_most_its_weight, code_has_few_ops};
pub use forms::code_is_well_formed;
pub use lives::only_parameters_are_live_at_entry;
pub use needs::well_typed_programs_are_fine;
pub use texts::{its_numbers_have_32_bits, names_only_its_texts};
