//! The script of a run: what comes from outside, and when. A script is a JSON object (RFC 8259); `docs/FORMATS.md` has
//! its form. Contracts say which bytes are which script, and for which others each code stands.
#![tactic(auto)]

mod form;
mod order;
mod script;
mod shapes;
mod trees;
mod verdict;

pub use form::act_of;
pub use order::{Ordered, falls};
pub use script::{Act, ENTRY_LIMIT, Entry, Script, ScriptCode, ScriptRefused};
pub use shapes::{lists_of_entries_are_scripts, members_are_exact, rows_are_entries};
pub use trees::{FromTree, TreeRefused, has_members, list_of, says, text_of, tree_of, whole};
pub use verdict::read_script;
