//! What runs on two scripts have in common that agree up to a moment. No code but a law.
#![tactic(auto)]

mod scripts;

pub use scripts::scripts_agree_so_far;
