//! What laid code does in a flash: what its pieces say, piece by piece. No code but a law.
#![tactic(auto)]

mod meaning;

pub use meaning::{FlashReader, laid_code_means_its_pieces};
