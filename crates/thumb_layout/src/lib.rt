//! Layout of a function's code: from pieces, whose branches and loads have no form yet, to bytes and the places in them that are open
//! until the whole image is laid out.
//!
//! A piece means an effect, as an instruction does (specs/Pieces.antt). `lay` gives exactly the bytes and fixes of the layout that
//! specs/Layout.antt, Rounds.antt and Cells.antt define, and a flash that has them holds the pieces.
#![tactic(auto)]

mod laid;
mod layout;
mod pieces;
mod places;
mod rounds;
mod targets;
mod theorems;
mod waits;
mod writer;

pub use laid::{Fix, Laid, LayRefused};
pub use layout::lay;
pub use pieces::{Piece, What};
pub use theorems::{fixes_are_what_is_open, laid_code_holds, layout_settles};
