//! Linking: from the laid code of a program's functions to the image that a board has in flash.
//!
//! `link` gives the image of which specs/Image.antt says what stands in it and where: three words and the instruction to which a fiber's function
//! returns, and then the functions, the division routine, the classes' tables and the texts, each from the next multiple of 4 on.
#![tactic(auto)]

mod addresses;
mod filling;
mod linker;
mod naming;
mod refused;
mod theorems;
mod writing;

pub use linker::link;
pub use refused::LinkRefused;
pub use theorems::{
    emitted_code_can_be_linked, images_are_alike, linkable_code_has_an_image,
    programs_within_the_limits_fit, the_image_shows_its_program,
};
