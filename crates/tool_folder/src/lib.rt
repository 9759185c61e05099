//! The folder that files come from: what it tells of itself, which names it was asked for, when it may fail, and three implementations. The one
//! of the operating system tells no content.
#![tactic(auto)]

mod disk;
mod files;
mod folder;
mod memory_folder;
mod noting;
mod reading;
mod sure;

pub use disk::DiskFolder;
pub use folder::{FetchFault, Folder, Found};
pub use memory_folder::MemoryFolder;
pub use reading::read_up_to;
pub use sure::SureFolder;
