//! Devices that are plugged into the board's ports: what a device tells of the words that were written to it, the places
//! that devices stand in, and three kinds of device.
#![tactic(auto)]

mod device;
mod echo;
mod memory;
mod plugs;
mod sent;
mod sure;

pub use device::Device;
pub use echo::EchoDevice;
pub use memory::MemoryDevice;
pub use plugs::Plugs;
pub use sent::Sent;
pub use sure::SureDevice;
