/// What becomes of a word that is sent to a port.
#[derive(Clone, Copy, Debug, PartialEq, Eq, Drop)]
pub enum Sent {
    /// The device there took it.
    Went,
    /// No device stands there, or the one that does has failed before.
    Nobody,
    /// The device there failed, and is marked.
    Lost,
}
