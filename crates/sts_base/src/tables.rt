use crate::Seq;

/// The byte strings that tokens and trees name by number: names and reserved words, and the values of text literals.
/// Each list holds distinct strings, so equal spellings have equal numbers.
#[derive(Debug, Drop)]
pub struct Tables {
    pub names: Seq<Seq<u8>>,
    pub texts: Seq<Seq<u8>>,
}
