// Classes, and why bytes are none.
ghost use Rattle.std.specs.Prelude.{◌≡◌};

use sts_base::Seq;

/// The most boards that a class has.
pub const BOARD_LIMIT: usize = 8;

/// The most losses that a class has.
pub const LOSS_LIMIT: usize = 4096;

/// The names of a board's files, which are UTF-8 where the class was read.
#[derive(Debug, Drop)]
pub struct Names {
    pub program: Seq<u8>,
    pub script: Seq<u8>,
}

/// What one board sends at a moment, in milliseconds, is lost for another one. Boards are numbered from 0.
#[derive(Clone, Copy, Debug, PartialEq, Eq)]
pub struct Loss {
    pub at: u32,
    pub from: u32,
    pub to: u32,
}

/// The boards of a class in their order, what is lost between them, and the end of all their scripts, in milliseconds.
#[derive(Debug, Drop)]
pub struct ClassFile {
    pub end: u32,
    pub boards: Seq<Names>,
    pub lose: Seq<Loss>,
}

/// Why there is no class.
#[derive(Clone, Copy, Debug, PartialEq, Eq)]
pub enum ClassCode {
    /// The bytes are no JSON.
    NotJson,
    /// The JSON tree hasn't a class's form.
    NotClass,
    /// There are no boards, more than `BOARD_LIMIT`, or more than `LOSS_LIMIT` losses.
    BadCount,
    /// A board's script has another end than the class. `read_class`, which reads no script, never tells it.
    EndDiffers,
}

/// A refusal: by a code, or for want of memory.
#[derive(Clone, Copy, Debug, PartialEq, Eq)]
pub enum ClassRefused {
    Class(ClassCode),
    NoMemory,
}

impl ClassCode {
    ghost use Rattle.class_file.specs.Codes.{number_of};

    /// The number of a code, from 1 to 4, as it is printed.
    pub fn number(self) -> u8
        ensures { result ≡ number_of self }
    {
        self as u8 + 1
    }
}
