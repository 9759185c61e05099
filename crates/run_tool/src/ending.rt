// How a call ends.
ghost use Rattle.std.specs.Prelude.{◌≡◌};

/// What an answer says of the command. An answer that was given whole has such a status.
#[derive(Clone, Copy, Debug, PartialEq, Eq, Drop)]
pub enum Status {
    /// The command was done.
    Done,
    /// The words aren't taken.
    Usage,
    /// The run ended by a panic.
    Panicked,
    /// The run's budget ended before the run did.
    OutOfBudget,
    /// The program is refused.
    Refused,
    /// The file stands for no script.
    ScriptRefused,
    /// The file stands for no class, or a board's script has another end than it.
    ClassRefused,
    /// The file stands for no arrivals.
    ArrivalsRefused,
    /// The file spells no image.
    ImageRefused,
    /// The run ended by a fault.
    Faulted,
    /// The folder failed.
    FolderFailed,
    /// The folder has no file of that name.
    Missing,
    /// The file has too many bytes.
    TooLong,
}

/// How a call ended.
#[derive(Clone, Copy, Debug, PartialEq, Eq, Drop)]
pub enum Ending {
    /// The answer was given whole.
    Gave(Status),
    /// The sink failed before the end of the answer.
    Cut,
    NoMemory,
}

impl Ending {
    ghost use Rattle.run_tool.specs.Answers.{ending_number};

    /// The number with which the call ends.
    pub fn number(self) -> u8
        ensures { result ≡ ending_number self }
    {
        match self {
            Ending::Gave(Status::Done) => 0,
            Ending::Gave(Status::Usage) => 2,
            Ending::Gave(Status::Panicked) => 3,
            Ending::Gave(Status::OutOfBudget) => 4,
            Ending::Gave(Status::Refused) => 10,
            Ending::Gave(Status::ScriptRefused | Status::ClassRefused | Status::ArrivalsRefused) =>
                11,
            Ending::Gave(Status::ImageRefused) => 12,
            Ending::Gave(Status::Faulted) => 13,
            Ending::Gave(Status::FolderFailed) => 20,
            Ending::Gave(Status::Missing) => 21,
            Ending::Gave(Status::TooLong) => 23,
            Ending::Cut => 22,
            Ending::NoMemory => 30,
        }
    }
}
