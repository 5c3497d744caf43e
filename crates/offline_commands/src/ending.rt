//! How the program ends: the exit statuses of all commands but `serve`.
ghost use Rattle.std.specs.Prelude.{◌≡◌};
ghost use Rattle.offline_commands.specs.Ending.{exit_status, stop_line};

use std::alloc::AllocError;

/// What an answer says of its input.
#[derive(Clone, Copy, Debug, PartialEq, Eq)]
pub enum Status {
    /// It is done, or best.
    Done,
    /// It is read, and refused.
    Refused,
    /// It is not read.
    Unreadable,
}

/// Why there is no answer, or only a front of one.
#[derive(Clone, Copy, PartialEq, Eq)]
pub enum Stop {
    /// No memory was found.
    Memory,
    /// A read failed.
    Device,
}

/// How the program ends.
#[derive(Clone, Copy, PartialEq, Eq)]
pub enum Ending {
    /// The whole answer is written.
    Answered(Status),
    /// A line that says why there is no answer is written.
    Stopped(Stop),
    /// The writer failed.
    Unwritten,
}

impl Ending {
    /// The exit status.
    pub fn exit_status(self) -> u8
        ensures { result ≡ exit_status self }
    {
        match self {
            Ending::Answered(Status::Done) => 0,
            Ending::Answered(Status::Refused) => 1,
            Ending::Answered(Status::Unreadable) => 2,
            Ending::Stopped(_) | Ending::Unwritten => 3,
        }
    }
}

impl Stop {
    /// The line on a program that stops.
    pub fn line(&self) -> &'static str
        ensures { result.now ≡ stop_line self.now }
    {
        match self {
            Stop::Memory => "memory\n",
            Stop::Device => "device\n",
        }
    }
}

impl From<AllocError> for Stop {
    ghost use Rattle.offline_commands.specs.declared.ending.Stop.TheVariants.{Memory};

    ghost from_gives = { λ _ e. e ≡ Memory };

    fn from(_error: AllocError) -> Stop {
        Stop::Memory
    }
}
