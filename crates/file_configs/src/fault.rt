//! Why files list nothing new.
use lists::Text;
use sd_documents::SdError;
use std::alloc::AllocError;
use thiserror::Error;

/// Why a source of files lists nothing new. What it listed before stays.
#[derive(Debug, Drop, Error)]
pub enum FilesFault {
    /// A file or a folder cannot be read.
    #[error("{}: {}", .0.as_str(), .1.as_str())]
    Unread(Text, Text),
    /// A file is longer than the device takes.
    #[error("{}: the file is too long", .0.as_str())]
    TooLong(Text),
    /// A file is no list of target groups. It is never want of memory here.
    #[error("{}: {}", .0.as_str(), .1)]
    Document(Text, SdError),
    #[error("too many targets in all files together")]
    TooMany,
    #[error("no memory")]
    Memory,
}

impl From<AllocError> for FilesFault {
    ghost use Rattle.std.specs.Prelude.{◌≡◌};
    ghost use Rattle.file_configs.specs.declared.fault.FilesFault.TheVariants.{Memory};

    ghost from_gives = { λ _ e. e ≡ Memory };

    fn from(_refused: AllocError) -> FilesFault {
        FilesFault::Memory
    }
}
