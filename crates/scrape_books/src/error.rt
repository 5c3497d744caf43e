//! Why an entry was not booked.
use std::alloc::AllocError;
use thiserror::Error;

/// Why an entry was not booked.
#[derive(Debug, Drop, Error)]
pub enum BooksError {
    /// An entry of the target stands for the round.
    #[error("the round is booked")]
    AlreadyBooked,
    /// The entry's round is 0, or 64 rounds and more before the target's last one, which is this: 0 where the target has no entry.
    #[error("the round is too long before round {0}, the target's last one")]
    Past(u32),
    #[error("no memory")]
    Memory,
}

impl From<AllocError> for BooksError {
    ghost use Rattle.std.specs.Prelude.{◌≡◌};
    ghost use Rattle.scrape_books.specs.declared.error.BooksError.TheVariants.{Memory};

    ghost from_gives = { λ _ e. e ≡ Memory };

    fn from(_error: AllocError) -> BooksError {
        BooksError::Memory
    }
}
