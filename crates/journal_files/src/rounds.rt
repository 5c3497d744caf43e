//! When rounds begin: a journal's epoch, and whole rounds behind it.
ghost use Rattle.std.specs.Prelude.{◌≡◌, ◌<◌, ◌-◌, ◌%◌};

/// For how long the open round is open, where one round after the other begins from an epoch on. An epoch that is still to come is now. The
/// times, those since 1970, and the length of a round are in milliseconds.
pub fn round_age(epoch: u64, now: u64, round: u64) -> u64
    ensures { 0 < round → result ≡ (now - epoch) % round }
{
    now.saturating_sub(epoch).checked_rem(round).unwrap_or(0)
}
