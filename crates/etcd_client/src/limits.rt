//! How long is waited for an answer.
ghost use Rattle.std.specs.Prelude.{◌≡◌, ◌+◌, ◌*◌, ◌/◌};

/// How long is waited at least, in milliseconds: a member that lost its leader lets requests hang, and the next member answers at once.
const SHORTEST: u64 = 500;

/// For how many bytes a second more is waited.
const BYTES_A_SECOND: u64 = 262_144;

/// How long is waited for the answer to a body of so many bytes, in milliseconds.
pub fn limit_millis(bytes: usize) -> u64
    ensures { result ≡ 500 + bytes / 262144 * 1000 }
{
    SHORTEST + bytes as u64 / BYTES_A_SECOND * 1_000
}
