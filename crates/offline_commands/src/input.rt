//! Reading an input to its end, or to its limit.

ghost use Rattle.std.specs.Prelude.{◌≡◌, IfOk, IfSome, length};
ghost use Rattle.offline_commands.specs.Reading.{IsTaken};

use crate::ending::Stop;
use lists::List;
use std::alloc::{AllocError, Global};
use std::io::{ErrorKind, Read};

/// The most bytes that a program takes.
const MOST_INPUT: usize = 67108864;

/// How often a program reads at the most.
const MOST_READS: u32 = 134217728;

/// How many bytes one read asks for.
const PIECE: usize = 65536;

/// What was read.
#[derive(Drop)]
pub enum Input {
    /// All there is.
    Whole(List<u8>),
    /// More than the most bytes.
    TooLong,
}

/// Reads to the end of the input, or to its limit. A read that was interrupted is made again; any other that fails, and
/// the bound on the number of reads, is a fault of the device.
pub fn read_input<R: Read>(alloc: Global, reader: &mut R) -> Result<Input, Stop>
    ensures { IfOk result (λ input. IfSome (R.remaining reader.old) (λ bytes. IsTaken bytes input)) }
{
    let mut taken = Vec::new(alloc);
    let mut piece = blank(alloc)?;
    for _turn in 0..MOST_READS {
        match reader.read(piece.as_mut_slice()) {
            Ok(0) => return Ok(Input::Whole(List::from_vec(taken))),
            Ok(count) => {
                if count > MOST_INPUT.saturating_sub(taken.len()) {
                    return Ok(Input::TooLong);
                }
                taken.extend_from_slice(&piece[..count])?;
            }
            Err(error) => {
                if error.kind() != ErrorKind::Interrupted {
                    return Err(Stop::Device);
                }
            }
        }
    }
    Err(Stop::Device)
}

/// Room for one read.
fn blank(alloc: Global) -> Result<Vec<u8>, AllocError>
    ensures { IfOk result (λ v. length v.items ≡ PIECE) }
{
    vec![in alloc; 0; PIECE]
}
