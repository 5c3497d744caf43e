//! The samples of long bodies are counted.
ghost use Rattle.std.specs.Prelude.{◌≢◌};

use scrape_books::count_samples;
use std::alloc::{AllocError, Global};
use std::test::Fail;

#[test]
fn counts_as_a_plain_program_does(rt: HostRuntime) -> Result<(), Fail> {
    // short lines, and long ones
    assert!(rt; counts_plainly(rt.alloc(), 6)? && counts_plainly(rt.alloc(), 200)?);
    Ok(())
}

fn counts_plainly(alloc: Global, spread: u32) -> Result<bool, AllocError>
    requires { spread ≢ 0 }
{
    match mixed_body(alloc, spread) {
        Ok(body) => Ok(count_samples(body.as_slice()) == count_plainly(body.as_slice())),
        Err(error) => Err(error),
    }
}

/// The same count, byte by byte.
fn count_plainly(body: &[u8]) -> u32 {
    let mut count: u32 = 0;
    let mut has_mark = false;
    for byte in body {
        if *byte == b'\n' {
            has_mark = false;
        } else if !has_mark && *byte != b' ' && *byte != b'\t' {
            has_mark = true;
            if *byte != b'#' {
                count = count.saturating_add(1);
            }
        }
    }
    count
}

/// Bytes in no order, where about one of so many is a line feed.
fn mixed_body(alloc: Global, spread: u32) -> Result<Vec<u8>, AllocError>
    requires { spread ≢ 0 }
{
    let mut body = Vec::with_capacity(alloc, 20_000)?;
    let mut state: u32 = 1;
    for _ in 0..20_000 {
        state = state.wrapping_mul(1_664_525).wrapping_add(1_013_904_223);
        body.push(match (state >> 16) % spread {
            0 => b'\n',
            1 => b' ',
            2 => b'\t',
            3 => b'#',
            4 => b'\r',
            _ => b'x',
        })?;
    }
    Ok(body)
}
