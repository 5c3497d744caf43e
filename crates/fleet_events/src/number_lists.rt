//! Lists of numbers in a text.
ghost use Rattle.std.specs.Prelude.{◌≡◌, ◌++◌, OnOk, string_bytes};
ghost use Rattle.std.specs.Fmt.{decimal};
ghost use Rattle.fleet_events.specs.Lines.{after_commas, numbers_line};

use std::alloc::AllocError;

/// Adds numbers joined by commas, or a hyphen for none.
pub(crate) fn push_numbers(line: &mut String, numbers: &[u32]) -> Result<(), AllocError>
    ensures { OnOk result (string_bytes line.new ≡ string_bytes line.old ++ numbers_line numbers.now) }
{
    match numbers.split_first() {
        None => line.push_str("-"),
        Some((first, others)) => {
            push_number(line, *first)?;
            push_others(line, others)
        }
    }
}

/// Adds numbers, each after a comma.
fn push_others(line: &mut String, numbers: &[u32]) -> Result<(), AllocError>
    ensures { OnOk result (string_bytes line.new ≡ string_bytes line.old ++ after_commas numbers.now) }
{
    for number in numbers {
        line.push_str(",")?;
        push_number(line, *number)?;
    }
    Ok(())
}

fn push_number(line: &mut String, number: u32) -> Result<(), AllocError>
    ensures { OnOk result (string_bytes line.new ≡ string_bytes line.old ++ decimal number) }
{
    write!(line, "{number}")
}
