//! What the machine says of this process, as Linux tells it in `/proc` (proc(5)).
use crate::descriptors::most_descriptors;
use crate::kernel_texts::text_of;
use service_state::ProcessFigures;
use std::alloc::{AllocGlobal, Global};
use std::fs::File;
use std::rt::Files;
use std::{fs, io};

/// What the kernel says of the memory of this process.
const STATUS: &str = "/proc/self/status";

/// What it says of its time.
const STAT: &str = "/proc/self/stat";

/// The folder that has an entry for each descriptor that is open.
const DESCRIPTORS: &str = "/proc/self/fd";

/// How many milliseconds a tick of the kernel's clock has, as it tells it to programs.
const TICK_MILLIS: u64 = 10;

/// The place of the user's time among the fields behind the program's name. That of the system follows it.
const USER_TIME: usize = 11;

/// What is said of this process. What cannot be read is left out.
pub(crate) fn process_figures<R: Files<File = File> + AllocGlobal + Clone + Drop>(
    rt: &R,
    alloc: Global,
) -> ProcessFigures {
    let (resident_bytes, virtual_bytes) = memory(rt, alloc);
    ProcessFigures {
        resident_bytes,
        virtual_bytes,
        cpu_millis: processor_millis(rt, alloc),
        open_descriptors: open_descriptors(rt).ok(),
        most_descriptors: most_descriptors(rt, alloc),
    }
}

/// How many bytes are resident, and how many the addresses span.
fn memory<R: Files<File = File>>(rt: &R, alloc: Global) -> (Option<u64>, Option<u64>) {
    match text_of(rt, alloc, STATUS) {
        Ok(status) => (
            bytes_in(status.as_str(), "VmRSS:"),
            bytes_in(status.as_str(), "VmSize:"),
        ),
        Err(_) => (None, None),
    }
}

fn processor_millis<R: Files<File = File>>(rt: &R, alloc: Global) -> Option<u64> {
    match text_of(rt, alloc, STAT) {
        Ok(stat) => ticks_in(stat.as_str())?.checked_mul(TICK_MILLIS),
        Err(_) => None,
    }
}

/// How many descriptors are open, but for that which reads this.
fn open_descriptors<R: Files<File = File> + AllocGlobal + Clone + Drop>(rt: &R) -> io::Result<u64> {
    let mut count: u64 = 0;
    for entry in fs::read_dir(rt, DESCRIPTORS)? {
        let _ = entry?;
        count = count.saturating_add(1);
    }
    Ok(count.saturating_sub(1))
}

/// The number of bytes at a name, of which the kernel tells thousands: `VmRSS:     5120 kB`.
fn bytes_in(status: &str, name: &str) -> Option<u64> {
    let said = status.lines().find_map(|line| line.strip_prefix(name))?;
    let thousands: u64 = said.split_whitespace().next()?.parse().ok()?;
    thousands.checked_mul(1_024)
}

/// The ticks of the user's time and of the system's. The program's name, in brackets, may have blanks and brackets of its own.
fn ticks_in(stat: &str) -> Option<u64> {
    let (_name, fields) = stat.rsplit_once(')')?;
    let mut fields = fields.split_whitespace();
    let user: u64 = fields.nth(USER_TIME)?.parse().ok()?;
    let system: u64 = fields.next()?.parse().ok()?;
    user.checked_add(system)
}
