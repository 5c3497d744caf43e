//! What the kernel tells in files.
use std::alloc::Global;
use std::fs::File;
use std::io;
use std::io::Read;
use std::rt::Files;

/// The text of a file of the kernel's.
pub(crate) fn text_of<R: Files<File = File>>(
    rt: &R,
    alloc: Global,
    path: &str,
) -> io::Result<String> {
    let mut text = String::new(alloc);
    File::open(rt, path)?.read_to_string(&mut text)?;
    Ok(text)
}
