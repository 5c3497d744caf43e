//! The text of a file that nobody but its owner may read.
use std::alloc::{AllocError, AllocGlobal};
use std::fs::File;
use std::io;
use std::io::Read;
use std::os::unix::fs::PermissionsExt;
use std::rt::Files;

/// The bits of a file's mode by which others than its owner may do something.
const OTHERS: u32 = 0o077;

/// The text of a file that nobody but its owner may read, of which at most so many bytes are read; or why it has none, in words for who runs the program.
pub fn private_text<R: Files<File = File> + AllocGlobal>(
    rt: &R,
    path: &str,
    most: u64,
) -> Result<Result<String, String>, AllocError> {
    match text_at(rt, path, most) {
        Ok(Some(text)) => Ok(Ok(text)),
        Ok(None) => Ok(Err(String::from_str(
            rt.alloc(),
            "others may read or write it: chmod 600 it",
        )?)),
        Err(error) => Ok(Err(format!(in rt.alloc(); "{error}")?)),
    }
}

/// None where others may do something with the file.
fn text_at<R: Files<File = File> + AllocGlobal>(
    rt: &R,
    path: &str,
    most: u64,
) -> io::Result<Option<String>> {
    let file = File::open(rt, path)?;
    if file.metadata()?.permissions().mode() & OTHERS != 0 {
        return Ok(None);
    }
    let mut text = String::new(rt.alloc());
    file.take(most).read_to_string(&mut text)?;
    Ok(Some(text))
}
