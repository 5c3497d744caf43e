//! The file of a password.
use command_faults::Fault;
use lists::Text;
use private_files::private_text;
use std::alloc::AllocGlobal;
use std::fs::File;
use std::rt::Files;

/// The most bytes of the file of a password: 1 MiB.
const LONGEST_PASSWORD: u64 = 1_048_576;

/// The password in a file that nobody but its owner may read: its first line.
pub fn password_at<R: Files<File = File> + AllocGlobal>(
    rt: &R,
    path: &str,
    file: &str,
) -> Result<Text, Fault> {
    match private_text(rt, file, LONGEST_PASSWORD)? {
        Ok(text) => match text.as_str().lines().next() {
            Some(line) => Ok(Text::from_str(rt.alloc(), line)?),
            None => told(rt, path, file, "it has no line"),
        },
        Err(why) => told(rt, path, file, why.as_str()),
    }
}

fn told<R: AllocGlobal>(rt: &R, path: &str, file: &str, why: &str) -> Result<Text, Fault> {
    Err(Fault::Told(format!(in rt.alloc(); "{path}: allocator.etcd_password_file: {file}: {why}")?))
}
