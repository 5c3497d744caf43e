//! Where the paths of a configuration begin.
ghost use Rattle.std.specs.Prelude.{◌≡◌, IfOk};
ghost use Rattle.file_configs.specs.Patterns.{IsFolder, without_dot as without_dot_text, placed_in};

use lists::Text;
use std::alloc::{AllocError, Global};

/// The folder of a path: all up to its last slash, with it. Empty where there is none.
pub fn folder_of(path: &str) -> &str
    ensures { IsFolder path.now result.now }
{
    match path.rfind('/') {
        Some(last) => &path[..last + 1],
        None => "",
    }
}

/// A path that stands in a configuration of this folder, as it is opened: one that begins with a slash stays as it is.
pub fn placed(alloc: Global, folder: &str, path: &str) -> Result<Text, AllocError>
    ensures { IfOk result (λ t. t ≡ placed_in folder.now path.now) }
{
    if path.as_bytes().starts_with(b"/") {
        return Text::from_str(alloc, path);
    }
    let mut whole = String::from_str(alloc, without_dot(folder))?;
    whole.push_str(without_dot(path))?;
    Ok(Text::from_string(whole))
}

/// The path without the folder `.` in front.
fn without_dot(path: &str) -> &str
    ensures { result.now ≡ without_dot_text path.now }
{
    match path.strip_prefix("./") {
        Some(rest) => rest,
        None => path,
    }
}
