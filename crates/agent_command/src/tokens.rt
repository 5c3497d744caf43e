//! The tokens that an agent shows.
use agent_settings::Tokens;
use command_faults::Fault;
use lists::Text;
use private_files::private_text;
use std::alloc::{AllocError, AllocGlobal};
use std::fs::File;
use std::rt::Files;

/// The most bytes of a file of a token.
const LONGEST_TOKEN: u64 = 65_536;

/// What an agent shows as `authorization`, each nothing where no file is named.
#[derive(Drop)]
pub(crate) struct Keys {
    pub(crate) allocator: Option<Text>,
    pub(crate) admin: Option<Text>,
    pub(crate) prometheus: Option<Text>,
}

/// The tokens of the files that a configuration at a path names.
pub(crate) fn keys_at<R: Files<File = File> + AllocGlobal>(
    rt: &R,
    path: &str,
    tokens: &Tokens,
) -> Result<Keys, Fault> {
    let allocator = key_at(rt, path, "allocator", &tokens.allocator)?;
    let admin = key_at(rt, path, "admin", &tokens.admin)?;
    let prometheus = key_at(rt, path, "prometheus", &tokens.prometheus)?;
    Ok(Keys {
        allocator,
        admin,
        prometheus,
    })
}

fn key_at<R: Files<File = File> + AllocGlobal>(
    rt: &R,
    path: &str,
    member: &str,
    file: &Option<Text>,
) -> Result<Option<Text>, Fault> {
    let Some(file) = file else {
        return Ok(None);
    };
    let file = file.as_str();
    match private_text(rt, file, LONGEST_TOKEN)? {
        Ok(text) => Ok(Some(key_in(rt, text.as_str())?)),
        Err(why) => told(rt, path, member, file, why.as_str()),
    }
}

fn told<R: AllocGlobal, T>(
    rt: &R,
    path: &str,
    member: &str,
    file: &str,
    why: &str,
) -> Result<T, Fault> {
    Err(Fault::Told(format!(in rt.alloc(); "{path}: tokens.{member}: {file}: {why}")?))
}

/// What is shown of a file's text: what stands in it, without the blanks around.
fn key_in<R: AllocGlobal>(rt: &R, text: &str) -> Result<Text, AllocError> {
    let token = text.trim();
    Ok(Text::from_string(format!(in rt.alloc(); "Bearer {token}")?))
}
