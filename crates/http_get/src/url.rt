//! How a source of discovery is asked.
ghost use Rattle.std.specs.Prelude.{◌≡◌, IfOk};
ghost use Rattle.std.specs.List.{before_first, position_or_len};
ghost use Rattle.std.specs.Str.{IsCharBoundary};
ghost use Rattle.http_get.specs.Urls.{begins_path, from_path, get_from, url_get};

use crate::get::Get;
use crate::path::slash_before;
use crate::prefix::behind;
use lists::Text;
use std::alloc::{AllocError, Global};

/// How the source at a URL is asked: of `http://`, what stands before the path is the address, and the path and the query
/// stay as they stand. Any other URL is an address of its own, and no address that can be reached.
pub fn get_of_url(alloc: Global, url: &str) -> Result<Get, AllocError>
    ensures { IfOk result (λ get. get ≡ url_get url.now) }
{
    match behind("http://", url) {
        Some(rest) => {
            let (address, path) = parts_of(rest);
            get_of_parts(alloc, address, path)
        }
        None => get_of_parts(alloc, url, ""),
    }
}

fn get_of_parts(alloc: Global, address: &str, path: &str) -> Result<Get, AllocError>
    ensures { IfOk result (λ get. get ≡ get_from address.now path.now) }
{
    let address = Text::from_str(alloc, address)?;
    let mut whole = String::from_str(alloc, slash_before(path))?;
    whole.push_str(path)?;
    Ok(Get {
        address,
        path: Text::from_string(whole),
    })
}

/// What stands before the path or the query, and the rest.
fn parts_of(text: &str) -> (&str, &str)
    ensures address { result.0.now ≡ before_first begins_path text.now }
    ensures path { result.1.now ≡ from_path text.now }
{
    let start = path_start(text);
    (&text[..start], &text[start..])
}

fn path_start(text: &str) -> usize
    ensures start { result ≡ position_or_len begins_path text.now }
    ensures cut { IsCharBoundary text.now result }
{
    for (index, byte) in text.as_bytes().iter().enumerate() {
        if *byte == b'/' || *byte == b'?' {
            return index;
        }
    }
    text.len()
}
