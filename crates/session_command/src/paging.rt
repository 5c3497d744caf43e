//! What the page server answers to a request.
ghost use Rattle.std.specs.Prelude.{◌≡◌, ◌<◌, IfOk, IfSome, OnOk, length, option_map, string_bytes};
ghost use Rattle.session_command.specs.Pages.{asked_path as asked_path_of, behind_word, fields_text, not_found as not_found_text, page_text, pages_after, place_of as place_in, response, status_line as status_line_text, word_of};

use session::Page;
use std::alloc::{AllocError, Global};

/// The method of the requests that are answered with a page.
const METHOD: &str = "GET";

/// Answers a request by its head with the first page of the path that it asks for. Where a further page of this path stands behind
/// it, the next request gets that one.
pub fn respond(alloc: Global, pages: &mut Vec<Page>, head: &str) -> Result<String, AllocError>
    ensures response { IfOk result (λ s. string_bytes s ≡ response (asked_path_of head.now) pages.old.items) }
    ensures pages { OnOk result (pages.new.items ≡ pages_after (asked_path_of head.now) pages.old.items) }
{
    let Some(path) = asked_path(head) else {
        return not_found(alloc);
    };
    let Some(place) = place_of(pages.as_slice(), path) else {
        return not_found(alloc);
    };
    let answer = page_response(alloc, &pages[place])?;
    if place_of(&pages[place + 1..], path).is_some() {
        drop(pages.remove(place));
    }
    Ok(answer)
}

/// What a head asks for, with its query, where its method is GET.
fn asked_path(head: &str) -> Option<&str>
    ensures { option_map (λ s. s.now) result ≡ asked_path_of head.now }
{
    let (method, rest) = split_word(head);
    if method == METHOD {
        let (path, _version) = split_word(rest);
        Some(path)
    } else {
        None
    }
}

/// What stands before the first space and what behind it, or all and nothing.
fn split_word(text: &str) -> (&str, &str)
    ensures word { result.0.now ≡ word_of text.now }
    ensures rest { result.1.now ≡ behind_word text.now }
{
    match text.split_once(' ') {
        Some((word, rest)) => (word, rest),
        None => (text, ""),
    }
}

/// The place of the first page of a path.
fn place_of(pages: &[Page], path: &str) -> Option<usize>
    ensures place { result ≡ place_in path.now pages.now }
    ensures in_range { IfSome result (λ place. place < length pages.now) }
{
    pages.iter().position(|page| page.path.as_str() == path)
}

fn page_response(alloc: Global, page: &Page) -> Result<String, AllocError>
    ensures { IfOk result (λ s. string_bytes s ≡ page_text page.now) }
{
    let body = page.body.as_str();
    let line = status_line(alloc, page.status)?;
    let fields = fields_of(alloc, page.media.as_str(), body.len())?;
    format!(in alloc; "{line}{fields}{body}")
}

fn status_line(alloc: Global, status: u16) -> Result<String, AllocError>
    ensures { IfOk result (λ s. string_bytes s ≡ status_line_text status) }
{
    format!(in alloc; "HTTP/1.1 {status} \r\nconnection: close\r\n")
}

/// The fields that say what a body is, and the empty line behind them.
fn fields_of(alloc: Global, media: &str, length: usize) -> Result<String, AllocError>
    ensures { IfOk result (λ s. string_bytes s ≡ fields_text media.now length) }
{
    format!(in alloc; "content-type: {media}\r\ncontent-length: {length}\r\n\r\n")
}

fn not_found(alloc: Global) -> Result<String, AllocError>
    ensures { IfOk result (λ s. string_bytes s ≡ not_found_text) }
{
    String::from_str(
        alloc,
        "HTTP/1.1 404 Not Found\r\ncontent-length: 0\r\nconnection: close\r\n\r\n",
    )
}
