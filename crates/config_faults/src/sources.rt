//! What is wrong with the sources of a job.
use http_get::{address_of, get_of_url, name_of};
use logfmt::Quoted;
use sd_documents::Job;
use serde_json::Value;
use std::alloc::{AllocError, Global};

/// The first source that is none, and why.
pub(crate) fn sources_fault(alloc: Global, job: &Value) -> Result<String, AllocError> {
    let Some(sources) = job.get("http_sd_configs").and_then(Value::as_array) else {
        return String::from_str(alloc, "http_sd_configs: no list");
    };
    for (index, source) in sources.iter().enumerate() {
        if !source.is_object() {
            return format!(in alloc; "http_sd_configs[{index}]: no object");
        }
        match source.get("url") {
            None => return format!(in alloc; "http_sd_configs[{index}].url: it is missing"),
            Some(Value::String(_)) => {}
            Some(_) => return format!(in alloc; "http_sd_configs[{index}].url: no text"),
        }
    }
    String::from_str(alloc, "http_sd_configs: another shape")
}

/// The first source of a job over HTTP that cannot be asked, and why. The entry has as many of them as it lists; those of files come behind.
pub(crate) fn asking_fault(
    alloc: Global,
    read: &Job,
    job: &Value,
) -> Result<Option<String>, AllocError> {
    let listed = count_of(job.get("http_sd_configs"));
    for (index, url) in read.http_urls.as_slice().iter().take(listed).enumerate() {
        if let Some(why) = url_fault(alloc, url.as_str())? {
            let url = Quoted(url.as_str());
            return Ok(Some(format!(in alloc; "http_sd_configs[{index}].url: {url}: {why}")?));
        }
    }
    Ok(None)
}

fn count_of(found: Option<&Value>) -> usize {
    match found.and_then(Value::as_array) {
        Some(items) => items.len(),
        None => 0,
    }
}

/// Why a URL cannot be asked, if it cannot.
fn url_fault(alloc: Global, url: &str) -> Result<Option<&'static str>, AllocError> {
    if url.as_bytes().starts_with(b"https://") {
        return Ok(Some("TLS is not spoken, only http:// is asked"));
    }
    if !url.as_bytes().starts_with(b"http://") {
        return Ok(Some("it does not begin with http://"));
    }
    let get = get_of_url(alloc, url)?;
    let host = get.address.as_str();
    if address_of(host).is_some() || name_of(host).is_some() {
        return Ok(None);
    }
    Ok(Some(
        "no host; a dotted IPv4 address is one, or a name of letters, digits, hyphens and dots, with a port below 65536 or none",
    ))
}
