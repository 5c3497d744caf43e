//! What is told of a configuration.
use crate::values::{NONE, json_in};
use json_values::parse;
use scrape_pages::collectors_configs as configs_of;
use std::alloc::{AllocError, Global};

/// The scrape configs of a document as its collectors are to use them.
pub(crate) fn collectors_configs(alloc: Global, text: &str) -> Result<String, AllocError> {
    match parse(alloc, text.as_bytes())? {
        Some(document) => {
            let configs = configs_of(alloc, &document);
            drop(document);
            json_in(alloc, configs)
        }
        None => String::from_str(alloc, NONE),
    }
}
