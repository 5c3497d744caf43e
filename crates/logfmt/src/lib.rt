//! Log lines in logfmt on standard error.
#![tactic(auto)]

mod logfmt;
mod milliseconds;
mod quoted;
mod quoted_url;
mod time;

pub use logfmt::Logfmt;
pub use milliseconds::Milliseconds;
pub use quoted::Quoted;
pub use quoted_url::QuotedUrl;
pub use time::timestamp;
