//! The documents of an agent that stands beside a Prometheus: the allocator's lists and their heads, what Prometheus says of its scrapes, the
//! reports that are posted, and the file in which is written down what was told.
//!
//! Contracts see a document as the data that `serde_json` reads of it.
#![tactic(auto)]

mod error;
mod laws;
mod listing;
mod numbers;
mod posting;
mod scrapes;
mod series;
mod serving;
mod state;
mod url;

pub use error::{DocumentError, Part};
pub use laws::series_decides;
pub use listing::{all_targets, read_list};
pub use numbers::{read_head, read_until};
pub use posting::report_text;
pub use scrapes::{Durations, nanoseconds, read_durations, read_said};
pub use series::{series_of_labels, series_of_metric};
pub use serving::list_of;
pub use state::{read_memory, write_memory};
