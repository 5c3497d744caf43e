//! Spreads: caps on the bins of an instance that cost no coverage, the best plan within them, the levels that show how even
//! it is, and the judge of all of these, whom nobody needs to trust.
#![tactic(auto)]

mod certificate;
mod document;
mod even;
mod groups;
mod judge;
mod laws;
mod levels;
mod spread;
mod verdict;

pub use certificate::Certificate;
pub use document::{
    one_certificate, plan_documents_stay, read_spread_document, spread_of, write_spread_document,
};
pub use even::{Even, MOST_SLACK};
pub use judge::{check_even, check_spread, judge_spread};
pub use laws::{
    best_is_bare, both_are_best_within, caps_cost_nothing, levelled_is_evenest,
    no_best_fault_is_certified, no_slack_is_evenest, prices_carry_over,
};
pub use spread::Spread;
pub use verdict::{EvenFault, SpreadFault, SpreadVerdict};
