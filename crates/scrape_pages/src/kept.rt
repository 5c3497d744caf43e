//! The members of a scrape config that its collectors follow.
ghost use Rattle.std.specs.Prelude.{◌≡◌, IfOk};
ghost use Rattle.serde_json.specs.View.{members_view};
ghost use Rattle.scrape_pages.specs.Kept.{is_done_here as is_done_here_name, kept_of};

use json_values::{LeftOut, members_but};
use serde_json::{Map, Value};
use std::alloc::{AllocError, Global};

/// The members that say what is done before collectors have the targets: how they are found, relabelled and spread.
struct DoneHere;

impl LeftOut for DoneHere {
    ghost is_left_out = { is_done_here_name };

    fn is_left_out(name: &str) -> bool {
        name == "relabel_configs"
            || name == "spread"
            || name == "static_configs"
            || name.as_bytes().ends_with(b"_sd_configs")
    }
}

/// The members that collectors follow, as they are.
pub(crate) fn kept(
    alloc: Global,
    members: &Map<String, Value>,
) -> Result<Map<String, Value>, AllocError>
    ensures { IfOk result (λ m. members_view m.entries ≡ kept_of (members_view members.now.entries)) }
{
    members_but::<DoneHere>(alloc, members)
}
