//! The members of an object without those of some names.
ghost use Rattle.std.specs.Prelude.{◌≡◌, ℕ, Bool, List, IfOk, OnOk};
ghost use Rattle.serde_json.specs.View.{view, members_view};
ghost use Rattle.json_values.specs.Members.{members_but as members_but_names, with_member};

use serde_json::{Map, Value, put};
use std::alloc::{AllocError, Global};

/// The names of members that are left out.
pub trait LeftOut: Sized {
    ghost is_left_out: { List ℕ → Bool };

    fn is_left_out(name: &str) -> bool
        ensures { result ≡ is_left_out name.now };
}

/// All members but those that are left out, as they are.
pub fn members_but<L: LeftOut>(
    alloc: Global,
    members: &Map<String, Value>,
) -> Result<Map<String, Value>, AllocError>
    ensures { IfOk result (λ m. members_view m.entries ≡ members_but_names L.is_left_out (members_view members.now.entries)) }
{
    let mut others = Map::new(alloc);
    for (name, member) in members.iter() {
        keep::<L>(alloc, &mut others, name.as_str(), member)?;
    }
    Ok(others)
}

fn keep<L: LeftOut>(
    alloc: Global,
    others: &mut Map<String, Value>,
    name: &str,
    member: &Value,
) -> Result<(), AllocError>
    ensures { OnOk result (members_view others.new.entries ≡ with_member L.is_left_out name.now (view member.now) (members_view others.old.entries)) }
{
    if L::is_left_out(name) {
        return Ok(());
    }
    let copy = member.clone()?;
    put(others, alloc, name, copy)
}
