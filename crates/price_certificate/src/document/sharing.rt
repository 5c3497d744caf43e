//! The lists of bins that items share, as they are written.
ghost use Rattle.std.specs.Prelude.{◌≡◌, Some, IfOk, OnOk, map};
ghost use Rattle.serde_json.specs.Data.{no_members, object};
ghost use Rattle.serde_json.specs.View.{members_view, view};
ghost use Rattle.json_values.specs.Spelling.{list_data, list_in, number_data, number_in};
ghost use Rattle.price_certificate.specs.Problem.{row_of};
ghost use Rattle.price_certificate.specs.Reach.{place_of, rows_in, shared_data, shared_rows, sharing_of};

use crate::instance::Instance;
use json_values::array_of;
use serde_json::{Map, Value, put};
use std::alloc::{AllocError, Global};

/// How many lists are looked at for one that an item shares, so that whoever writes spends no more than that on an item.
pub(crate) const MOST_SHARED: usize = 512;

/// The items whose lists are written, and for each item the number of its list.
#[derive(Drop)]
struct Sharing {
    firsts: Vec<u32>,
    list_of: Vec<u32>,
}

/// The lists, each once, and for each item the number of its list.
pub(super) fn shared_reach(alloc: Global, instance: &Instance) -> Result<Value, AllocError>
    ensures form { IfOk result (λ v. view v ≡ shared_data instance.now (sharing_of instance.now)) }
    ensures reads_back { IfOk result (λ v. rows_in (view v) ≡ Some instance.now.rows) }
{
    instance.is_problem();
    let sharing = sharing_of(alloc, instance)?;
    let mut members = Map::new(alloc);
    match put_members(alloc, instance, &sharing, &mut members) {
        Ok(()) => Ok(Value::Object(members)),
        Err(error) => {
            drop(members);
            Err(error)
        }
    }
}

/// Puts the lists, and the numbers of them, into an empty object.
fn put_members(
    alloc: Global,
    instance: &Instance,
    sharing: &Sharing,
    members: &mut Map<String, Value>,
) -> Result<(), AllocError>
    requires { members_view members.old.entries ≡ no_members }
    ensures form { OnOk result (object (members_view members.new.entries) ≡ shared_data instance.now (record { firsts = sharing.now.firsts.items; list_of = sharing.now.list_of.items })) }
    ensures reads_back { OnOk result (rows_in (object (members_view members.new.entries)) ≡ shared_rows (map (row_of instance.now) sharing.now.firsts.items) sharing.now.list_of.items) }
{
    let list_of = array_of(alloc, sharing.list_of.as_slice())?;
    put(members, alloc, "row_of", list_of)?;
    let rows = rows_of(alloc, instance, sharing.firsts.as_slice())?;
    put(members, alloc, "rows", rows)
}

/// The lists of these items.
fn rows_of(alloc: Global, instance: &Instance, items: &[u32]) -> Result<Value, AllocError>
    ensures form { IfOk result (λ v. view v ≡ list_data (list_data number_data) (map (row_of instance.now) items.now)) }
    ensures reads_back { IfOk result (λ v. list_in (list_in number_in) (view v) ≡ Some (map (row_of instance.now) items.now)) }
{
    let mut rows = Vec::with_capacity(alloc, items.len())?;
    for item in items {
        rows.push(array_of(alloc, instance.row(*item as usize))?)?;
    }
    Ok(Value::Array(rows))
}

fn sharing_of(alloc: Global, instance: &Instance) -> Result<Sharing, AllocError>
    ensures { IfOk result (λ s. record { firsts = s.firsts.items; list_of = s.list_of.items } ≡ sharing_of instance.now) }
{
    let mut firsts = Vec::new(alloc);
    let mut list_of = Vec::with_capacity(alloc, instance.items())?;
    for item in 0..instance.items() {
        match place_of(instance, firsts.as_slice(), item) {
            Some(number) => list_of.push(number)?,
            None => {
                list_of.push(firsts.len() as u32)?;
                firsts.push(item as u32)?;
            }
        }
    }
    Ok(Sharing { firsts, list_of })
}

/// The number of a list that is the item's, if one of the first is.
fn place_of(instance: &Instance, firsts: &[u32], item: usize) -> Option<u32>
    ensures { result ≡ place_of instance.now firsts.now item }
{
    let row = instance.row(item);
    for number in 0..firsts.len().min(MOST_SHARED) {
        if instance.row(firsts[number] as usize) == row {
            return Some(number as u32);
        }
    }
    None
}
