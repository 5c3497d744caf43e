//! Histories as JSON.
ghost use Rattle.std.specs.Prelude.{◌≡◌, ◌==◌, ℕ, Some, IfOk, OnOk, false};
ghost use Rattle.std.specs.List.{list_all, list_any};
ghost use Rattle.serde_json.specs.Data.{no_members, object};
ghost use Rattle.serde_json.specs.View.{members_view, view};
ghost use Rattle.json_values.specs.Texts.{is_line_feed};
ghost use Rattle.price_certificate.specs.Document.{shared_document_data};
ghost use Rattle.core_history.specs.History.{ReadsBack, certificate_in, certificate_of, history_data, history_in, history_said, history_text, kept_of, parts_in};

use crate::fleet_parts::fleet_value;
use allocation_core::Core;
use json_values::{Spelled, array_of, text_of};
use lists::Text;
use price_certificate::shared_document_value;
use serde_json::{Map, Value, put};
use std::alloc::{AllocError, Global};

/// What a renewed core has, as one line of JSON without a line feed, which reads back as the core. Of any other core it has what
/// `read_history` gives back: not the earlier allocations, who took which, or what is booked.
pub fn write_history(alloc: Global, core: &Core) -> Result<Text, AllocError>
    ensures form { IfOk result (λ t. t ≡ history_text core.now) }
    ensures one_line { IfOk result (λ t. list_any is_line_feed t ≡ false) }
    ensures reads_back { IfOk result (λ t. ReadsBack core.now (history_said t)) }
{
    let value = history_value(alloc, core)?;
    text_of(alloc, &value)
}

/// The same as a JSON value.
pub fn history_value(alloc: Global, core: &Core) -> Result<Value, AllocError>
    ensures form { IfOk result (λ v. view v ≡ history_data core.now) }
    ensures reads_back { IfOk result (λ v. ReadsBack core.now (history_in (view v))) }
{
    let _number = core.current();
    let _jobs = core.fleet().jobs();
    parts_value(alloc, core)
}

fn parts_value(alloc: Global, core: &Core) -> Result<Value, AllocError>
    ensures form { IfOk result (λ v. view v ≡ history_data core.now) }
    ensures parts { IfOk result (λ v. parts_in (view v) ≡ Some (kept_of core.now)) }
{
    let mut members = Map::new(alloc);
    match put_parts(alloc, core, &mut members) {
        Ok(()) => Ok(Value::Object(members)),
        Err(error) => {
            drop(members);
            Err(error)
        }
    }
}

/// Puts the members of a history into an empty object.
fn put_parts(alloc: Global, core: &Core, members: &mut Map<String, Value>) -> Result<(), AllocError>
    requires { members_view members.old.entries ≡ no_members }
    ensures form { OnOk result (object (members_view members.new.entries) ≡ history_data core.now) }
    ensures parts { OnOk result (parts_in (object (members_view members.new.entries)) ≡ Some (kept_of core.now)) }
{
    let allocation = array_of(alloc, core.allocation())?;
    put(members, alloc, "allocation", allocation)?;
    let certificate = certificate_value(alloc, core)?;
    put(members, alloc, "certificate", certificate)?;
    let fleet = fleet_value(alloc, core.fleet())?;
    put(members, alloc, "fleet", fleet)?;
    let round = core.round().write(alloc)?;
    put(members, alloc, "round", round)?;
    if is_nothing_served(core.slots()) {
        return Ok(());
    }
    let served = array_of(alloc, core.slots())?;
    put(members, alloc, "served", served)?;
    Ok(())
}

/// Whether no list has a target.
fn is_nothing_served(slots: &[u32]) -> bool
    ensures { result ≡ list_all (λ (collector : ℕ). collector == 0) slots.now }
{
    slots.iter().all(|collector| *collector == 0)
}

#[tactic(auto, unfolding(crate::specs::History::certificate_in))]
fn certificate_value(alloc: Global, core: &Core) -> Result<Value, AllocError>
    ensures form { IfOk result (λ v. view v ≡ shared_document_data core.now.problem core.now.plan.pairs core.now.plan.item_prices core.now.plan.bin_prices) }
    ensures parts { IfOk result (λ v. certificate_in (view v) ≡ Some (certificate_of core.now.problem core.now.plan)) }
{
    let (instance, plan) = core.certificate()?;
    shared_document_value(alloc, &instance, &plan)
}
