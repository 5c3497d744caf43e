//! Histories out of JSON.
ghost use Rattle.std.specs.Prelude.{◌≡◌, ◌≢◌, Err, IfErr, IfOk, Ok, codes};
ghost use Rattle.serde_json.specs.Find.{get};
ghost use Rattle.serde_json.specs.View.{view};
ghost use Rattle.json_values.specs.Spelling.{member_in};
ghost use Rattle.core_history.specs.Parts.{fleet_parts_in};
ghost use Rattle.core_history.specs.History.{certificate_in, history_in, history_said, parts_in, served_or_none};
ghost use Rattle.core_history.specs.declared.error.HistoryError.TheVariants.{Memory};

use crate::error::HistoryError;
use crate::fleet_parts::fleet_parts_in;
use crate::history::{Certificate, History};
use crate::restoring::restored;
use allocation_core::Core;
use fleet::FleetParts;
use json_values::{FromJson, member, parse};
use lists::List;
use price_certificate::{Plan, instance_of};
use serde_json::Value;
use std::alloc::{AllocError, Global};

/// The core that a line says, or the first fault. `Memory` may stand in place of each.
#[tactic(auto, unfolding(crate::specs::History::history_said))]
pub fn read_history(alloc: Global, line: &[u8]) -> Result<Core, HistoryError>
    ensures state { IfOk result (λ c. history_said line.now ≡ Ok c) }
    ensures fault { IfErr result (λ e. e ≢ Memory → history_said line.now ≡ Err e) }
{
    match parse(alloc, line)? {
        Some(value) => history_in(alloc, &value),
        None => Err(HistoryError::Shape),
    }
}

/// The core that a value says, or the first fault.
#[tactic(auto, unfolding(crate::specs::History::history_in))]
pub fn history_in(alloc: Global, value: &Value) -> Result<Core, HistoryError>
    ensures state { IfOk result (λ c. history_in (view value.now) ≡ Ok c) }
    ensures fault { IfErr result (λ e. e ≢ Memory → history_in (view value.now) ≡ Err e) }
{
    match parts_in(alloc, value)? {
        Some(history) => restored(alloc, history),
        None => Err(HistoryError::Shape),
    }
}

#[tactic(auto, unfolding(crate::specs::History::parts_in))]
fn parts_in(alloc: Global, value: &Value) -> Result<Option<History>, AllocError>
    ensures { IfOk result (λ o. o ≡ parts_in (view value.now)) }
{
    let Some(allocation) = member(alloc, value, "allocation")? else {
        return Ok(None);
    };
    let Some(certificate) = certificate_member(alloc, value)? else {
        return Ok(None);
    };
    let fleet = match fleet_member(alloc, value) {
        Ok(Some(fleet)) => fleet,
        Ok(None) => {
            drop((allocation, certificate));
            return Ok(None);
        }
        Err(error) => {
            drop((allocation, certificate));
            return Err(error);
        }
    };
    let round = match member(alloc, value, "round") {
        Ok(Some(round)) => round,
        Ok(None) => {
            drop((allocation, certificate, fleet));
            return Ok(None);
        }
        Err(error) => {
            drop((allocation, certificate, fleet));
            return Err(error);
        }
    };
    match served_or_none(alloc, value) {
        Ok(Some(served)) => Ok(Some(History {
            allocation,
            certificate,
            fleet,
            round,
            served,
        })),
        Ok(None) => {
            drop((allocation, certificate, fleet));
            Ok(None)
        }
        Err(error) => {
            drop((allocation, certificate, fleet));
            Err(error)
        }
    }
}

/// Whose lists have which targets: nothing where the member is left out.
fn served_or_none(alloc: Global, value: &Value) -> Result<Option<Option<List<u32>>>, AllocError>
    ensures { IfOk result (λ o. o ≡ served_or_none (get (codes "served") (view value.now))) }
{
    let Some(slots) = value.get("served") else {
        return Ok(Some(None));
    };
    match FromJson::read(alloc, slots)? {
        Some(slots) => Ok(Some(Some(slots))),
        None => Ok(None),
    }
}

fn certificate_member(alloc: Global, value: &Value) -> Result<Option<Certificate>, AllocError>
    ensures { IfOk result (λ o. o ≡ member_in certificate_in (codes "certificate") (view value.now)) }
{
    match value.get("certificate") {
        Some(document) => certificate_in(alloc, document),
        None => Ok(None),
    }
}

#[tactic(auto, unfolding(crate::specs::History::certificate_in))]
fn certificate_in(alloc: Global, document: &Value) -> Result<Option<Certificate>, AllocError>
    ensures { IfOk result (λ o. o ≡ certificate_in (view document.now)) }
{
    let Some(instance) = instance_of(alloc, document)? else {
        return Ok(None);
    };
    match Plan::read(alloc, document) {
        Ok(Some(plan)) => Ok(Some(Certificate { instance, plan })),
        Ok(None) => {
            drop(instance);
            Ok(None)
        }
        Err(error) => {
            drop(instance);
            Err(error)
        }
    }
}

fn fleet_member(alloc: Global, value: &Value) -> Result<Option<FleetParts>, AllocError>
    ensures { IfOk result (λ o. o ≡ member_in fleet_parts_in (codes "fleet") (view value.now)) }
{
    match value.get("fleet") {
        Some(fleet) => fleet_parts_in(alloc, fleet),
        None => Ok(None),
    }
}
