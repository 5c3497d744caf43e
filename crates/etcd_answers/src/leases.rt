//! Answers about leases.
ghost use Rattle.std.specs.Prelude.{◌≡◌, IfOk, option_map};
ghost use Rattle.serde_json.specs.View.{view};
ghost use Rattle.etcd_answers.specs.Leases.{granted_in, granted_said, kept_in, lease_in, lease_said, left_in, seconds_left};

use crate::numbers::{long_in, long_of};
use json_values::parse;
use serde_json::Value;
use std::alloc::{AllocError, Global};

/// A lease that was granted, and for how many seconds, which may be more than were asked for.
#[derive(Clone, Copy, PartialEq, Eq)]
pub struct Granted {
    pub lease: u64,
    pub seconds: u64,
}

/// How a lease is.
#[derive(Clone, Copy, Debug, PartialEq, Eq)]
pub enum Lease {
    /// It goes on for so many seconds.
    GoesOn(u64),
    /// It ended.
    Ended,
    /// It is not known.
    Unknown,
}

/// What an answer says where a lease was asked for.
pub fn read_granted(alloc: Global, status: u16, body: &[u8]) -> Result<Option<Granted>, AllocError>
    ensures { IfOk result (λ o. o ≡ granted_said status body.now) }
{
    if status != 200 {
        return Ok(None);
    }
    match parse(alloc, body)? {
        Some(value) => Ok(granted_in(&value)),
        None => Ok(None),
    }
}

fn granted_in(value: &Value) -> Option<Granted>
    ensures { result ≡ granted_in (view value.now) }
{
    let lease = long_in(value, "ID")?;
    let seconds = long_in(value, "TTL")?;
    Some(Granted { lease, seconds })
}

/// What an answer says where a lease was to be kept alive.
pub fn read_lease(alloc: Global, lease: u64, status: u16, body: &[u8]) -> Result<Lease, AllocError>
    ensures { IfOk result (λ l. l ≡ lease_said lease status body.now) }
{
    if status != 200 {
        return Ok(Lease::Unknown);
    }
    match parse(alloc, body)? {
        Some(value) => Ok(lease_in(lease, &value)),
        None => Ok(Lease::Unknown),
    }
}

fn lease_in(lease: u64, value: &Value) -> Lease
    ensures { result ≡ lease_in lease (view value.now) }
{
    match value.get("result") {
        Some(kept) => kept_in(lease, kept),
        None => Lease::Unknown,
    }
}

fn kept_in(lease: u64, kept: &Value) -> Lease
    ensures { result ≡ kept_in lease (view kept.now) }
{
    match long_in(kept, "ID") {
        Some(id) if id == lease => left_in(kept.get("TTL")),
        _ => Lease::Unknown,
    }
}

fn left_in(left: Option<&Value>) -> Lease
    ensures { result ≡ left_in (option_map (λ v. view v.now) left.entry) }
{
    match left {
        Some(left) => match left.as_str() {
            Some(text) => seconds_left(text),
            None => Lease::Unknown,
        },
        None => Lease::Ended,
    }
}

fn seconds_left(text: &str) -> Lease
    ensures { result ≡ seconds_left text.now }
{
    match long_of(text) {
        Some(seconds) => Lease::GoesOn(seconds),
        None => Lease::Unknown,
    }
}
