//! The bodies of requests.
ghost use Rattle.std.specs.Prelude.{◌≡◌, IfOk};
ghost use Rattle.serde_json.specs.Written.{compact_text};
ghost use Rattle.etcd_requests.specs.Requests.{claim, forget, look, remove, switch, write};
ghost use Rattle.etcd_requests.specs.Texts.{get_data, grant_data, lease_data, term_data, transaction_data};

use crate::key::Key;
use crate::values::{
    claim_value, forget_value, get_value, grant_value, lease_value, look_value, remove_value,
    switch_value, term_value, write_value,
};
use json_values::text_of;
use lists::Text;
use std::alloc::{AllocError, Global};

/// The text of a term: the URL that others are sent to while it leads, and a text that nobody else has.
pub fn term_text(alloc: Global, advertise: &str, instance: &str) -> Result<Text, AllocError>
    ensures { IfOk result (λ t. t ≡ compact_text (term_data advertise.now instance.now)) }
{
    let value = term_value(alloc, advertise, instance)?;
    text_of(alloc, &value)
}

/// Asks for a lease of so many seconds.
pub fn grant_body(alloc: Global, seconds: u32) -> Result<Text, AllocError>
    ensures { IfOk result (λ t. t ≡ compact_text (grant_data seconds)) }
{
    let value = grant_value(alloc, seconds)?;
    text_of(alloc, &value)
}

/// Names a lease, which is kept alive or given up.
pub fn lease_body(alloc: Global, lease: u64) -> Result<Text, AllocError>
    ensures { IfOk result (λ t. t ≡ compact_text (lease_data lease)) }
{
    let value = lease_value(alloc, lease)?;
    text_of(alloc, &value)
}

/// Asks for a key.
pub fn get_body(alloc: Global, prefix: &str, key: Key) -> Result<Text, AllocError>
    ensures { IfOk result (λ t. t ≡ compact_text (get_data prefix.now key)) }
{
    let value = get_value(alloc, prefix, key)?;
    text_of(alloc, &value)
}

/// Leads with a term as long as a lease lasts, where nobody leads.
pub fn claim_body(alloc: Global, prefix: &str, term: &str, lease: u64) -> Result<Text, AllocError>
    ensures { IfOk result (λ t. t ≡ compact_text (transaction_data prefix.now (claim term.now lease))) }
{
    let value = claim_value(alloc, prefix, term, lease)?;
    text_of(alloc, &value)
}

/// Asks who leads, which epoch goes on, for the blocks of an epoch from a number on, and for the block before it.
pub fn look_body(alloc: Global, prefix: &str, epoch: u32, number: u32) -> Result<Text, AllocError>
    ensures { IfOk result (λ t. t ≡ compact_text (transaction_data prefix.now (look epoch number))) }
{
    let value = look_value(alloc, prefix, epoch, number)?;
    text_of(alloc, &value)
}

/// Writes a block of an epoch at its place, where the term leads, an epoch goes on, and nothing stands there. In the epoch that goes on it is an append;
/// in the next it is a part of the line with which that begins.
pub fn write_body(
    alloc: Global,
    prefix: &str,
    term: &str,
    going: u32,
    epoch: u32,
    number: u32,
    block: &[u8],
) -> Result<Text, AllocError>
    ensures { IfOk result (λ t. t ≡ compact_text (transaction_data prefix.now (write term.now going epoch number block.now))) }
{
    let value = write_value(alloc, prefix, term, going, epoch, number, block)?;
    text_of(alloc, &value)
}

/// Removes the blocks of an epoch from a number on, where the term leads, an epoch goes on, and the first of them was created at a revision. In the epoch
/// that goes on it is a torn end; in the next it is what a renewal left that did not come to its end.
pub fn remove_body(
    alloc: Global,
    prefix: &str,
    term: &str,
    going: u32,
    epoch: u32,
    number: u32,
    created: u64,
) -> Result<Text, AllocError>
    ensures { IfOk result (λ t. t ≡ compact_text (transaction_data prefix.now (remove term.now going epoch number created))) }
{
    let value = remove_value(alloc, prefix, term, going, epoch, number, created)?;
    text_of(alloc, &value)
}

/// The next epoch goes on, where the term leads and an epoch goes on.
pub fn switch_body(alloc: Global, prefix: &str, term: &str, going: u32) -> Result<Text, AllocError>
    ensures { IfOk result (λ t. t ≡ compact_text (transaction_data prefix.now (switch term.now going))) }
{
    let value = switch_value(alloc, prefix, term, going)?;
    text_of(alloc, &value)
}

/// Removes the blocks of an epoch that is over, where the term leads.
pub fn forget_body(alloc: Global, prefix: &str, term: &str, epoch: u32) -> Result<Text, AllocError>
    ensures { IfOk result (λ t. t ≡ compact_text (transaction_data prefix.now (forget term.now epoch))) }
{
    let value = forget_value(alloc, prefix, term, epoch)?;
    text_of(alloc, &value)
}
