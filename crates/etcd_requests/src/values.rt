//! The JSON values of requests.
ghost use Rattle.std.specs.Prelude.{◌≡◌, ◌+◌, [], ◌∷◌, IfOk, decimal};
ghost use Rattle.serde_json.specs.Data.{array};
ghost use Rattle.serde_json.specs.View.{view};
ghost use Rattle.json_values.specs.Spelling.{items_data};
ghost use Rattle.etcd_requests.specs.declared.key.Key.TheVariants.{Epoch, Leader};
ghost use Rattle.etcd_requests.specs.Requests.{claim, forget, goes_on, leads, look, reads, remove, switch, write};
ghost use Rattle.etcd_requests.specs.Texts.{compare_data, get_data, grant_data, lease_data, operation_data, term_data, transaction_data};
ghost use Rattle.etcd_requests.specs.Transactions.{Get, Put, WasCreated};

use crate::compares::{goes_on, leads, was_created};
use crate::encoded::{decimal, key_value, long_value};
use crate::key::Key;
use crate::operations::{get, get_from, get_key, put, put_under, remove_from};
use crate::transaction::{four, one, three, transaction, two};
use serde_json::{Value, json};
use std::alloc::{AllocError, Global};

/// How many blocks a look asks for.
const BLOCKS_OF_A_LOOK: u64 = 4;

pub(crate) fn term_value(
    alloc: Global,
    advertise: &str,
    instance: &str,
) -> Result<Value, AllocError>
    ensures { IfOk result (λ v. view v ≡ term_data advertise.now instance.now) }
{
    json!(in alloc; {"advertise": advertise, "instance": instance})
}

pub(crate) fn grant_value(alloc: Global, seconds: u32) -> Result<Value, AllocError>
    ensures { IfOk result (λ v. view v ≡ grant_data seconds) }
{
    let seconds = long_value(alloc, seconds as u64)?;
    json!(in alloc; {"TTL": seconds})
}

pub(crate) fn lease_value(alloc: Global, lease: u64) -> Result<Value, AllocError>
    ensures { IfOk result (λ v. view v ≡ lease_data lease) }
{
    let lease = long_value(alloc, lease)?;
    json!(in alloc; {"ID": lease})
}

pub(crate) fn get_value(alloc: Global, prefix: &str, key: Key) -> Result<Value, AllocError>
    ensures { IfOk result (λ v. view v ≡ get_data prefix.now key) }
{
    let key = key_value(alloc, prefix, key)?;
    json!(in alloc; {"key": key})
}

pub(crate) fn claim_value(
    alloc: Global,
    prefix: &str,
    term: &str,
    lease: u64,
) -> Result<Value, AllocError>
    ensures { IfOk result (λ v. view v ≡ transaction_data prefix.now (claim term.now lease)) }
{
    let compare = one(alloc, was_created(alloc, prefix, Key::Leader, 0)?)?;
    let success = one(
        alloc,
        put_under(alloc, prefix, Key::Leader, term.as_bytes(), lease)?,
    )?;
    let failure = one(alloc, get(alloc, prefix, Key::Leader)?)?;
    transaction(alloc, compare, success, failure)
}

pub(crate) fn look_value(
    alloc: Global,
    prefix: &str,
    epoch: u32,
    number: u32,
) -> Result<Value, AllocError>
    ensures { IfOk result (λ v. view v ≡ transaction_data prefix.now (look epoch number)) }
{
    let success = looked_at(alloc, prefix, epoch, number)?;
    json!(in alloc; {"success": success})
}

/// What a look reads.
fn looked_at(alloc: Global, prefix: &str, epoch: u32, number: u32) -> Result<Value, AllocError>
    ensures { IfOk result (λ v. view v ≡ array (items_data (operation_data prefix.now) (reads epoch number))) }
{
    let leader = get(alloc, prefix, Key::Leader)?;
    let going = get(alloc, prefix, Key::Epoch)?;
    let next = get_from(alloc, prefix, epoch, number, BLOCKS_OF_A_LOOK)?;
    if number == 0 {
        return three(alloc, leader, going, next);
    }
    let last = get_key(alloc, prefix, Key::Block(epoch, number - 1))?;
    four(alloc, leader, going, next, last)
}

/// The term leads, the epoch goes on, and the key was created at a revision.
fn compares(
    alloc: Global,
    prefix: &str,
    term: &str,
    going: u32,
    key: Key,
    created: u64,
) -> Result<Value, AllocError>
    ensures { IfOk result (λ v. view v ≡ array (items_data (compare_data prefix.now) (leads term.now ∷ goes_on going ∷ WasCreated key created ∷ []))) }
{
    let leads = leads(alloc, prefix, term)?;
    let goes_on = goes_on(alloc, prefix, going)?;
    let created = was_created(alloc, prefix, key, created)?;
    three(alloc, leads, goes_on, created)
}

/// Who leads, and what the key has.
fn looks(alloc: Global, prefix: &str, key: Key) -> Result<Value, AllocError>
    ensures { IfOk result (λ v. view v ≡ array (items_data (operation_data prefix.now) (Get Leader ∷ Get key ∷ []))) }
{
    let leader = get(alloc, prefix, Key::Leader)?;
    let other = get(alloc, prefix, key)?;
    two(alloc, leader, other)
}

pub(crate) fn write_value(
    alloc: Global,
    prefix: &str,
    term: &str,
    going: u32,
    epoch: u32,
    number: u32,
    block: &[u8],
) -> Result<Value, AllocError>
    ensures { IfOk result (λ v. view v ≡ transaction_data prefix.now (write term.now going epoch number block.now)) }
{
    let key = Key::Block(epoch, number);
    let compare = compares(alloc, prefix, term, going, key, 0)?;
    let success = one(alloc, put(alloc, prefix, key, block)?)?;
    let failure = looks(alloc, prefix, key)?;
    transaction(alloc, compare, success, failure)
}

pub(crate) fn remove_value(
    alloc: Global,
    prefix: &str,
    term: &str,
    going: u32,
    epoch: u32,
    number: u32,
    created: u64,
) -> Result<Value, AllocError>
    ensures { IfOk result (λ v. view v ≡ transaction_data prefix.now (remove term.now going epoch number created)) }
{
    let key = Key::Block(epoch, number);
    let compare = compares(alloc, prefix, term, going, key, created)?;
    let success = one(alloc, remove_from(alloc, prefix, epoch, number)?)?;
    let failure = looks(alloc, prefix, key)?;
    transaction(alloc, compare, success, failure)
}

pub(crate) fn switch_value(
    alloc: Global,
    prefix: &str,
    term: &str,
    going: u32,
) -> Result<Value, AllocError>
    ensures { IfOk result (λ v. view v ≡ transaction_data prefix.now (switch term.now going)) }
{
    let leads = leads(alloc, prefix, term)?;
    let goes_on = goes_on(alloc, prefix, going)?;
    let compare = two(alloc, leads, goes_on)?;
    let success = one(alloc, put_epoch(alloc, prefix, going)?)?;
    let failure = looks(alloc, prefix, Key::Epoch)?;
    transaction(alloc, compare, success, failure)
}

/// Writes the number of the epoch behind one.
fn put_epoch(alloc: Global, prefix: &str, going: u32) -> Result<Value, AllocError>
    ensures { IfOk result (λ v. view v ≡ operation_data prefix.now (Put Epoch (decimal (going + 1)))) }
{
    let next = decimal(alloc, going as u64 + 1)?;
    put(alloc, prefix, Key::Epoch, next.as_bytes())
}

pub(crate) fn forget_value(
    alloc: Global,
    prefix: &str,
    term: &str,
    epoch: u32,
) -> Result<Value, AllocError>
    ensures { IfOk result (λ v. view v ≡ transaction_data prefix.now (forget term.now epoch)) }
{
    let compare = one(alloc, leads(alloc, prefix, term)?)?;
    let success = one(alloc, remove_from(alloc, prefix, epoch, 0)?)?;
    let failure = one(alloc, get(alloc, prefix, Key::Leader)?)?;
    transaction(alloc, compare, success, failure)
}
