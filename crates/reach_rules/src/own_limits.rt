//! The limits that a collector has of its own.
ghost use Rattle.std.specs.Prelude.{◌≡◌, ◌↔◌, List, ℕ, [], Some, option_map, IfOk, IfErr, OnOk, OnErr, IsTrue, if◌then◌else◌};
ghost use Rattle.std.specs.FinMap.{is_sorted};
ghost use Rattle.std.specs.Str.{bytes_eq};
ghost use Rattle.serde_json.specs.View.{view, members_view};
ghost use Rattle.reach_rules.specs.Name.{byte_cmp};
ghost use Rattle.reach_rules.specs.OwnLimits.{own_limit, with_limit, limits_of, last_limit, entries_in, limits_in, limits_data};
ghost use Rattle.reach_rules.specs.Spelling.{Gives};
ghost use Rattle.reach_rules.specs.inner.Places.{IsHere, IsGap};

use crate::error::ReachError;
use json_values::{FromJson, Spelled, number};
use lists::{Plain, Text};
use serde_json::{Map, Value};
use std::alloc::{AllocError, Global};
use std::cmp::Ordering;
use std::marker::Model;

/// The limits that a collector has of its own, by the names of jobs: it takes at most so many targets of the job.
/// 0, or no entry, is no limit. Contracts see the list of the names and numbers in byte order of the names.
#[derive(Debug, Drop)]
pub struct OwnLimits {
    entries: Vec<(Text, u32)>,
}

impl Model for OwnLimits {
    ghost use Rattle.std.specs.Prelude.{IsTrue};
    ghost use Rattle.std.specs.FinMap.{is_sorted};
    ghost use Rattle.reach_rules.specs.Name.{byte_cmp};
    ghost use Rattle.reach_rules.specs.OwnLimits.{LimitList};

    ghost Value = { LimitList };

    ghost view = { λ l. l.entries.items };

    ghost invariant = { λ l. IsTrue (is_sorted byte_cmp l.entries.items) };
}

impl OwnLimits {
    /// No limits. It takes no memory.
    pub fn none(alloc: Global) -> OwnLimits
        ensures { result ≡ [] }
    {
        OwnLimits {
            entries: Vec::new(alloc),
        }
    }

    /// The limits of entries, of which the last of a job holds.
    pub fn of(alloc: Global, entries: &[(Text, u32)]) -> Result<OwnLimits, AllocError>
        ensures limits { IfOk result (λ l. l ≡ limits_of entries.now) }
        ensures last { IfOk result (λ l. (job : List ℕ) → own_limit l job ≡ last_limit entries.now job) }
    {
        let mut limits = OwnLimits::none(alloc);
        for entry in entries {
            limits.set(entry.0.as_str(), entry.1)?;
        }
        Ok(limits)
    }

    /// Gives a job a limit, in place of the one that it had.
    pub fn set(&mut self, job: &str, limit: u32) -> Result<(), AllocError>
        ensures ok { OnOk result (self.new ≡ with_limit self.old job.now limit) }
        ensures limits { OnOk result ((name : List ℕ) →
            own_limit self.new name ≡ (if bytes_eq name job.now then limit else own_limit self.old name)) }
        ensures err { OnErr result (self.new ≡ self.old) }
    {
        put(&mut self.entries, job, limit)?;
        Ok(())
    }

    /// The limit of a job, 0 where it has no entry. It takes no memory.
    pub fn limit(&self, job: &str) -> u32
        ensures { result ≡ own_limit self.now job.now }
    {
        limit_of(self.entries.as_slice(), job)
    }

    /// All entries, in byte order of the names.
    pub fn entries(&self) -> &[(Text, u32)]
        ensures all { result.now ≡ self.now }
        ensures ordered { IsTrue (is_sorted byte_cmp self.now) }
    {
        self.entries.as_slice()
    }

    pub fn is_empty(&self) -> bool
        ensures { IsTrue result ↔ (self.now ≡ []) }
    {
        self.entries.is_empty()
    }
}

impl OwnLimits {
    /// The limits that a JSON value spells: an object from names of jobs to whole numbers of at most 32 bits. Another shape
    /// is refused as `Shape`.
    pub fn read(alloc: Global, value: &Value) -> Result<OwnLimits, ReachError>
        ensures { Gives result (limits_in (view value.now)) }
    {
        let members = value.as_object().ok_or(ReachError::Shape)?;
        read_members(alloc, members)
    }
}

impl Plain for OwnLimits {
    fn copy(&self) -> Result<OwnLimits, AllocError> {
        OwnLimits::of(*self.entries.allocator(), self.entries.as_slice())
    }

    fn same(&self, other: &OwnLimits) -> bool {
        all_same(self.entries.as_slice(), other.entries.as_slice())
    }
}

impl FromJson for OwnLimits {
    ghost spelled = { limits_in };

    fn read(alloc: Global, value: &Value) -> Result<Option<OwnLimits>, AllocError> {
        match OwnLimits::read(alloc, value) {
            Ok(limits) => Ok(Some(limits)),
            Err(ReachError::Memory) => Err(AllocError),
            Err(_) => Ok(None),
        }
    }
}

impl Spelled for OwnLimits {
    ghost spelling = { limits_data };

    fn write(&self, alloc: Global) -> Result<Value, AllocError> {
        object_of(alloc, self.entries.as_slice())
    }
}

/// Whether two slices have equal entries.
fn all_same(entries: &[(Text, u32)], others: &[(Text, u32)]) -> bool
    ensures { IsTrue result ↔ (entries.now ≡ others.now) }
{
    if entries.len() != others.len() {
        return false;
    }
    for i in 0..entries.len() {
        if !entries[i].same(&others[i]) {
            return false;
        }
    }
    true
}

/// The limits that an object's members spell.
fn read_members(alloc: Global, members: &Map<String, Value>) -> Result<OwnLimits, ReachError>
    ensures { Gives result (option_map limits_of (entries_in (members_view members.now.entries))) }
{
    let mut limits = OwnLimits::none(alloc);
    for (job, value) in members.iter() {
        let limit = number(value).ok_or(ReachError::Shape)?;
        limits.set(job.as_str(), limit)?;
    }
    Ok(limits)
}

/// The object of the entries.
fn object_of(alloc: Global, entries: &[(Text, u32)]) -> Result<Value, AllocError>
    requires { IsTrue (is_sorted byte_cmp entries.now) }
    ensures form { IfOk result (λ v. view v ≡ limits_data entries.now) }
    ensures reads_back { IfOk result (λ v. limits_in (view v) ≡ Some entries.now) }
{
    let mut members = Map::new(alloc);
    for entry in entries {
        let limit = entry.1.write(alloc)?;
        serde_json::put(&mut members, alloc, entry.0.as_str(), limit)?;
    }
    Ok(Value::Object(members))
}

/// Where the name stands, or where it would be put.
fn index_of(entries: &[(Text, u32)], name: &str) -> Result<usize, usize>
    requires { IsTrue (is_sorted byte_cmp entries.now) }
    ensures here { IfOk result (IsHere entries.now name.now) }
    ensures gap { IfErr result (IsGap entries.now name.now) }
{
    entries.binary_search_by(|entry| order_of(entry, name))
}

/// The order of an entry's name and a name.
fn order_of(entry: &(Text, u32), name: &str) -> Ordering
    ensures { result ≡ byte_cmp entry.now.0 name.now }
{
    entry.0.as_str().cmp(name)
}

/// The limit of a job, 0 where it has no entry.
fn limit_of(entries: &[(Text, u32)], job: &str) -> u32
    requires { IsTrue (is_sorted byte_cmp entries.now) }
    ensures { result ≡ own_limit entries.now job.now }
{
    match index_of(entries, job) {
        Ok(i) => entries[i].1,
        Err(_) => 0,
    }
}

/// Gives a job a limit.
fn put(entries: &mut Vec<(Text, u32)>, job: &str, limit: u32) -> Result<(), AllocError>
    requires { IsTrue (is_sorted byte_cmp entries.old.items) }
    ensures ok { OnOk result (entries.new.items ≡ with_limit entries.old.items job.now limit) }
    ensures err { OnErr result (entries.new.items ≡ entries.old.items) }
{
    match index_of(entries.as_slice(), job) {
        Ok(i) => {
            let entry = &mut entries[i];
            entry.1 = limit;
            Ok(())
        }
        Err(i) => {
            let job = Text::from_str(*entries.allocator(), job)?;
            entries.insert(i, (job, limit))?;
            Ok(())
        }
    }
}
