//! The head of a list, as the fields that tell it.
ghost use Rattle.std.specs.Prelude.{◌≡◌, IfOk, OnOk};
ghost use Rattle.sd_routes.specs.Fields.{at_times, lasting_headers, list_headers, with_allocation, with_collector, with_left_out, with_number, with_times};

use crate::list_head::ListHead;
use crate::responding::page_fields;
use http::header::{HeaderName, HeaderValue};
use http_header::HeaderMap;
use std::alloc::{AllocError, Global};
use std::marker::Model;

/// The head of a list, as the fields that tell it: what is told again and again is written once. Contracts see what is told.
#[derive(Drop)]
pub struct WrittenHead {
    told: ListHead,
    /// All fields but those of the open round's times.
    lasting: HeaderMap,
}

impl Model for WrittenHead {
    ghost use Rattle.std.specs.Prelude.{◌≡◌};
    ghost use Rattle.sd_routes.specs.Fields.{lasting_headers};
    ghost use Rattle.sd_routes.specs.declared.list_head.ListHead.{ListHead};

    ghost Value = { ListHead };

    ghost view = { λ w. w.told };

    ghost invariant = { λ w. w.lasting ≡ lasting_headers w.told };
}

impl WrittenHead {
    /// The fields that tell this.
    pub fn new(alloc: Global, told: ListHead) -> Result<WrittenHead, AllocError>
        ensures { IfOk result (λ w. w ≡ told) }
    {
        let mut lasting = page_fields(alloc)?;
        match push_lasting(alloc, &mut lasting, &told) {
            Ok(()) => Ok(WrittenHead { told, lasting }),
            Err(error) => {
                drop(lasting);
                Err(error)
            }
        }
    }

    /// What is told.
    pub fn told(&self) -> ListHead
        ensures { result ≡ self.now }
    {
        self.told
    }

    /// The same where the round is open for so long, and is to be so for so long, in milliseconds.
    pub fn at(&self, age: u64, length: u64) -> Result<WrittenHead, AllocError>
        ensures { IfOk result (λ w. w ≡ at_times age length self.now) }
    {
        let lasting = self.lasting.clone()?;
        let mut told = self.told;
        told.age = age;
        told.length = length;
        Ok(WrittenHead { told, lasting })
    }

    /// All its fields.
    pub(crate) fn into_fields(self, alloc: Global) -> Result<HeaderMap, AllocError>
        ensures { IfOk result (λ fields. fields ≡ list_headers self) }
    {
        let mut fields = self.lasting;
        match push_times(alloc, &mut fields, &self.told) {
            Ok(()) => Ok(fields),
            Err(error) => {
                drop(fields);
                Err(error)
            }
        }
    }
}

fn push_lasting(alloc: Global, fields: &mut HeaderMap, told: &ListHead) -> Result<(), AllocError>
    ensures { OnOk result (fields.new ≡ with_collector told.now (with_left_out told.now.left_out (with_allocation told.now fields.old))) }
{
    push_allocation(alloc, fields, told)?;
    push_left_out(alloc, fields, told.left_out)?;
    push_collector(alloc, fields, told)
}

fn push_allocation(alloc: Global, fields: &mut HeaderMap, told: &ListHead) -> Result<(), AllocError>
    ensures { OnOk result (fields.new ≡ with_allocation told.now fields.old) }
{
    let allocation = u64::from(told.allocation);
    let name = HeaderName::from_static("x-allocation-number");
    push_number(alloc, fields, name, allocation)?;
    let name = HeaderName::from_static("x-scrape-round");
    push_number(alloc, fields, name, u64::from(told.round))
}

fn push_left_out(
    alloc: Global,
    fields: &mut HeaderMap,
    left_out: Option<u32>,
) -> Result<(), AllocError>
    ensures { OnOk result (fields.new ≡ with_left_out left_out fields.old) }
{
    match left_out {
        Some(left_out) => {
            let name = HeaderName::from_static("x-left-out");
            push_number(alloc, fields, name, u64::from(left_out))
        }
        None => Ok(()),
    }
}

fn push_collector(alloc: Global, fields: &mut HeaderMap, told: &ListHead) -> Result<(), AllocError>
    ensures { OnOk result (fields.new ≡ with_collector told.now fields.old) }
{
    let name = HeaderName::from_static("x-collector");
    push_number(alloc, fields, name, u64::from(told.collector))?;
    let name = HeaderName::from_static("x-allocator-epoch");
    push_number(alloc, fields, name, told.epoch)
}

fn push_times(alloc: Global, fields: &mut HeaderMap, told: &ListHead) -> Result<(), AllocError>
    ensures { OnOk result (fields.new ≡ with_times told.now fields.old) }
{
    let name = HeaderName::from_static("x-scrape-round-age");
    push_number(alloc, fields, name, told.age)?;
    let name = HeaderName::from_static("x-scrape-round-length");
    push_number(alloc, fields, name, told.length)
}

/// A number in decimal goes under a name.
fn push_number(
    alloc: Global,
    fields: &mut HeaderMap,
    name: HeaderName,
    number: u64,
) -> Result<(), AllocError>
    ensures { OnOk result (fields.new ≡ with_number name number fields.old) }
{
    let number = HeaderValue::from_u64(alloc, number)?;
    match fields.insert(name, number) {
        Ok(_) => Ok(()),
        Err(_) => Err(AllocError),
    }
}
