//! Events are entered until the journal is full.
use crate::opening::core_of;
use alloc_desk::{EnterError, MOST_ENTRIES, Record};
use allocation_core::Event;
use std::alloc::Global;
use std::test::Fail;

#[test]
fn a_full_journal_takes_no_more(rt: HostRuntime) -> Result<(), Fail> {
    assert!(rt; comes_to_be_full(rt.alloc()));
    Ok(())
}

fn comes_to_be_full(alloc: Global) -> bool {
    match core_of(alloc, 1) {
        Some(core) => {
            let mut record = Record::open(alloc, core);
            let is_full = fills(&mut record) && is_full(&mut record);
            drop(record);
            is_full
        }
        None => false,
    }
}

/// Enters as many events as there may be.
fn fills(record: &mut Record) -> bool {
    for _ in 0..MOST_ENTRIES {
        if record.enter(0, Event::NextRound).is_err() {
            return false;
        }
    }
    true
}

fn is_full(record: &mut Record) -> bool {
    let refused = match record.enter(0, Event::NextRound) {
        Err(error) => error == EnterError::JournalFull,
        Ok((_, answer)) => {
            drop(answer);
            false
        }
    };
    refused && record.journal().len() == MOST_ENTRIES && record.core().round() == 1_048_577
}
