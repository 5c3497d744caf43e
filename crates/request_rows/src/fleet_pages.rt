//! The texts of pages of collectors, and of targets that were searched for.
use crate::numbers::{first_word, large, number};
use crate::pages::numbered;
use fleet_events::{Event, read_event};
use lists::{List, Plain, Text};
use reach_rules::{CollectorName, OwnLimits, Reach};
use sd_routes::{CollectorRow, FoundTarget, collector_page, collectors_page, found_page};
use std::alloc::{AllocError, Global};
use target_shares::NumberedTarget;

/// The page of a collector, as `NUMBER STATE TAKEN TAKE JOIN`. STATE is `draining` or another word; TAKEN and TAKE are the numbers of its last
/// take, or 0; JOIN is the line of a join, and its limits are what the collector holds too.
pub(crate) fn collector(alloc: Global, text: &str) -> Result<String, AllocError> {
    match row_in(alloc, text)? {
        Some(row) => {
            let page = collector_page(alloc, &row);
            drop(row);
            Ok(page?.into_string())
        }
        None => String::from_str(alloc, "no collector"),
    }
}

/// The page of collectors, with ` | ` between them.
pub(crate) fn collectors(alloc: Global, text: &str) -> Result<String, AllocError> {
    let mut rows = Vec::new(alloc);
    let page = match push_rows(alloc, &mut rows, text) {
        Ok(()) => collectors_page(alloc, rows.as_slice()),
        Err(error) => Err(error),
    };
    drop(rows);
    Ok(page?.into_string())
}

fn push_rows(alloc: Global, rows: &mut Vec<CollectorRow>, text: &str) -> Result<(), AllocError> {
    for part in text.split(" | ") {
        if let Some(row) = row_in(alloc, part)? {
            rows.push(row)?;
        }
    }
    Ok(())
}

fn row_in(alloc: Global, text: &str) -> Result<Option<CollectorRow>, AllocError> {
    let (id, rest) = first_word(text);
    let (state, rest) = first_word(rest);
    let (taken, rest) = first_word(rest);
    let (take, join) = first_word(rest);
    match read_event(alloc, join.as_bytes())? {
        Some(
            Event::Join {
                name,
                reach,
                limits,
            },
        ) => {
            let mut row = joined(alloc, name, reach, limits)?;
            row.id = number(id);
            row.draining = state == "draining";
            row.taken = Some(number(taken)).filter(|number| *number > 0);
            row.last_take = Some(large(take)).filter(|number| *number > 0);
            Ok(Some(row))
        }
        other => {
            drop(other);
            Ok(None)
        }
    }
}

fn joined(
    alloc: Global,
    name: CollectorName,
    reach: Reach,
    limits: OwnLimits,
) -> Result<CollectorRow, AllocError> {
    match held_of(alloc, limits.entries()) {
        Ok(held) => Ok(CollectorRow {
            id: 0,
            name,
            draining: false,
            reach,
            limits,
            held,
            taken: None,
            last_take: None,
        }),
        Err(error) => {
            drop((name, reach, limits));
            Err(error)
        }
    }
}

fn held_of(alloc: Global, entries: &[(Text, u32)]) -> Result<List<(Text, u32)>, AllocError> {
    let mut held = List::new(alloc);
    for share in entries {
        held.push(share.copy()?)?;
    }
    Ok(held)
}

/// The page of targets of a job that were searched for, numbered from 7 on, as `ALL JOB HOLDER GROUPS`. Without a holder, which is `-`, none is
/// handed over, held or reported. Else each is held from allocation 2 on, and was reported in round 3.
pub(crate) fn found(alloc: Global, text: &str) -> Result<String, AllocError> {
    let (all, rest) = first_word(text);
    let (job, rest) = first_word(rest);
    let (holder, groups) = first_word(rest);
    let mut found = Vec::new(alloc);
    let page = match push_found(alloc, &mut found, job, holder, numbered(alloc, groups)) {
        Ok(()) => found_page(alloc, number(all), found.as_slice()),
        Err(error) => Err(error),
    };
    drop(found);
    Ok(page?.into_string())
}

fn push_found(
    alloc: Global,
    found: &mut Vec<FoundTarget>,
    job: &str,
    holder: &str,
    targets: Result<Option<List<NumberedTarget>>, AllocError>,
) -> Result<(), AllocError> {
    match targets {
        Ok(Some(targets)) => {
            for target in targets.into_vec() {
                found.push(found_target(alloc, job, holder, target)?)?;
            }
            Ok(())
        }
        Ok(None) => Ok(()),
        Err(error) => Err(error),
    }
}

fn found_target(
    alloc: Global,
    job: &str,
    holder: &str,
    target: NumberedTarget,
) -> Result<FoundTarget, AllocError> {
    let job = match Text::from_str(alloc, job) {
        Ok(job) => job,
        Err(error) => {
            drop(target);
            return Err(error);
        }
    };
    let collector = if holder == "-" {
        None
    } else {
        CollectorName::read(alloc, holder).ok()
    };
    let handing_over = collector.is_some();
    Ok(FoundTarget {
        job,
        target,
        collector,
        handing_over,
        since: if handing_over { Some(2) } else { None },
        last_round: if handing_over { Some(3) } else { None },
    })
}
