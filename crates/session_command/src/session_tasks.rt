//! Who works over a session's desk.
use alloc_desk::{DeskName, Pass};
use allocation_core::CollectorId;
use collector_pool::Worker;
use scrape_client::HyperScrape;
use session_rounds::Refresher;
use std::alloc::{AllocError, Global};
use std::sync::ledger::Ledger;
use std::time::Duration;

/// How long a fetch may take.
const LONGEST_SECONDS: u64 = 10;

/// Who refreshes the sources, and the collectors.
#[derive(Drop)]
pub(crate) struct SessionTasks<R: Drop, L: Ledger, B: Ledger, N: DeskName> {
    pub(crate) refresher: Refresher<L, B, N, HyperScrape<R>>,
    pub(crate) workers: Vec<Worker<L, B, N, HyperScrape<R>>>,
}

impl<R: Copy + Drop, L: Ledger, B: Ledger, N: DeskName> SessionTasks<R, L, B, N> {
    /// The first pass is that of the refresher, and each further one that of a collector. A session's collectors have the numbers from
    /// 1 on, in order.
    pub(crate) fn of(
        rt: &R,
        alloc: Global,
        first: Pass<L, B, N>,
        others: Vec<Pass<L, B, N>>,
    ) -> Result<SessionTasks<R, L, B, N>, AllocError> {
        match workers_of(rt, alloc, others) {
            Ok(workers) => Ok(SessionTasks {
                refresher: Refresher {
                    pass: first,
                    scrape: device(rt),
                },
                workers,
            }),
            Err(error) => {
                drop(first);
                Err(error)
            }
        }
    }

    /// Gives the passes back.
    pub(crate) fn into_passes(self, alloc: Global) -> Result<Vec<Pass<L, B, N>>, AllocError> {
        let SessionTasks { refresher, workers } = self;
        let mut passes = Vec::new(alloc);
        if let Err(refused) = passes.push(refresher.pass) {
            drop((passes, workers));
            return Err(refused.into());
        }
        match add_passes(&mut passes, workers) {
            Ok(()) => Ok(passes),
            Err(error) => {
                drop(passes);
                Err(error)
            }
        }
    }
}

/// Adds the passes of collectors.
fn add_passes<L: Ledger, B: Ledger, N: DeskName, S: Drop>(
    passes: &mut Vec<Pass<L, B, N>>,
    workers: Vec<Worker<L, B, N, S>>,
) -> Result<(), AllocError> {
    for worker in workers {
        passes.push(worker.pass)?;
    }
    Ok(())
}

/// A collector for each pass, with the numbers from 1 on, in order.
fn workers_of<R: Copy + Drop, L: Ledger, B: Ledger, N: DeskName>(
    rt: &R,
    alloc: Global,
    passes: Vec<Pass<L, B, N>>,
) -> Result<Vec<Worker<L, B, N, HyperScrape<R>>>, AllocError> {
    match Vec::with_capacity(alloc, passes.len()) {
        Ok(mut workers) => match add_workers(rt, &mut workers, passes) {
            Ok(()) => Ok(workers),
            Err(error) => {
                drop(workers);
                Err(error)
            }
        },
        Err(error) => {
            drop(passes);
            Err(error)
        }
    }
}

fn add_workers<R: Copy + Drop, L: Ledger, B: Ledger, N: DeskName>(
    rt: &R,
    workers: &mut Vec<Worker<L, B, N, HyperScrape<R>>>,
    passes: Vec<Pass<L, B, N>>,
) -> Result<(), AllocError> {
    let mut id: CollectorId = 0;
    for pass in passes {
        id = id.saturating_add(1);
        workers.push(Worker {
            pass,
            id,
            scrape: device(rt),
            turn: None,
        })?;
    }
    Ok(())
}

/// A device with its limit of time.
pub(crate) fn device<R: Copy>(rt: &R) -> HyperScrape<R> {
    HyperScrape::new(*rt, Duration::from_secs(LONGEST_SECONDS))
}
