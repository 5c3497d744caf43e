//! A collector of a round.
use crate::turn::Turn;
use alloc_desk::{DeskName, Pass};
use allocation_core::CollectorId;
use std::sync::ledger::Ledger;

/// A collector, with what it works with and what its last turn was.
#[derive(Drop)]
pub struct Worker<L: Ledger, B: Ledger, N: DeskName, S> {
    pub pass: Pass<L, B, N>,
    pub id: CollectorId,
    pub scrape: S,
    pub turn: Option<Turn>,
}
