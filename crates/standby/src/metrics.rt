//! The figures of an instance that stands by, in Prometheus's text exposition format.
use crate::board::Board;
use exposition::{Exposition, Kind};
use std::alloc::{AllocError, Global};

/// The figures of an instance that stands by.
pub(crate) fn metrics_page(alloc: Global, board: &Board) -> Result<String, AllocError> {
    let mut page = Exposition::new(alloc);
    write_state(&mut page, board)?;
    write_looks(&mut page, board)?;
    page.into_string().ok_or(AllocError)
}

fn write_state(page: &mut Exposition, board: &Board) -> Result<(), AllocError> {
    write(
        page,
        "allocd_leading",
        Kind::Gauge,
        "Whether this instance leads.",
        0,
    )?;
    write(
        page,
        "allocd_standby_has_read_all",
        Kind::Gauge,
        "Whether this instance has read once all that is kept.",
        u64::from(board.has_read_all),
    )?;
    write(
        page,
        "allocd_standby_blocks",
        Kind::Gauge,
        "Blocks of the epoch that goes on, as far as they are read.",
        board.blocks,
    )?;
    write(
        page,
        "allocd_standby_behind_blocks",
        Kind::Gauge,
        "Blocks that the last look found, so that at least so many were not read before.",
        board.behind,
    )
}

fn write_looks(page: &mut Exposition, board: &Board) -> Result<(), AllocError> {
    write(
        page,
        "allocd_standby_looks_total",
        Kind::Counter,
        "Looks that etcd answered.",
        board.looks,
    )?;
    write(
        page,
        "allocd_standby_looks_failed_total",
        Kind::Counter,
        "Looks without an answer of etcd.",
        board.missed,
    )?;
    write(
        page,
        "allocd_standby_leases_refused_total",
        Kind::Counter,
        "Leases that etcd did not grant while nobody led.",
        board.refused,
    )
}

/// Writes a family of one sample.
fn write(
    page: &mut Exposition,
    name: &str,
    kind: Kind,
    help: &str,
    count: u64,
) -> Result<(), AllocError> {
    page.family(name, kind, help)?;
    page.sample(name, u128::from(count))
}
