//! A journal that is opened.
use crate::journal::EtcdJournal;
use etcd_terms::Seat;
use etcd_turns::{Etcd, claim, cut, read_all};
use lists::{List, Text};
use std::alloc::{AllocError, Global};

/// A journal that is opened, and what it has.
#[derive(Drop)]
pub struct Opened<E> {
    pub journal: EtcdJournal<E>,
    /// The whole lines of the epoch that goes on, none before the first.
    pub lines: List<u8>,
}

/// What was read.
#[derive(Drop)]
struct Stood {
    seat: Seat,
    lines: List<u8>,
}

/// Claims to lead with a term as long as a lease lasts, reads the journal whole, and cuts its torn end. None where another leads, or this term does no more.
/// So many epochs are kept that are over.
pub fn open<E: Etcd + Drop>(
    alloc: Global,
    prefix: &str,
    term: &str,
    lease: u64,
    kept_epochs: u32,
    etcd: E,
) -> Result<Option<Opened<E>>, AllocError> {
    let mut etcd = etcd;
    match stand(alloc, prefix, term, lease, &mut etcd) {
        Ok(Some(stood)) => make_opened(alloc, prefix, term, kept_epochs, etcd, stood),
        Ok(None) => {
            drop(etcd);
            Ok(None)
        }
        Err(error) => {
            drop(etcd);
            Err(error)
        }
    }
}

fn make_opened<E: Etcd + Drop>(
    alloc: Global,
    prefix: &str,
    term: &str,
    kept_epochs: u32,
    etcd: E,
    stood: Stood,
) -> Result<Option<Opened<E>>, AllocError> {
    match names(alloc, prefix, term) {
        Ok((prefix, term)) => {
            let Stood { seat, lines } = stood;
            let journal = EtcdJournal {
                alloc,
                prefix,
                term,
                etcd,
                seat,
                pending: Vec::new(alloc),
                kept_epochs,
                left: u32::MAX,
            };
            Ok(Some(Opened { journal, lines }))
        }
        Err(error) => {
            drop((etcd, stood));
            Err(error)
        }
    }
}

fn names(alloc: Global, prefix: &str, term: &str) -> Result<(Text, Text), AllocError> {
    let prefix = Text::from_str(alloc, prefix)?;
    let term = Text::from_str(alloc, term)?;
    Ok((prefix, term))
}

/// What stands, once this term leads and no torn end is left.
fn stand<E: Etcd>(
    alloc: Global,
    prefix: &str,
    term: &str,
    lease: u64,
    etcd: &mut E,
) -> Result<Option<Stood>, AllocError> {
    if !claim(alloc, prefix, term, lease, etcd)? {
        return Ok(None);
    }
    match read(alloc, prefix, term, etcd)? {
        Some(stood) => whole(alloc, prefix, term, etcd, stood),
        None => Ok(None),
    }
}

fn read<E: Etcd>(
    alloc: Global,
    prefix: &str,
    term: &str,
    etcd: &mut E,
) -> Result<Option<Stood>, AllocError> {
    match read_all(alloc, prefix, term, etcd)? {
        Some(reading) => {
            let seat = reading.seat();
            let lines = reading.lines().to_vec(alloc);
            drop(reading);
            match lines {
                Ok(lines) => Ok(Some(Stood {
                    seat,
                    lines: List::from_vec(lines),
                })),
                Err(error) => {
                    drop(seat);
                    Err(error)
                }
            }
        }
        None => Ok(None),
    }
}

/// What stands without a torn end.
fn whole<E: Etcd>(
    alloc: Global,
    prefix: &str,
    term: &str,
    etcd: &mut E,
    stood: Stood,
) -> Result<Option<Stood>, AllocError> {
    let mut stood = stood;
    match cut_torn(alloc, prefix, term, etcd, &mut stood.seat) {
        Ok(true) => Ok(Some(stood)),
        Ok(false) => {
            drop(stood);
            Ok(None)
        }
        Err(error) => {
            drop(stood);
            Err(error)
        }
    }
}

fn cut_torn<E: Etcd>(
    alloc: Global,
    prefix: &str,
    term: &str,
    etcd: &mut E,
    seat: &mut Seat,
) -> Result<bool, AllocError> {
    if seat.torn == 0 {
        return Ok(true);
    }
    cut(alloc, prefix, term, etcd, seat)
}
