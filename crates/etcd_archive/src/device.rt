//! The journal of one epoch in etcd.
use durable_journal::{Device, append};
use etcd_journal::{EtcdJournal, Leads};
use etcd_turns::Etcd;
use std::io;
use std::io::Write;
use std::sync::{Arc, Mutex, Wait};

/// The journal of one epoch in etcd. Another epoch begins with what it is to keep first, if it is for the next one. Once that goes on, nothing is kept in those before it.
#[derive(Drop)]
pub struct EtcdDevice<R, E> {
    rt: R,
    journal: Arc<Mutex<EtcdJournal<E>>>,
    /// None before it has begun.
    epoch: Option<u32>,
    pending: Vec<u8>,
}

impl<R, E> EtcdDevice<R, E> {
    /// That of an epoch that goes on, or of the next one.
    pub(crate) fn of(
        rt: R,
        journal: Arc<Mutex<EtcdJournal<E>>>,
        epoch: Option<u32>,
        pending: Vec<u8>,
    ) -> EtcdDevice<R, E> {
        EtcdDevice {
            rt,
            journal,
            epoch,
            pending,
        }
    }
}

impl<R: Wait, E: Etcd> EtcdDevice<R, E> {
    /// Has what is pending kept, and gives the number of the epoch in which it is.
    fn keep_pending(&self) -> io::Result<u32> {
        let mut journal = self.journal.lock(&self.rt);
        keep_in(&mut *journal, self.epoch, self.pending.as_slice())
    }
}

impl<R, E> Write for EtcdDevice<R, E> {
    fn write(&mut self, buf: &[u8]) -> io::Result<usize> {
        self.pending.extend_from_slice(buf)?;
        Ok(buf.len())
    }

    fn flush(&mut self) -> io::Result<()> {
        Ok(())
    }
}

impl<R: Wait, E: Etcd> Device for EtcdDevice<R, E> {
    ghost use Rattle.std.specs.Prelude.{None, false};

    ghost tells = { false };

    ghost kept = { λ _. None };

    fn keep(&mut self) -> io::Result<()> {
        match self.keep_pending() {
            Ok(epoch) => {
                self.epoch = Some(epoch);
                self.pending.clear();
                Ok(())
            }
            Err(error) => Err(error),
        }
    }

    /// Fails where this instance leads no more.
    fn check(&self) -> io::Result<()> {
        self.journal.lock(&self.rt).check()
    }
}

/// Has these bytes kept in an epoch, or as the beginning of the next one, and gives the number of the epoch.
fn keep_in<E: Etcd>(
    journal: &mut EtcdJournal<E>,
    epoch: Option<u32>,
    bytes: &[u8],
) -> io::Result<u32> {
    match epoch {
        Some(epoch) if epoch == journal.seat.going => {
            append(journal, bytes)?;
            Ok(epoch)
        }
        Some(_) => Err(io::ErrorKind::PermissionDenied.into()),
        None => {
            journal.begin(bytes)?;
            Ok(journal.seat.going)
        }
    }
}
