//! The epochs of an allocator's journal in etcd.
use crate::device::EtcdDevice;
use durable_journal::{Archive, Begun, FirstLine};
use etcd_journal::{EtcdJournal, Leads};
use etcd_turns::Etcd;
use std::alloc::{AllocError, Global};
use std::io;
use std::sync::{Arc, Mutex, Wait};

/// The epochs of an allocator's journal in etcd, of an instance that leads. Nobody else can write there as long as it does.
#[derive(Drop)]
pub struct EtcdArchive<R, E> {
    rt: R,
    alloc: Global,
    journal: Arc<Mutex<EtcdJournal<E>>>,
}

impl<R: Copy, E: Drop> EtcdArchive<R, E> {
    /// That of a journal that is opened.
    pub(crate) fn of(
        rt: R,
        alloc: Global,
        journal: EtcdJournal<E>,
    ) -> Result<EtcdArchive<R, E>, AllocError> {
        let journal = Arc::new(alloc, Mutex::new(journal))?;
        Ok(EtcdArchive { rt, alloc, journal })
    }

    /// The device of an epoch, or of the next one.
    pub(crate) fn device(&self, epoch: Option<u32>) -> Result<EtcdDevice<R, E>, AllocError> {
        let journal = Arc::try_clone(&self.journal)?;
        Ok(EtcdDevice::of(self.rt, journal, epoch, Vec::new(self.alloc)))
    }
}

impl<R: Wait, E: Etcd> EtcdArchive<R, E> {
    /// Whether this instance leads no more, so that nothing is kept ever more.
    pub fn is_over(&self) -> bool {
        self.journal.lock(&self.rt).is_over()
    }
}

impl<R: Wait + Copy + Drop, E: Etcd + Drop> Archive<EtcdDevice<R, E>> for EtcdArchive<R, E> {
    fn begin(&mut self, first: &FirstLine) -> io::Result<Begun<EtcdDevice<R, E>>> {
        let next = self.device(None)?;
        first.begin(self.alloc, next)
    }
}
