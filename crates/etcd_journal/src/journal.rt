//! The device.
ghost use Rattle.std.specs.Prelude.{◌≡◌, true, IfOk};
ghost use Rattle.etcd_turns.specs.Wishes.{Appended, Begun};

use crate::leading::Leads;
use durable_journal::Device;
use etcd_terms::Seat;
use etcd_turns::{Etcd, append, begin, forget, is_ours};
use lists::Text;
use std::alloc::{AllocError, Global};
use std::io;
use std::io::Write;

/// How many epochs are removed at most where another begins, beside the one that is kept no more.
const MOST_FORGOTTEN: u32 = 8;

/// A journal in etcd, of whoever leads. What is written to it is not asked to be kept before `keep`.
#[derive(Drop)]
pub struct EtcdJournal<E> {
    pub(crate) alloc: Global,
    /// What the journal's keys begin with, without the slash before it.
    pub prefix: Text,
    /// The text of the term that leads.
    pub term: Text,
    pub etcd: E,
    pub seat: Seat,
    /// What was written and is not kept yet.
    pub pending: Vec<u8>,
    /// How many epochs are kept that are over.
    pub(crate) kept_epochs: u32,
    /// The youngest epoch that whoever led before may have left, where more were kept then. 0 where there is none.
    pub(crate) left: u32,
}

impl<E: Etcd> EtcdJournal<E> {
    /// Has the pending bytes kept, and tells whether they are.
    fn append(&mut self) -> Result<bool, AllocError>
        ensures { IfOk result (λ kept. kept ≡ true → Appended E.may_post self.old.prefix self.old.term self.old.pending.items self.old.etcd self.old.seat self.new.etcd self.new.seat) }
    {
        append(
            self.alloc,
            self.prefix.as_str(),
            self.term.as_str(),
            &mut self.etcd,
            &mut self.seat,
            self.pending.as_slice(),
        )
    }

    /// Begins the next epoch with these bytes, and tells whether it goes on.
    fn begin_epoch(&mut self, first: &[u8]) -> Result<bool, AllocError>
        ensures { IfOk result (λ ok. ok ≡ true → Begun E.may_post self.old.prefix self.old.term first.now self.old.etcd self.old.seat self.new.etcd self.new.seat) }
    {
        begin(
            self.alloc,
            self.prefix.as_str(),
            self.term.as_str(),
            &mut self.etcd,
            &mut self.seat,
            first,
        )
    }

    /// Removes the youngest epoch that is not kept any more, and some of those that were left before it.
    fn forget_old(&mut self) -> Result<bool, AllocError> {
        let last = self.seat.going.saturating_sub(1);
        let old = last.saturating_sub(self.kept_epochs);
        if old == 0 {
            return Ok(true);
        }
        if !self.forget_epoch(old)? {
            return Ok(false);
        }
        self.left = self.left.min(old.saturating_sub(1));
        self.forget_left()
    }

    /// Removes some of the epochs that were left, the youngest first.
    fn forget_left(&mut self) -> Result<bool, AllocError> {
        for _ in 0..MOST_FORGOTTEN {
            let left = self.left;
            if left == 0 {
                return Ok(true);
            }
            if !self.forget_epoch(left)? {
                return Ok(false);
            }
            self.left = left.saturating_sub(1);
        }
        Ok(true)
    }

    fn forget_epoch(&mut self, epoch: u32) -> Result<bool, AllocError> {
        forget(
            self.alloc,
            self.prefix.as_str(),
            self.term.as_str(),
            &mut self.etcd,
            &mut self.seat,
            epoch,
        )
    }

    fn leads_still(&mut self) -> Result<bool, AllocError> {
        is_ours(
            self.alloc,
            self.prefix.as_str(),
            self.term.as_str(),
            &mut self.etcd,
            &mut self.seat,
        )
    }

    /// What is told where this instance leads no more, or there was no memory: nothing is kept any more.
    fn told(&mut self, done: Result<bool, AllocError>) -> io::Result<()> {
        match done {
            Ok(true) => Ok(()),
            Ok(false) => {
                self.seat.end();
                Err(io::ErrorKind::PermissionDenied.into())
            }
            Err(error) => {
                self.seat.end();
                Err(error.into())
            }
        }
    }
}

impl<E: Etcd> Write for EtcdJournal<E> {
    fn write(&mut self, buf: &[u8]) -> io::Result<usize> {
        self.pending.extend_from_slice(buf)?;
        Ok(buf.len())
    }

    fn flush(&mut self) -> io::Result<()> {
        Ok(())
    }
}

impl<E: Etcd> Device for EtcdJournal<E> {
    ghost use Rattle.std.specs.Prelude.{None, false};

    ghost tells = { false };

    ghost kept = { λ _. None };

    fn keep(&mut self) -> io::Result<()> {
        let kept = self.append();
        self.told(kept)?;
        self.pending.clear();
        Ok(())
    }

    /// Fails where this instance leads no more.
    fn check(&self) -> io::Result<()> {
        if self.is_over() {
            return Err(io::ErrorKind::PermissionDenied.into());
        }
        Ok(())
    }
}

impl<E: Etcd> Leads for EtcdJournal<E> {
    fn begin(&mut self, first: &[u8]) -> io::Result<()> {
        let begun = self.begin_epoch(first);
        self.told(begun)?;
        let forgot = self.forget_old();
        self.told(forgot)
    }

    fn is_ours(&mut self) -> io::Result<bool> {
        Ok(self.leads_still()?)
    }

    fn is_over(&self) -> bool {
        self.seat.is_over || !self.etcd.may_lead()
    }
}
