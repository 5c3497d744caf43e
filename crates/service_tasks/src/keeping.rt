//! The thread that keeps the journal in a file.
ghost use Rattle.kept_journal.specs.Written.{AreNews};

use crate::logging::{log_error_of, log_warning};
use crate::shared::Shared;
use alloc_desk::Pass;
use durable_journal::Device;
use kept_journal::{DeskJournal, JournalName, Kept, News};
use std::alloc::AllocError;
use std::sync::Wait;
use std::sync::atomic::{AtomicBool, Ordering};
use std::sync::ledger::Ledger;
use std::time::{Clock, Duration, Instant};
use std::{io, thread};

/// How long the thread waits at most for somebody who waits for an entry, in milliseconds.
const LOOK: u64 = 50;

/// What became of a turn of the thread that keeps the journal.
enum Turn {
    /// So many entries were written.
    Wrote(usize),
    /// There was no memory to write some.
    NoMemory,
}

impl<R: Wait + Clock + Eprint + Copy, L: Ledger, B: Ledger, N: JournalName> Shared<R, L, B, N> {
    /// Keeps the journal, where there is a file for it, until all others have ended.
    pub fn keep<F: Device>(
        &self,
        pass: &mut Pass<L, B, N>,
        journal: &mut Option<DeskJournal<F, N>>,
        is_last: &AtomicBool,
    ) {
        if let (Some(journal), Some(kept)) = (journal, &self.kept) {
            if !journal.file().is_broken() {
                self.keep_journal(pass, journal, kept, is_last);
            }
        }
    }

    /// All others have ended, so the thread that keeps the journal need not look whether they have.
    pub fn wake_keeper(&self) {
        if let Some(kept) = &self.kept {
            kept.wake(&self.rt);
        }
    }

    /// Writes what is new in the journal, until all others have ended or the device fails. What finds no memory is tried again. A device in which nothing would be
    /// found is noticed though nothing is new: what is told would be of a journal that nobody goes on with.
    fn keep_journal<F: Device>(
        &self,
        pass: &mut Pass<L, B, N>,
        journal: &mut DeskJournal<F, N>,
        kept: &Kept<N>,
        is_last: &AtomicBool,
    ) {
        let mut is_begun = false;
        for _ in self.rt.forever() {
            let is_last = is_last.load(Ordering::SeqCst);
            match self.keep_more(pass, journal, kept, is_begun) {
                Ok(Turn::Wrote(0)) if is_last => return,
                Ok(Turn::Wrote(0)) => {
                    is_begun = true;
                    if let Err(error) = journal.check() {
                        return self.give_up(journal, kept, error);
                    }
                    kept.wait_for_wish(&self.rt, Duration::from_millis(LOOK));
                }
                Ok(Turn::Wrote(_)) => is_begun = true,
                Ok(Turn::NoMemory) if is_last => {
                    return self.give_up(journal, kept, AllocError.into());
                }
                Ok(Turn::NoMemory) => self.wait_for_memory(),
                Err(error) => return self.give_up(journal, kept, error),
            }
        }
    }

    /// Writes what is new.
    fn keep_more<F: Device>(
        &self,
        pass: &mut Pass<L, B, N>,
        journal: &mut DeskJournal<F, N>,
        kept: &Kept<N>,
        is_begun: bool,
    ) -> io::Result<Turn> {
        match journal.news(&self.rt, &self.desk, pass, self.alloc) {
            Ok(news) => {
                let entries = news.entries();
                let written = self.keep_news(journal, kept, &news, is_begun);
                drop(news);
                match written {
                    Ok(()) => Ok(Turn::Wrote(entries)),
                    Err(error) => Err(error),
                }
            }
            Err(AllocError) => Ok(Turn::NoMemory),
        }
    }

    /// Writes these lines, where there are any, and tells who waits. At first the device is to keep what the file had before.
    fn keep_news<F: Device>(
        &self,
        journal: &mut DeskJournal<F, N>,
        kept: &Kept<N>,
        news: &News,
        is_begun: bool,
    ) -> io::Result<()>
        requires { AreNews journal.old news.now }
    {
        if is_begun && news.entries() == 0 {
            return Ok(());
        }
        kept.begin(&self.rt);
        let begun = Instant::now(&self.rt).ok();
        let written = journal.write(news);
        if news.bytes() > 0 {
            self.state.count_write(&self.rt, begun);
        }
        let durable = written?;
        self.state.count_written(news.bytes());
        self.is_long
            .store(journal.file().is_long(), Ordering::SeqCst);
        kept.keep(&self.rt, durable);
        Ok(())
    }

    /// Nothing is written until there is memory.
    fn wait_for_memory(&self) {
        log_warning(&self.rt, "no memory to write the journal, tried again");
        thread::sleep(&self.rt, Duration::from_millis(LOOK));
    }

    /// The device failed: nothing is kept any more.
    fn give_up<F: Device>(
        &self,
        journal: &mut DeskJournal<F, N>,
        kept: &Kept<N>,
        error: io::Error,
    ) {
        log_error_of(&self.rt, "the journal cannot be written", &error);
        journal.break_down();
        self.state.break_down();
        kept.fail(&self.rt);
    }
}
