//! The file of the journal, and the allocator to begin with.
ghost use Rattle.std.specs.Prelude.{◌≡◌, IfOk, IsSome, Some, map};
ghost use Rattle.replay_lines.specs.Configurations.{spec_of};
ghost use Rattle.sd_documents.specs.Config.{job_data};
ghost use Rattle.journal_files.specs.Opening.{AllocatorOf, IsBegunAs, IsBegunWith, IsNextOf, IsOpened};
ghost use Rattle.journal_files.specs.Starting.{asked_by};

use crate::disk::Disk;
use crate::journals::{Journals, end_renewal, lock_file, open_journal, sync_folder};
use crate::names::NamedCollector;
use crate::reading::{Journal, Next, Start, Wanted, configured, read_journal};
use crate::written::{Written, log_read, log_replaced, opened_with};
use allocation_core::Core;
use command_faults::Fault;
use durable_journal::{Device, FirstLine, next_epoch};
use log::warn;
use logfmt::Logfmt;
use sd_documents::Job;
use sealed_lines::Chain;
use std::alloc::{AllocGlobal, Global};
use std::fs::{File, OpenFile};
use std::io::Write;
use std::rt::Files;
use std::time::Clock;
use std::{fs, io};

/// An allocator, and the file of its journal where it has one.
#[derive(Drop)]
pub struct Opened<D> {
    pub core: Core,
    /// The epoch in which its numbers mean what they mean.
    pub epoch: u64,
    /// The names that its collectors have or had. Only of those of its journal it is known.
    pub names: Vec<NamedCollector>,
    pub file: Option<D>,
    /// How many bytes its journal has.
    pub bytes: u64,
    /// The digest of the journal's last line, where its lines have digests.
    pub chain: Option<Chain>,
}

/// The allocator that the last of the journals leads to, under these jobs of a configuration. Where it has other jobs it is renewed under
/// these, and another journal begins. A new journal begins with this line of the configuration, and so does an allocator without one. A round
/// is so many milliseconds long.
pub fn open_allocator<R: Files<File = File> + AllocGlobal + Clock + Eprint + Copy + Drop>(
    journals: &Journals<R>,
    line: &str,
    jobs: &[Job],
    round: u64,
) -> Result<Opened<Disk>, Fault>
    ensures allocator { IfOk result (AllocatorOf ⟦<Disk as Device>⟧.tells ⟦<Disk as Write>⟧.contents line.now (map spec_of (map job_data jobs.now))) }
    ensures file { IfOk result (λ o. IsSome journals.now.path → IsSome o.file) }
{
    let epoch = next_epoch(&journals.rt, 0);
    match journals.path() {
        Some(path) => open_at(
            journals,
            path,
            Wanted {
                line,
                jobs,
                epoch,
                round,
            },
        ),
        None => Ok(Opened {
            core: configured(journals.alloc, line.as_bytes())?,
            epoch,
            names: Vec::new(journals.alloc),
            file: None,
            bytes: 0,
            chain: None,
        }),
    }
}

fn open_at<R: Files<File = File> + AllocGlobal + Clock + Eprint + Copy + Drop>(
    journals: &Journals<R>,
    path: &str,
    wanted: Wanted<'_>,
) -> Result<Opened<Disk>, Fault>
    ensures opened { IfOk result (IsOpened ⟦<Disk as Device>⟧.tells ⟦<Disk as Write>⟧.contents (asked_by wanted.entry)) }
    ensures file { IfOk result (λ o. IsSome o.file) }
{
    let mut file = own_journal(&journals.rt, journals.alloc, path)?;
    match read_journal(journals.alloc, path, &mut file, wanted) {
        Ok(start) => begin(journals, path, file, start),
        Err(fault) => Err(fault),
    }
}

/// The file of the journal at a path, which no other service has.
fn own_journal<R: Files<File = File>>(rt: &R, alloc: Global, path: &str) -> Result<File, Fault> {
    if !fs::exists(rt, path)? {
        end_renewal(rt, alloc, path)?;
    }
    let file = open_journal(rt, path)?;
    match own_file(rt, alloc, path, &file) {
        Ok(()) => Ok(file),
        Err(fault) => Err(fault),
    }
}

fn own_file<R: Files<File = File>>(
    rt: &R,
    alloc: Global,
    path: &str,
    file: &File,
) -> Result<(), Fault> {
    lock_file(alloc, path, file)?;
    end_renewal(rt, alloc, path)
}

/// The allocator of a start, with the file that is written from now on.
fn begin<R: Files<File = File> + AllocGlobal + Clock + Eprint + Copy + Drop>(
    journals: &Journals<R>,
    path: &str,
    file: File,
    start: Start,
) -> Result<Opened<Disk>, Fault>
    ensures opened { IfOk result (IsBegunAs ⟦<Disk as Device>⟧.tells ⟦<Disk as Write>⟧.contents start) }
    ensures file { IfOk result (λ o. IsSome o.file) }
{
    let Start {
        core,
        past,
        journal,
    } = start;
    let written = next_file(journals, path, file, &journal);
    drop(journal);
    opened_with(core, past, written)
}

/// The file that is written from now on. The one that was read stays locked until then.
fn next_file<R: Files<File = File> + AllocGlobal + Clock + Eprint + Copy + Drop>(
    journals: &Journals<R>,
    path: &str,
    file: File,
    journal: &Journal,
) -> io::Result<Written<Disk>>
    ensures { IfOk result (λ w. IsNextOf ⟦<Disk as Device>⟧.tells ⟦<Disk as Write>⟧.contents journal.now journal.now.next w.file w.bytes w.chain) }
{
    cut(&journals.rt, &file, journal)?;
    match &journal.next {
        Next::Begins(first) => begun(journals, path, file, first),
        Next::GoesOn(events) => {
            log_read(&journals.rt, *events);
            Ok(Written {
                file: Disk::new(file),
                bytes: journal.whole,
                chain: journal.chain,
            })
        }
        Next::IsReplaced(first) => replaced(journals, path, first),
    }
}

/// The file of a journal that takes the place of the last one and begins with this line.
fn replaced<R: Files<File = File> + AllocGlobal + Clock + Eprint + Copy + Drop>(
    journals: &Journals<R>,
    path: &str,
    first: &FirstLine,
) -> io::Result<Written<Disk>>
    ensures { IfOk result (λ w. IsBegunWith ⟦<Disk as Device>⟧.tells ⟦<Disk as Write>⟧.contents first.now w.file w.bytes w.chain) }
{
    let begun = journals.change(path, first)?;
    log_replaced(&journals.rt);
    Ok(Written::begun(begun))
}

/// The file of a journal that begins with this line.
fn begun<R: Files<File = File>>(
    journals: &Journals<R>,
    path: &str,
    file: File,
    first: &FirstLine,
) -> io::Result<Written<Disk>>
    ensures { IfOk result (λ w. IsBegunWith ⟦<Disk as Device>⟧.tells ⟦<Disk as Write>⟧.contents first.now w.file w.bytes w.chain) }
{
    let begun = first.begin(journals.alloc, Disk::new(file))?;
    match sync_folder(&journals.rt, path) {
        Ok(()) => Ok(Written::begun(begun)),
        Err(error) => Err(error),
    }
}

/// Cuts off the torn line at the end of a journal.
fn cut<R: Clock + Eprint + Copy>(rt: &R, file: &File, journal: &Journal) -> io::Result<()> {
    if journal.torn > 0 {
        file.set_len(journal.whole)?;
        log_cut(rt, journal.torn);
    }
    Ok(())
}

fn log_cut<R: Clock + Eprint + Copy>(rt: &R, bytes: usize) {
    warn!(Logfmt(*rt); bytes; "a torn line at the end of the journal is cut off");
}
