//! The allocator that a journal in etcd leads to.
ghost use Rattle.std.specs.Prelude.{◌≡◌, IfOk, Some};
ghost use Rattle.journal_files.specs.Opening.{IsBegunAs, IsBegunWith, IsNextOf};
ghost use Rattle.journal_files.specs.Starting.{asked_by};
ghost use Rattle.etcd_archive.specs.Opening.{IsOpenedFrom};

use crate::archive::EtcdArchive;
use crate::device::EtcdDevice;
use command_faults::Fault;
use durable_journal::{Archive, Device, FirstLine};
use etcd_journal::EtcdJournal;
use etcd_turns::Etcd;
use journal_files::{
    Journal, Next, Opened, Start, Wanted, Written, log_read, log_replaced, opened_with,
    read_journal,
};
use std::alloc::{AllocError, Global};
use std::io;
use std::io::Write;
use std::sync::Wait;
use std::time::Clock;

/// An allocator with its journal in etcd.
#[derive(Drop)]
pub struct Began<R, E> {
    pub opened: Opened<EtcdDevice<R, E>>,
    pub archive: EtcdArchive<R, E>,
}

/// Why there is no allocator.
#[derive(Drop)]
pub enum NotOpened {
    /// Another instance leads, or may.
    Deposed,
    Fault(Fault),
}

/// The allocator that a journal which was opened in etcd leads to, under what is wanted. Where it has other jobs than those it is renewed under these, and another
/// epoch begins. A new journal begins with the line that is wanted. The name is that of the journal, as it is told.
pub fn open_allocator<R, E>(
    rt: &R,
    alloc: Global,
    name: &str,
    stood: etcd_journal::Opened<E>,
    wanted: Wanted<'_>,
) -> Result<Began<R, E>, NotOpened>
where
    R: Wait + Clock + Eprint + Copy + Drop,
    E: Etcd + Drop,
    ensures { IfOk result (λ b. IsOpenedFrom ⟦<EtcdDevice<R, E> as Device>⟧.tells ⟦<EtcdDevice<R, E> as Write>⟧.contents (asked_by wanted.entry) stood.lines b.opened) }
{
    let etcd_journal::Opened { journal, lines } = stood;
    match archive_of(rt, alloc, journal) {
        Ok((archive, device)) => open_in(
            rt,
            alloc,
            name,
            archive,
            device,
            lines.as_slice(),
            wanted,
        ),
        Err(error) => Err(NotOpened::Fault(error.into())),
    }
}

/// The archive of a journal, and the device of the epoch that goes on.
fn archive_of<R: Copy, E: Drop>(
    rt: &R,
    alloc: Global,
    journal: EtcdJournal<E>,
) -> Result<(EtcdArchive<R, E>, EtcdDevice<R, E>), AllocError> {
    let going = journal.seat.going;
    let archive = EtcdArchive::of(*rt, alloc, journal)?;
    match archive.device(Some(going)) {
        Ok(device) => Ok((archive, device)),
        Err(error) => {
            drop(archive);
            Err(error)
        }
    }
}

/// The allocator that the lines of an archive's journal lead to. Where the archive's instance leads no more, that is why there is none.
fn open_in<R, E>(
    rt: &R,
    alloc: Global,
    name: &str,
    archive: EtcdArchive<R, E>,
    device: EtcdDevice<R, E>,
    lines: &[u8],
    wanted: Wanted<'_>,
) -> Result<Began<R, E>, NotOpened>
where
    R: Wait + Clock + Eprint + Copy + Drop,
    E: Etcd + Drop,
    ensures { IfOk result (λ b. IsOpenedFrom ⟦<EtcdDevice<R, E> as Device>⟧.tells ⟦<EtcdDevice<R, E> as Write>⟧.contents (asked_by wanted.entry) lines.now b.opened) }
{
    let mut archive = archive;
    match opened(rt, alloc, name, &mut archive, device, lines, wanted) {
        Ok(opened) => Ok(Began { opened, archive }),
        Err(fault) => {
            let is_over = archive.is_over();
            drop(archive);
            Err(not_opened(is_over, fault))
        }
    }
}

/// What ended an instance that leads no more is of no account.
fn not_opened(is_over: bool, fault: Fault) -> NotOpened {
    if is_over {
        drop(fault);
        return NotOpened::Deposed;
    }
    NotOpened::Fault(fault)
}

/// The allocator that the lines of a journal lead to, whose file this is, and whose next one is begun in this archive.
fn opened<R: Clock + Eprint + Copy, F: Device + Drop, A: Archive<F>>(
    rt: &R,
    alloc: Global,
    name: &str,
    archive: &mut A,
    file: F,
    lines: &[u8],
    wanted: Wanted<'_>,
) -> Result<Opened<F>, Fault>
    ensures { IfOk result (IsOpenedFrom F.tells F.contents (asked_by wanted.entry) lines.now) }
{
    let mut unread = lines;
    match read_journal(alloc, name, &mut unread, wanted) {
        Ok(start) => begin(rt, archive, file, start),
        Err(fault) => {
            drop(file);
            Err(fault)
        }
    }
}

/// The allocator of a start, with the file that is written from now on.
fn begin<R: Clock + Eprint + Copy, F: Device + Drop, A: Archive<F>>(
    rt: &R,
    archive: &mut A,
    file: F,
    start: Start,
) -> Result<Opened<F>, Fault>
    ensures { IfOk result (IsBegunAs F.tells F.contents start) }
{
    let Start {
        core,
        past,
        journal,
    } = start;
    let written = next_file(rt, archive, file, &journal);
    drop(journal);
    opened_with(core, past, written)
}

/// The file that is written from now on, of a journal that was read.
fn next_file<R: Clock + Eprint + Copy, F: Device + Drop, A: Archive<F>>(
    rt: &R,
    archive: &mut A,
    file: F,
    journal: &Journal,
) -> io::Result<Written<F>>
    ensures { IfOk result (λ w. IsNextOf F.tells F.contents journal.now journal.now.next w.file w.bytes w.chain) }
{
    match &journal.next {
        Next::Begins(first) => begun(archive, file, first),
        Next::GoesOn(events) => {
            log_read(rt, *events);
            Ok(Written {
                file,
                bytes: journal.whole,
                chain: journal.chain,
            })
        }
        Next::IsReplaced(first) => {
            log_replaced(rt);
            begun(archive, file, first)
        }
    }
}

/// The file of the next journal, which begins with this line. The one that was read stays until then.
fn begun<F: Device + Drop, A: Archive<F>>(
    archive: &mut A,
    file: F,
    first: &FirstLine,
) -> io::Result<Written<F>>
    ensures { IfOk result (λ w. IsBegunWith F.tells F.contents first.now w.file w.bytes w.chain) }
{
    let next = archive.begin(first);
    drop(file);
    match next {
        Ok(next) => Ok(Written::begun(next)),
        Err(error) => Err(error),
    }
}
