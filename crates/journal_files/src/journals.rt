//! The journals of an allocator on disk: the one that is written, and beside it the old ones by number.
//!
//! A journal begins as `PATH.next`. Once it is on the device the last journal becomes `PATH.N`, and then the new one takes its place. So
//! whenever the machine stops, there is `PATH`, or else `PATH.next` is whole. Meanwhile nobody else has them: they are his who has the
//! lock of `PATH.lock`, which keeps its name.
ghost use Rattle.std.specs.Prelude.{◌≡◌, IfOk, IsSome};
ghost use Rattle.durable_journal.specs.Beginnings.{IsBegunAnew};

use crate::disk::Disk;
use crate::guarding::{check_file, goal_of};
use command_faults::Fault;
use durable_journal::{Archive, Begun, Device, FirstLine};
use std::alloc::{AllocError, AllocGlobal, Global};
use std::fs::{DirEntry, File, OpenOptions};
use std::io::Write;
use std::os::unix::fs::OpenOptionsExt;
use std::path::Path;
use std::rt::Files;
use std::{fs, io};

/// What a file of a journal is made with: only its owner reads and writes it, since a configuration may hold passwords.
const OWNERS_ALONE: u32 = 0o600;

/// The journals of an allocator, which nobody else has as long as these are there.
#[derive(Drop)]
pub struct Journals<R> {
    pub(crate) rt: R,
    pub(crate) alloc: Global,
    /// That of the one that is written, where the allocator has one.
    path: Option<String>,
    /// How many old ones are kept, or all.
    keep: Option<u32>,
    _lock: Option<File>,
}

impl<R: Files<File = File> + AllocGlobal + Clone + Drop> Journals<R> {
    /// The journals at a path, of which so many old ones are kept, or all. An allocator without a path has none. Where the path names a
    /// symbolic link they are beside its goal. A file there that is no journal is refused before anything is made beside it.
    pub fn open(
        rt: R,
        alloc: Global,
        path: Option<String>,
        keep: Option<u32>,
    ) -> Result<Journals<R>, Fault> {
        let Some(path) = path else {
            return Ok(Journals::locked(rt, alloc, None, keep, None));
        };
        let path = goal_of(&rt, alloc, path)?;
        match lock_journals(&rt, alloc, path.as_str()) {
            Ok(lock) => Ok(Journals::locked(rt, alloc, Some(path), keep, Some(lock))),
            Err(fault) => Err(fault),
        }
    }
}

impl<R> Journals<R> {
    fn locked(
        rt: R,
        alloc: Global,
        path: Option<String>,
        keep: Option<u32>,
        lock: Option<File>,
    ) -> Journals<R> {
        Journals {
            rt,
            alloc,
            path,
            keep,
            _lock: lock,
        }
    }
}

impl<R> Journals<R> {
    /// The path of the journal that is written.
    pub(crate) fn path(&self) -> Option<&str>
        ensures { IsSome self.now.path → IsSome result }
    {
        match &self.path {
            Some(path) => Some(path.as_str()),
            None => None,
        }
    }
}

impl<R: Files<File = File> + AllocGlobal + Clone + Drop> Journals<R> {
    /// Begins the next journal with this line and puts it in the place of the last one, which is at this path.
    pub(crate) fn change(&self, path: &str, first: &FirstLine) -> io::Result<Begun<Disk>>
        ensures form { IfOk result (IsBegunAnew ⟦<Disk as Device>⟧.tells ⟦<Disk as Write>⟧.contents first.now) }
        ensures kept { IfOk result (λ b. ⟦<Disk as Device>⟧.kept b.file ≡ ⟦<Disk as Write>⟧.contents b.file) }
    {
        let next = next_path(self.alloc, path)?;
        self.change_to(path, next.as_str(), first)
    }

    /// Begins the next journal at a path of its own.
    fn change_to(&self, path: &str, next: &str, first: &FirstLine) -> io::Result<Begun<Disk>>
        ensures form { IfOk result (IsBegunAnew ⟦<Disk as Device>⟧.tells ⟦<Disk as Write>⟧.contents first.now) }
        ensures kept { IfOk result (λ b. ⟦<Disk as Device>⟧.kept b.file ≡ ⟦<Disk as Write>⟧.contents b.file) }
    {
        let begun = begin_next(&self.rt, self.alloc, next, first)?;
        match self.put_in_place(path, next) {
            Ok(()) => Ok(begun),
            Err(error) => Err(error),
        }
    }

    /// Puts the next journal in the place of the last one, which becomes the newest of the old ones.
    fn put_in_place(&self, path: &str, next: &str) -> io::Result<()> {
        let number = newest(&self.rt, path)?.saturating_add(1);
        self.make_old(path, number)?;
        fs::rename(&self.rt, next, path)?;
        sync_folder(&self.rt, path)?;
        self.forget(path, number)
    }

    fn make_old(&self, path: &str, number: u32) -> io::Result<()> {
        let old = old_path(self.alloc, path, number)?;
        fs::rename(&self.rt, path, old.as_str())
    }

    /// Removes the old journals that are not kept, where this is the number of the newest.
    fn forget(&self, path: &str, newest: u32) -> io::Result<()> {
        let Some(keep) = self.keep else {
            return Ok(());
        };
        for number in (1..=newest.saturating_sub(keep)).rev() {
            if !self.remove_old(path, number)? {
                return Ok(());
            }
        }
        Ok(())
    }

    /// Removes an old journal, and says whether there was one of this number.
    fn remove_old(&self, path: &str, number: u32) -> io::Result<bool> {
        let old = old_path(self.alloc, path, number)?;
        removed(&self.rt, old.as_str())
    }
}

impl<R: Files<File = File> + AllocGlobal + Clone + Drop> Archive<Disk> for Journals<R> {
    fn begin(&mut self, first: &FirstLine) -> io::Result<Begun<Disk>> {
        match self.path() {
            Some(path) => self.change(path, first),
            None => Err(io::ErrorKind::NotFound.into()),
        }
    }
}

/// Removes a file, and says whether there was one.
fn removed<R: Files<File = File>>(rt: &R, path: &str) -> io::Result<bool> {
    if !fs::exists(rt, path)? {
        return Ok(false);
    }
    fs::remove_file(rt, path)?;
    Ok(true)
}

/// Locks the journals at a path for whoever has the file that it gives, unless what is there is no journal.
fn lock_journals<R: Files<File = File>>(rt: &R, alloc: Global, path: &str) -> Result<File, Fault> {
    check_file(rt, alloc, path)?;
    let lock = format!(in alloc; "{path}.lock")?;
    let file = open_journal(rt, lock.as_str());
    locked(alloc, path, file)
}

/// The file, once it is locked.
fn locked(alloc: Global, path: &str, file: io::Result<File>) -> Result<File, Fault> {
    let file = file?;
    match lock_file(alloc, path, &file) {
        Ok(()) => Ok(file),
        Err(fault) => Err(fault),
    }
}

/// Locks a file of the journals at a path, or says that another service has it.
pub(crate) fn lock_file(alloc: Global, path: &str, file: &File) -> Result<(), Fault> {
    if file.try_lock().is_err() {
        let line = format!(in alloc; "{path}: another service has this journal")?;
        return Err(Fault::Told(line));
    }
    Ok(())
}

/// Opens the file of a journal to read it and to write at its end.
pub(crate) fn open_journal<R: Files<File = File>>(rt: &R, path: &str) -> io::Result<File> {
    OpenOptions::new()
        .read(true)
        .append(true)
        .create(true)
        .mode(OWNERS_ALONE)
        .open(rt, path)
}

/// Begins the next journal, which nobody else may have, with this line.
fn begin_next<R: Files<File = File>>(
    rt: &R,
    alloc: Global,
    next: &str,
    first: &FirstLine,
) -> io::Result<Begun<Disk>>
    ensures form { IfOk result (IsBegunAnew ⟦<Disk as Device>⟧.tells ⟦<Disk as Write>⟧.contents first.now) }
    ensures kept { IfOk result (λ b. ⟦<Disk as Device>⟧.kept b.file ≡ ⟦<Disk as Write>⟧.contents b.file) }
{
    let file = open_journal(rt, next)?;
    match empty(&file) {
        Ok(()) => first.begin(alloc, Disk::new(file)),
        Err(error) => Err(error),
    }
}

/// Empties a file that nobody else may have.
fn empty(file: &File) -> io::Result<()> {
    if file.try_lock().is_err() {
        return Err(io::ErrorKind::ResourceBusy.into());
    }
    file.set_len(0)
}

/// The greatest number of an old journal of the one at a path, or 0.
fn newest<R: Files<File = File> + AllocGlobal + Clone + Drop>(
    rt: &R,
    path: &str,
) -> io::Result<u32> {
    let Some(name) = Path::new(path).file_name() else {
        return Ok(0);
    };
    let mut newest = 0;
    for entry in fs::read_dir(rt, folder_of(path))? {
        newest = newest.max(number_in(entry, name)?);
    }
    Ok(newest)
}

/// The number of an entry, where it is an old journal of this one, or else 0.
fn number_in<R: Files + Drop>(entry: io::Result<DirEntry<R>>, journal: &str) -> io::Result<u32> {
    match entry {
        Ok(entry) => Ok(number_of(entry.file_name(), journal).unwrap_or(0)),
        Err(error) => Err(error),
    }
}

/// Ends what a service began that was to take another journal and ended in the midst. The caller has the journal at the path alone, if
/// there is one. A file in its place that no service began is refused.
pub(crate) fn end_renewal<R: Files<File = File>>(
    rt: &R,
    alloc: Global,
    path: &str,
) -> Result<(), Fault> {
    let next = next_path(alloc, path)?;
    end_next(rt, alloc, path, next.as_str())
}

fn end_next<R: Files<File = File>>(
    rt: &R,
    alloc: Global,
    path: &str,
    next: &str,
) -> Result<(), Fault> {
    if !fs::exists(rt, next)? {
        return Ok(());
    }
    check_file(rt, alloc, next)?;
    put_or_remove(rt, path, next)?;
    Ok(())
}

/// The next journal takes the place of the last one, or goes where that is there still.
fn put_or_remove<R: Files<File = File>>(rt: &R, path: &str, next: &str) -> io::Result<()> {
    if fs::exists(rt, path)? {
        fs::remove_file(rt, next)?;
    } else {
        fs::rename(rt, next, path)?;
    }
    sync_folder(rt, path)
}

fn next_path(alloc: Global, path: &str) -> Result<String, AllocError> {
    format!(in alloc; "{path}.next")
}

fn old_path(alloc: Global, path: &str, number: u32) -> Result<String, AllocError> {
    format!(in alloc; "{path}.{number}")
}

/// The number of the old journal of a name, if it is one of this journal.
fn number_of(name: &str, journal: &str) -> Option<u32> {
    name.strip_prefix(journal)?.strip_prefix('.')?.parse().ok()
}

/// Has the device keep the names in a file's folder.
pub(crate) fn sync_folder<R: Files<File = File>>(rt: &R, path: &str) -> io::Result<()> {
    File::open(rt, folder_of(path))?.sync_all()
}

fn folder_of(path: &str) -> &str {
    match Path::new(path).parent() {
        Some(parent) if !parent.as_str().is_empty() => parent.as_str(),
        _ => ".",
    }
}
