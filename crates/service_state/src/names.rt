//! The names under which lists were asked for.
use fleet_events::CollectorId;
use lists::{Plain, Text};
use std::alloc::{AllocError, Global};
use std::mem;

/// How many names of collectors are known at most. The one that was live first is forgotten for a further one.
pub(crate) const MOST_NAMES: usize = 4_096;

/// How many names are waiting at most to be looked at that nobody has who is live.
pub(crate) const MOST_ABSENT: usize = 64;

/// The names under which lists were asked for.
#[derive(Drop)]
pub(crate) struct Names {
    alloc: Global,
    /// Those of collectors that are live or were.
    live: Vec<LiveName>,
    /// Those that nobody had, since that was looked at.
    absent: Vec<Text>,
}

/// A name, and under which numbers it was live.
#[derive(Drop)]
struct LiveName {
    name: Text,
    /// The last number.
    id: CollectorId,
    /// The number before, where it joined anew.
    earlier: Option<CollectorId>,
    /// When a list was asked for under it last, in seconds since 1970. 0 where none was.
    asked: u64,
}

impl LiveName {
    /// It is live under this number. A number below the last one was told late.
    fn note(&mut self, id: CollectorId) {
        if id > self.id {
            self.earlier = Some(self.id);
            self.id = id;
        }
    }
}

impl Names {
    pub(crate) fn new(alloc: Global) -> Names {
        Names {
            alloc,
            live: Vec::new(alloc),
            absent: Vec::new(alloc),
        }
    }

    /// The live collector of this number has this name.
    pub(crate) fn note_live(&mut self, name: &str, id: CollectorId) -> Result<(), AllocError> {
        for known in &mut self.live {
            if known.name.as_str() == name {
                known.note(id);
                return Ok(());
            }
        }
        self.add(name, id)
    }

    /// The live collector of this number asked for a list under this name then, in seconds since 1970.
    pub(crate) fn note_asked(
        &mut self,
        name: &str,
        id: CollectorId,
        at: u64,
    ) -> Result<(), AllocError> {
        self.note_live(name, id)?;
        for known in &mut self.live {
            if known.id == id {
                known.asked = known.asked.max(at);
            }
        }
        Ok(())
    }

    /// A list was asked for then under a name that is known. Gives its last number.
    pub(crate) fn asked_again(&mut self, name: &str, at: u64) -> Option<CollectorId> {
        for known in &mut self.live {
            if known.name.as_str() == name {
                known.asked = known.asked.max(at);
                return Some(known.id);
            }
        }
        None
    }

    /// When lists were asked for last, by the last numbers of all names.
    pub(crate) fn asked(&self, alloc: Global) -> Result<Vec<(CollectorId, u64)>, AllocError> {
        let mut asked = Vec::with_capacity(alloc, self.live.len())?;
        for known in &self.live {
            asked.push((known.id, known.asked))?;
        }
        Ok(asked)
    }

    /// When a list was asked for last by the collector of a number, in seconds since 1970, if one was.
    pub(crate) fn last_asked(&self, id: CollectorId) -> Option<u64> {
        match self.live.iter().find(|known| known.id == id) {
            Some(known) if known.asked > 0 => Some(known.asked),
            _ => None,
        }
    }

    /// A name that is not known.
    fn add(&mut self, name: &str, id: CollectorId) -> Result<(), AllocError> {
        let name = Text::from_str(self.alloc, name)?;
        if self.live.len() >= MOST_NAMES {
            self.live.remove(0);
        }
        self.live.push(LiveName {
            name,
            id,
            earlier: None,
            asked: 0,
        })?;
        Ok(())
    }

    /// The last number under which a collector has this name, or had it.
    pub(crate) fn number_of(&self, name: &str) -> Option<CollectorId> {
        Some(self.known(name)?.id)
    }

    /// Whether a live collector has this name, or had it.
    pub(crate) fn was_live(&self, name: &str) -> bool {
        self.known(name).is_some()
    }

    /// The number before this one, where the name joined anew.
    pub(crate) fn earlier(&self, name: &str, id: CollectorId) -> Option<CollectorId> {
        let known = self.known(name)?;
        if known.id == id { known.earlier } else { None }
    }

    fn known(&self, name: &str) -> Option<&LiveName> {
        self.live.iter().find(|known| known.name.as_str() == name)
    }

    /// The names with their last numbers. The one that was live first stands first.
    pub(crate) fn all(&self, alloc: Global) -> Result<Vec<(Text, CollectorId)>, AllocError> {
        let mut names = Vec::with_capacity(alloc, self.live.len())?;
        match self.push_all(&mut names) {
            Ok(()) => Ok(names),
            Err(refused) => {
                drop(names);
                Err(refused)
            }
        }
    }

    fn push_all(&self, names: &mut Vec<(Text, CollectorId)>) -> Result<(), AllocError> {
        for known in self.live.iter() {
            names.push((known.name.copy()?, known.id))?;
        }
        Ok(())
    }

    /// Nobody has this name, and somebody asks under it.
    pub(crate) fn note_absent(&mut self, name: &str) -> Result<(), AllocError> {
        if self.absent.len() >= MOST_ABSENT || has_name(self.absent.as_slice(), name) {
            return Ok(());
        }
        let name = Text::from_str(self.alloc, name)?;
        self.absent.push(name)?;
        Ok(())
    }

    /// Those that nobody had, since this was asked.
    pub(crate) fn take_absent(&mut self) -> Vec<Text> {
        mem::replace(&mut self.absent, Vec::new(self.alloc))
    }
}

fn has_name(names: &[Text], name: &str) -> bool {
    names.iter().any(|one| one.as_str() == name)
}
