//! How a request has the service read its configuration again.
use lists::{Plain, Text};
use std::alloc::{AllocError, Global};
use std::mem;
use std::sync::{Mutex, Wait};
use tokio::sync::oneshot;
use tokio::sync::oneshot::{Receiver, Sender};

const CLOSED: &str =
    "The service ends, or is just renewed and reads its configuration at once: ask again to be told.\n";

/// How a request has the service read its configuration again: it is told what became of it once the service has done so.
#[derive(Drop)]
pub struct Reloading {
    alloc: Global,
    talk: Mutex<Talk>,
}

#[derive(Drop)]
struct Talk {
    /// Whether there is a request that is not answered.
    is_asked: bool,
    /// Whether the service answers.
    is_open: bool,
    waiting: Vec<Sender<Result<Text, Text>>>,
}

/// What somebody is told whom nobody answers.
pub fn unanswered(alloc: Global) -> Result<Text, AllocError> {
    Text::from_str(alloc, CLOSED)
}

impl Reloading {
    pub(crate) fn new(alloc: Global) -> Reloading {
        Reloading {
            alloc,
            talk: Mutex::new(Talk {
                is_asked: false,
                is_open: false,
                waiting: Vec::new(alloc),
            }),
        }
    }

    /// Has the configuration read again, and gives who will give the line that tells what it changes, or the line that tells why it is
    /// not taken. Where he gives none, nobody answers.
    pub fn ask(&self, rt: &impl Wait) -> Result<Receiver<Result<Text, Text>>, AllocError> {
        let (teller, told) = oneshot::channel(self.alloc)?;
        let mut talk = self.talk.lock(rt);
        talk.is_asked = true;
        if talk.is_open {
            talk.waiting.push(teller)?;
        }
        Ok(told)
    }

    /// Whether somebody asks for the configuration to be read again.
    pub fn is_asked(&self, rt: &impl Wait) -> bool {
        self.talk.lock(rt).is_asked
    }

    /// Tells all who wait by a line what the configuration changes, or why it is not taken.
    pub fn answer(&self, rt: &impl Wait, outcome: Result<Text, Text>) {
        for teller in self.answered(rt) {
            // Where there is no memory, he is told that nobody answers.
            if let Ok(told) = copied(&outcome) {
                let _ = teller.send(told);
            }
        }
    }

    /// What was asked is answered. Gives all who wait for it.
    fn answered(&self, rt: &impl Wait) -> Vec<Sender<Result<Text, Text>>> {
        let mut talk = self.talk.lock(rt);
        talk.is_asked = false;
        mem::replace(&mut talk.waiting, Vec::new(self.alloc))
    }

    /// From now on there is somebody who answers.
    pub fn open(&self, rt: &impl Wait) {
        self.talk.lock(rt).is_open = true;
    }

    /// From now on nobody answers, and nobody waits.
    pub fn close(&self, rt: &impl Wait) {
        let mut talk = self.talk.lock(rt);
        talk.is_open = false;
        talk.waiting.clear();
    }
}

fn copied(outcome: &Result<Text, Text>) -> Result<Result<Text, Text>, AllocError> {
    match outcome {
        Ok(changes) => Ok(Ok(changes.copy()?)),
        Err(fault) => Ok(Err(fault.copy()?)),
    }
}
