//! A device over memory, for tests.
ghost use Rattle.std.specs.Prelude.{◌≡◌, ◌++◌, ◌∷◌, [], drop, OnOk, OnErr};
ghost use Rattle.http_get.specs.Scripts.{next_reply};

use crate::get::Get;
use crate::reply::{FetchFault, Reply};
use crate::scrape::{Scrape, failures_after};
use lists::{List, Plain};
use std::alloc::{AllocError, Global};
use std::collections::VecDeque;
use std::marker::Model;

/// A device that answers what it was given, in order, and then `Device` for ever. It notes what it is asked. Contracts see
/// what is left to answer, what was asked, and how often it came to `Device`.
#[derive(Drop)]
pub struct Script {
    replies: VecDeque<Result<Reply, FetchFault>>,
    asked: List<Get>,
    failures: u64,
}

impl Model for Script {
    ghost use Rattle.http_get.specs.Scripts.{ScriptState};

    ghost Value = { ScriptState };

    ghost view = { λ s. record { replies = s.replies.items; asked = s.asked; failures = s.failures } };
}

impl Script {
    /// The script that answers nothing. It takes no memory.
    pub fn new(alloc: Global) -> Script
        ensures { result ≡ record { replies = []; asked = []; failures = 0 } }
    {
        Script {
            replies: VecDeque::new(alloc),
            asked: List::new(alloc),
            failures: 0,
        }
    }

    /// Gives it one more answer.
    pub fn push(&mut self, reply: Result<Reply, FetchFault>) -> Result<(), AllocError>
        ensures ok { OnOk result (self.new ≡ record self.old { replies = self.old.replies ++ reply ∷ [] }) }
        ensures err { OnErr result (self.new ≡ self.old) }
    {
        self.replies.push_back(reply)?;
        Ok(())
    }

    /// What it was asked, in order.
    pub fn asked(&self) -> &[Get]
        ensures { result.now ≡ self.now.asked }
    {
        self.asked.as_slice()
    }
}

impl Scrape for Script {
    ghost use Rattle.http_get.specs.Scripts.{MayFetch};

    ghost may_fetch = { MayFetch };

    ghost failed = { λ s. s.failures };

    fn fetch(&mut self, get: &Get) -> Result<Reply, FetchFault> {
        if note(&mut self.asked, get).is_err() {
            return Err(FetchFault::Memory);
        }
        let reply = next_of(&mut self.replies);
        self.failures = failures_after(&reply, self.failures);
        reply
    }

    fn failures(&self) -> u64 {
        self.failures
    }
}

fn note(asked: &mut List<Get>, get: &Get) -> Result<(), AllocError>
    ensures ok { OnOk result (asked.new ≡ asked.old ++ get.now ∷ []) }
    ensures err { OnErr result (asked.new ≡ asked.old) }
{
    asked.push(get.copy()?)
}

/// The next answer, which goes.
fn next_of(replies: &mut VecDeque<Result<Reply, FetchFault>>) -> Result<Reply, FetchFault>
    ensures reply { result ≡ next_reply replies.old.items }
    ensures rest { replies.new.items ≡ drop 1 replies.old.items }
{
    match replies.pop_front() {
        Some(reply) => reply,
        None => Err(FetchFault::Device),
    }
}
