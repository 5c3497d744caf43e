//! A list that a connection keeps for itself, to tell it again.
ghost use Rattle.std.specs.Prelude.{◌≡◌, None, IfSome, true};
ghost use Rattle.std.specs.Arc.{arc_value};
ghost use Rattle.sd_server.specs.Says.{SaysHeld};

use crate::seen::Seen;
use crate::told_list::ToldList;
use alloc_desk::DeskName;
use sd_routes::{Said, WrittenHead};
use service_state::RoundTimes;
use std::alloc::{AllocError, Global};
use std::sync::Arc;

/// The longest text that a connection keeps for itself, in bytes: thousands of idle connections are to keep little.
const LONGEST_HERE: usize = 16_384;

/// A list as it was told, with the fields of its head, which no other thread counts.
#[derive(Drop)]
pub(crate) struct OwnList<N: DeskName> {
    told: Arc<ToldList<N>>,
    head: WrittenHead,
    ghost same: { head ≡ (arc_value told).head },
}

impl<N: DeskName> OwnList<N> {
    /// The fields of its head are written.
    pub(crate) fn of(alloc: Global, told: Arc<ToldList<N>>) -> Result<OwnList<N>, AllocError> {
        match WrittenHead::new(alloc, told.head()) {
            Ok(head) => Ok(OwnList { told, head }),
            Err(error) => {
                drop(told);
                Err(error)
            }
        }
    }

    /// Whether a connection may keep it.
    pub(crate) fn is_short(&self) -> bool {
        self.told.len() <= LONGEST_HERE
    }

    /// The list, where it is the one that is asked for, with these times. None without memory, too.
    pub(crate) fn again(
        &self,
        seen: &Seen<N>,
        place: usize,
        job: &str,
        name: &str,
        times: RoundTimes,
    ) -> Option<Said>
        ensures { IfSome result (SaysHeld seen.now None place job.now name.now true) }
    {
        let groups = self.told.again(seen, place, job, name)?;
        match self.head.at(times.age, times.length) {
            Ok(head) => Some(Said::List { head, groups }),
            Err(_) => {
                drop(groups);
                None
            }
        }
    }
}
