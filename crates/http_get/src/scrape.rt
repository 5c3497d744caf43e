//! Devices that fetch.
ghost use Rattle.std.specs.Prelude.{◌≡◌, ◌<◌, ◌⊎◌, ℕ, Result};
ghost use Rattle.http_get.specs.declared.get.Get.{Get as AnyGet};
ghost use Rattle.http_get.specs.declared.reply.Reply.{Reply as AnyReply};
ghost use Rattle.http_get.specs.declared.reply.FetchFault.{FetchFault as AnyFault};
ghost use Rattle.http_get.specs.Scripts.{counted};

use crate::get::Get;
use crate::reply::{FetchFault, Reply};

/// A device that fetches. Each says by a relation what its fetches may come to.
pub trait Scrape {
    /// From the first state a fetch of this may give this result, and leave the second state.
    ghost may_fetch: { Self → AnyGet → Result AnyReply AnyFault → Self → Type 0 };

    /// How many fetches came to `Device`, or the greatest number where there were more.
    ghost failed: { Self → ℕ };

    fn fetch(&mut self, get: &Get) -> Result<Reply, FetchFault>
        ensures fetched { may_fetch self.old get.now result self.new }
        ensures device { result ≡ Err FetchFault.Device → (failed self.old < failed self.new) ⊎ (failed self.new ≡ u64.MAX) };

    /// How many fetches came to `Device`.
    fn failures(&self) -> u64
        ensures { result ≡ failed self.now };
}

/// How many fetches came to `Device` once this one did or did not, up to the greatest number.
pub fn failures_after(reply: &Result<Reply, FetchFault>, failures: u64) -> u64
    ensures { result ≡ counted reply.now failures }
{
    match reply {
        Err(FetchFault::Device) => failures.saturating_add(1),
        _ => failures,
    }
}
