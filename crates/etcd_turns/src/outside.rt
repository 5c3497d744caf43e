//! What lies outside of an instance.
ghost use Rattle.std.specs.Prelude.{ℕ, List, Option};
ghost use Rattle.etcd_turns.specs.declared.reply.Reply.{Reply as AnyReply};

use crate::reply::Reply;

/// What posts to etcd. It says by a relation what its posts may come to.
pub trait Etcd {
    /// From the first state a post of this body to this path may be replied so, and leave the second state.
    ghost may_post: { Self → List ℕ → List ℕ → Option AnyReply → Self → Type 0 };

    /// Posts a body to a path. None where nothing is heard: what was asked may be done, now or later, or not.
    fn post(&mut self, path: &str, body: &[u8]) -> Option<Reply>
        ensures { may_post self.old path.now body.now result self.new };

    /// Whether the instance may lead, as far as is known without asking: its lease has not ended.
    fn may_lead(&self) -> bool;
}
