//! The bodies of what is asked.
ghost use Rattle.std.specs.Prelude.{◌≡◌, IfOk};
ghost use Rattle.serde_json.specs.Written.{compact_text};
ghost use Rattle.etcd_requests.specs.Texts.{transaction_data};
ghost use Rattle.etcd_terms.specs.Seats.{body_of, filled, left_at, transaction_of, up};

use crate::seat::{Ahead, Seat, Wish};
use etcd_requests::{forget_body, look_body, remove_body, switch_body, write_body};
use lists::Text;
use std::alloc::{AllocError, Global};

impl Seat {
    /// The body that is posted as a transaction, until its answer is known. None where nothing is asked.
    pub fn body(&self, alloc: Global, prefix: &str, term: &str) -> Result<Option<Text>, AllocError>
        ensures { IfOk result (λ o. o ≡ body_of prefix.now term.now self.now) }
    {
        match &self.asked {
            Some(wish) => {
                let body = self.body_of(alloc, prefix, term, wish)?;
                Ok(Some(body))
            }
            None => Ok(None),
        }
    }

    fn body_of(
        &self,
        alloc: Global,
        prefix: &str,
        term: &str,
        wish: &Wish,
    ) -> Result<Text, AllocError>
        ensures { IfOk result (λ t. t ≡ compact_text (transaction_data prefix.now (transaction_of term.now self.now wish.now))) }
    {
        let going = self.going;
        match wish {
            Wish::Append(block) => {
                write_body(
                    alloc,
                    prefix,
                    term,
                    going,
                    going,
                    self.next,
                    block.as_slice(),
                )
            }
            Wish::Cut => remove_body(alloc, prefix, term, going, going, self.next, self.torn),
            Wish::Look => look_body(alloc, prefix, up(going), 0),
            Wish::Clear => {
                let created = left_at(self.ahead);
                remove_body(alloc, prefix, term, going, up(going), 0, created)
            }
            Wish::Fill(block) => {
                let number = filled(self.ahead);
                write_body(
                    alloc,
                    prefix,
                    term,
                    going,
                    up(going),
                    number,
                    block.as_slice(),
                )
            }
            Wish::Switch => switch_body(alloc, prefix, term, going),
            Wish::Forget(epoch) => forget_body(alloc, prefix, term, *epoch),
        }
    }
}

/// The next number, as far as there is one.
pub(crate) fn up(number: u32) -> u32
    ensures { result ≡ up number }
{
    number.saturating_add(1)
}

/// The revision at which the first block was created that stands there and is to be removed, or 0.
pub(crate) fn left_at(ahead: Ahead) -> u64
    ensures { result ≡ left_at ahead }
{
    match ahead {
        Ahead::Left(created) => created,
        Ahead::Unknown | Ahead::Has(_) => 0,
    }
}

/// How many blocks it has of this term.
pub(crate) fn filled(ahead: Ahead) -> u32
    ensures { result ≡ filled ahead }
{
    match ahead {
        Ahead::Has(count) => count,
        Ahead::Unknown | Ahead::Left(_) => 0,
    }
}
