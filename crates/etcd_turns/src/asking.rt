//! A transaction that is posted once.
ghost use Rattle.std.specs.Prelude.{◌≡◌, IfOk};
ghost use Rattle.etcd_turns.specs.Posts.{Posted, answer_of};

use crate::outside::Etcd;
use crate::reply::Reply;
use etcd_answers::{Answer, read_answer};
use etcd_requests::TRANSACTION_PATH;
use std::alloc::{AllocError, Global};

/// Posts a transaction, and reads what is heard of it.
pub(crate) fn ask<E: Etcd>(alloc: Global, etcd: &mut E, body: &[u8]) -> Result<Answer, AllocError>
    ensures { IfOk result (λ answer. Posted E.may_post body.now etcd.old answer etcd.new) }
{
    let reply = etcd.post(TRANSACTION_PATH, body);
    let answer = answer_of(alloc, &reply);
    drop(reply);
    answer
}

fn answer_of(alloc: Global, reply: &Option<Reply>) -> Result<Answer, AllocError>
    ensures { IfOk result (λ answer. answer ≡ answer_of reply.now) }
{
    match reply {
        Some(reply) => read_answer(alloc, reply.status, reply.body.as_slice()),
        None => Ok(Answer::Unknown),
    }
}
