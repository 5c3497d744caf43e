//! A claim.
ghost use Rattle.std.specs.Prelude.{◌≡◌, true, IfOk};
ghost use Rattle.etcd_answers.specs.declared.verdict.Verdict.TheVariants.{Kept};
ghost use Rattle.etcd_turns.specs.Posts.{Claimed};

use crate::asking::ask;
use crate::outside::Etcd;
use etcd_answers::{Verdict, claim_verdict};
use etcd_requests::claim_body;
use std::alloc::{AllocError, Global};

/// Claims to lead with a term as long as a lease lasts, until it is known whether it does. It does not where another leads, or the lease has ended.
pub fn claim<E: Etcd>(
    alloc: Global,
    prefix: &str,
    term: &str,
    lease: u64,
    etcd: &mut E,
) -> Result<bool, AllocError>
    ensures { IfOk result (λ leads. leads ≡ true → Claimed E.may_post prefix.now term.now lease etcd.new) }
{
    for _ in 0..u64::MAX {
        if !etcd.may_lead() {
            return Ok(false);
        }
        match claim_once(alloc, prefix, term, lease, etcd)? {
            Verdict::Kept => return Ok(true),
            Verdict::Deposed => return Ok(false),
            Verdict::Unknown => {}
        }
    }
    Ok(false)
}

fn claim_once<E: Etcd>(
    alloc: Global,
    prefix: &str,
    term: &str,
    lease: u64,
    etcd: &mut E,
) -> Result<Verdict, AllocError>
    ensures { IfOk result (λ v. v ≡ Kept → Claimed E.may_post prefix.now term.now lease etcd.new) }
{
    let body = claim_body(alloc, prefix, term, lease)?;
    match ask(alloc, etcd, body.as_str().as_bytes()) {
        Ok(answer) => Ok(claim_verdict(&answer, term)),
        Err(error) => Err(error),
    }
}
