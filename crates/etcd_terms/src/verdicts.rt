//! What became of what was asked, by its answer.
ghost use Rattle.std.specs.Prelude.{◌≡◌, IfOk};
ghost use Rattle.etcd_answers.specs.Verdicts.{judged as both_hold};
ghost use Rattle.etcd_terms.specs.Seats.{goes_on, leads_verdict, looked};

use etcd_answers::{Answer, Found, Response, Verdict, has_value};
use std::alloc::{AllocError, Global};

/// Whether the term leads and the epoch goes on, by the answer to a look.
pub fn leads_verdict(
    alloc: Global,
    answer: &Answer,
    term: &str,
    going: u32,
) -> Result<Verdict, AllocError>
    ensures { IfOk result (λ v. v ≡ leads_verdict term.now going answer.now) }
{
    match answer {
        Answer::Unknown => Ok(Verdict::Unknown),
        Answer::Told(told) => {
            if told.succeeded {
                looked(alloc, told.responses.as_slice(), term, going)
            } else {
                Ok(Verdict::Unknown)
            }
        }
    }
}

fn looked(
    alloc: Global,
    responses: &[Response],
    term: &str,
    going: u32,
) -> Result<Verdict, AllocError>
    ensures { IfOk result (λ v. v ≡ looked term.now going responses.now) }
{
    match responses {
        [leader, epoch, _, ..] => {
            let goes_on = goes_on(alloc, epoch.found.as_slice(), going)?;
            Ok(judged(has_value(leader.found.as_slice(), term.as_bytes()), goes_on))
        }
        _ => Ok(Verdict::Unknown),
    }
}

/// Whether the key of the epoch that was read says that this one goes on.
fn goes_on(alloc: Global, found: &[Found], going: u32) -> Result<Option<bool>, AllocError>
    ensures { IfOk result (λ o. o ≡ goes_on going found.now) }
{
    if found.is_empty() || going == 0 {
        return Ok(Some(found.is_empty() && going == 0));
    }
    let number = format!(in alloc; "{going}")?;
    Ok(has_value(found, number.as_bytes()))
}

/// By whether the term leads, and whether the epoch goes on.
fn judged(leads: Option<bool>, goes_on: Option<bool>) -> Verdict
    ensures { result ≡ both_hold leads goes_on }
{
    match leads {
        Some(leads) => match goes_on {
            Some(goes_on) => {
                if leads && goes_on {
                    Verdict::Kept
                } else {
                    Verdict::Deposed
                }
            }
            None => Verdict::Unknown,
        },
        None => Verdict::Unknown,
    }
}
