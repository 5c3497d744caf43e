//! A fetch as a request, and its answer as what was fetched.
ghost use Rattle.std.specs.Prelude.{◌≤◌, IfOk, length};
ghost use Rattle.scrape_client.specs.declared.fetching.TheConstants.{LONGEST_BODY};

use crate::ask::{Answer, Ask, Method};
use http_get::{Cause, Get, Reply};
use lists::Text;
use std::alloc::{AllocError, Global};
use std::time::Duration;

/// The most bytes of the body of what is fetched.
pub const LONGEST_BODY: usize = 4_194_304;

/// The request of a fetch.
pub(crate) fn ask_of(get: &Get, limit: Duration) -> Ask<'_> {
    Ask {
        method: Method::Get,
        address: get.address.as_str(),
        path: get.path.as_str(),
        headers: &[],
        body: &[],
        longest: LONGEST_BODY,
        limit,
    }
}

/// What a request came to as a fetch.
pub(crate) fn fetched(alloc: Global, came: Result<Answer, Cause>) -> Result<Reply, Cause>
    ensures { IfOk result (λ reply. length reply.body ≤ LONGEST_BODY) }
{
    match came {
        Ok(answer) => reply_of(alloc, answer),
        Err(cause) => Err(cause),
    }
}

fn reply_of(alloc: Global, answer: Answer) -> Result<Reply, Cause>
    ensures { IfOk result (λ reply. length reply.body ≤ LONGEST_BODY) }
{
    if answer.body.len() > LONGEST_BODY {
        return Err(Cause::TooLong);
    }
    match Text::from_str(alloc, answer.header("content-type")) {
        Ok(media) => Ok(Reply {
            status: answer.status,
            media,
            body: answer.body,
        }),
        Err(AllocError) => Err(Cause::Memory),
    }
}
