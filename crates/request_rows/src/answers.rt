//! What is to be answered, by its name.
use crate::numbers::{first_word, large, number};
use bytes::Bytes;
use entity_tags::TaggedText;
use fleet_events::{Answer, Refusal};
use lists::Text;
use sd_routes::{ListHead, Notice, Place, RequestError, Said, WrittenHead};
use std::alloc::{AllocError, Global};

/// What a text says: `answer ANSWER`, `refused NAME`, `page TEXT`, `nothing`, `taken HEAD GROUPS`, `served LEFT HEAD GROUPS`, `metrics TEXT`, `document TEXT`,
/// `misshapen MEMBER`, `reloaded TEXT` or `notice NAME`. HEAD is `ALLOCATION ROUND COLLECTOR EPOCH AGE LENGTH`.
pub(crate) fn said_in(alloc: Global, text: &str) -> Result<Option<Said>, AllocError> {
    let (word, rest) = first_word(text);
    match word {
        "page" => Ok(Some(Said::Page(Text::from_str(alloc, rest)?))),
        "nothing" => Ok(Some(Said::Nothing)),
        "metrics" => Ok(Some(Said::Metrics(Text::from_str(alloc, rest)?))),
        "document" => Ok(Some(Said::Document(Text::from_str(alloc, rest)?))),
        "misshapen" => Ok(Some(Said::Misshapen(Text::from_str(alloc, rest)?))),
        "reloaded" => Ok(Some(Said::Reloaded(Text::from_str(alloc, rest)?))),
        "taken" => Ok(Some(list(alloc, None, rest)?)),
        "served" => Ok(Some(served(alloc, rest)?)),
        "answer" => Ok(answer(rest)),
        "refused" => Ok(refused(rest)),
        "notice" => Ok(notice(rest)),
        _ => Ok(None),
    }
}

/// A list that says how many targets it leaves out.
fn served(alloc: Global, text: &str) -> Result<Said, AllocError> {
    let (left_out, rest) = first_word(text);
    list(alloc, Some(number(left_out)), rest)
}

fn list(alloc: Global, left_out: Option<u32>, text: &str) -> Result<Said, AllocError> {
    let (head, groups) = head(left_out, text);
    let head = WrittenHead::new(alloc, head)?;
    let groups = Bytes::from_string(String::from_str(alloc, groups)?)?;
    let groups = TaggedText::untagged(groups);
    Ok(Said::List { head, groups })
}

/// The head of a list, and what stands behind it.
fn head(left_out: Option<u32>, text: &str) -> (ListHead, &str) {
    let (allocation, rest) = first_word(text);
    let (round, rest) = first_word(rest);
    let (collector, rest) = first_word(rest);
    let (epoch, rest) = first_word(rest);
    let (age, rest) = first_word(rest);
    let (length, rest) = first_word(rest);
    let head = ListHead {
        allocation: number(allocation),
        round: number(round),
        left_out,
        collector: number(collector),
        epoch: large(epoch),
        age: large(age),
        length: large(length),
    };
    (head, rest)
}

fn answer(text: &str) -> Option<Said> {
    let (name, rest) = first_word(text);
    let answer = match name {
        "Joined" => Answer::Joined(number(rest)),
        "Draining" => Answer::Draining,
        "Released" => Answer::Released(number(rest)),
        "AlreadyDraining" => Answer::Not(Refusal::AlreadyDraining),
        "AlreadyJoined" => Answer::Not(Refusal::AlreadyJoined(number(rest))),
        "UnknownCollector" => Answer::Not(Refusal::UnknownCollector),
        "UnknownJob" => Answer::Not(Refusal::UnknownJob),
        "UnknownTarget" => Answer::Not(Refusal::UnknownTarget),
        _ => return None,
    };
    Some(Said::Answer(answer))
}

fn refused(text: &str) -> Option<Said> {
    let error = match text {
        "BadName" => RequestError::BadName,
        "Expectation" => RequestError::Expectation,
        "Host" => RequestError::Host,
        "JournalFull" => RequestError::JournalFull,
        "MediaType" => RequestError::MediaType,
        "Memory" => RequestError::Memory,
        "Method(Collector)" => RequestError::Method(Place::Collector),
        "Method(Limits)" => RequestError::Method(Place::Limits),
        "Method(Status)" => RequestError::Method(Place::Status),
        "NoRoute" => RequestError::NoRoute,
        "Origin" => RequestError::Origin,
        "OtherEpoch" => RequestError::OtherEpoch,
        "Shape" => RequestError::Shape,
        "Token" => RequestError::Token,
        "TooLong" => RequestError::TooLong,
        "TooManyRules" => RequestError::TooManyRules,
        "TransferCoding" => RequestError::TransferCoding,
        "UnknownRound" => RequestError::UnknownRound,
        _ => return None,
    };
    Some(Said::Refused(error))
}

fn notice(text: &str) -> Option<Said> {
    match text {
        "Broken" => Some(Said::Notice(Notice::Broken)),
        "NotReady" => Some(Said::Notice(Notice::NotReady)),
        _ => None,
    }
}
