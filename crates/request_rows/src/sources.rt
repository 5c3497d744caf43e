//! What the answers of discovery sources say.
use crate::numbers::{first_part, first_word, number, small};
use crate::scrapes::{asked, written};
use fleet_events::Event;
use http_get::{FetchFault, Get, RefreshError, Reply, Scrape, Script, found, get_of, refresh};
use label_sets::Target;
use lists::{List, Text};
use relabel::Rules;
use sd_documents::{Config, Job, read_config};
use std::alloc::{AllocError, Global};

/// The configuration whose job has two sources.
const ASKING: &[u8] =
    br#"{"scrape_configs":[{"job_name":"j","params":{"m":["p","q"],"match[]":["z"]},"http_sd_configs":[{"url":"http://127.0.0.1:9/sd"},{"url":"http://localhost?b"}],"relabel_configs":[{"action":"drop","source_labels":["zone"],"regex":"y"}]}]}"#;

fn asking(alloc: Global) -> Result<Config, AllocError> {
    match read_config(alloc, ASKING) {
        Ok(config) => Ok(config),
        Err(_) => Err(AllocError),
    }
}

fn rules_of(alloc: Global, job: &Job) -> Result<Rules, AllocError> {
    match Rules::read(alloc, job.rules.as_slice()) {
        Ok(rules) => Ok(rules),
        Err(_) => Err(AllocError),
    }
}

/// An answer of the job's first source, as `STATUS MEDIA | BODY`: the targets that it lists, each with how it is asked.
pub(crate) fn reply(alloc: Global, text: &str) -> Result<String, AllocError> {
    let (head, body) = text.split_once(" |").unwrap_or((text, ""));
    let (status, media) = first_word(head);
    let body = body.strip_prefix(' ').unwrap_or(body);
    match reply_of(alloc, small(status), media, body) {
        Ok(reply) => {
            let line = of_config(alloc, &reply);
            drop(reply);
            line
        }
        Err(error) => Err(error),
    }
}

fn reply_of(alloc: Global, status: u16, media: &str, body: &str) -> Result<Reply, AllocError> {
    match Text::from_str(alloc, media) {
        Ok(media) => Ok(Reply {
            status,
            media,
            body: List::from_vec(Vec::from_slice(alloc, body.as_bytes())?),
        }),
        Err(error) => Err(error),
    }
}

fn of_config(alloc: Global, reply: &Reply) -> Result<String, AllocError> {
    match asking(alloc) {
        Ok(config) => {
            let line = of_first(alloc, config.jobs.as_slice(), reply);
            drop(config);
            line
        }
        Err(error) => Err(error),
    }
}

fn of_first(alloc: Global, jobs: &[Job], reply: &Reply) -> Result<String, AllocError> {
    match jobs.first() {
        Some(job) => of_job(alloc, job, reply),
        None => Err(AllocError),
    }
}

fn of_job(alloc: Global, job: &Job, reply: &Reply) -> Result<String, AllocError> {
    match rules_of(alloc, job) {
        Ok(rules) => {
            let line = by_rules(alloc, job, &rules, reply);
            drop(rules);
            line
        }
        Err(error) => Err(error),
    }
}

fn by_rules(alloc: Global, job: &Job, rules: &Rules, reply: &Reply) -> Result<String, AllocError> {
    if job.http_urls.is_empty() {
        return Err(AllocError);
    }
    told(alloc, job, found(alloc, job, rules, 1, reply))
}

/// The job and the source of a discovery with its targets, or the refusal.
fn told(
    alloc: Global,
    job: &Job,
    refreshed: Result<Event, RefreshError>,
) -> Result<String, AllocError> {
    match refreshed {
        Ok(event) => {
            let line = discovered(alloc, job, &event);
            drop(event);
            line
        }
        Err(RefreshError::Memory) => Err(AllocError),
        Err(refusal) => refused(alloc, &refusal),
    }
}

fn refused(alloc: Global, refusal: &RefreshError) -> Result<String, AllocError> {
    let name = refusal.name();
    format!(in alloc; "{name} {refusal:?}")
}

fn discovered(alloc: Global, job: &Job, event: &Event) -> Result<String, AllocError> {
    match event {
        Event::Discover {
            job: name,
            source,
            targets,
        } => {
            let mut text = format!(in alloc; "{} {source}", name.as_str())?;
            push_targets(alloc, &mut text, job, targets.as_slice())?;
            Ok(text)
        }
        _ => String::from_str(alloc, "another event"),
    }
}

fn push_targets(
    alloc: Global,
    text: &mut String,
    job: &Job,
    targets: &[Target],
) -> Result<(), AllocError> {
    for target in targets {
        push_target(alloc, text, job, target)?;
    }
    Ok(())
}

fn push_target(
    alloc: Global,
    text: &mut String,
    job: &Job,
    target: &Target,
) -> Result<(), AllocError> {
    text.push_str(" | ")?;
    push(text, asked(alloc, get_of(alloc, job, target)?))
}

fn push(text: &mut String, part: Result<String, AllocError>) -> Result<(), AllocError> {
    match part {
        Ok(part) => text.push_str(part.as_str()),
        Err(error) => Err(error),
    }
}

/// The job's sources are asked one after the other, as `SOURCE SOURCE .. | ANSWER | ANSWER ..`: each answer a status with a body, `Device` or `TooLong`,
/// and then `Device` for ever. Says what comes of each, with how often the device failed, and what was asked.
pub(crate) fn refreshes(alloc: Global, text: &str) -> Result<String, AllocError> {
    let (sources, answers) = first_part(text);
    match script_of(alloc, answers) {
        Ok(mut script) => {
            let line = with_script(alloc, sources, &mut script);
            drop(script);
            line
        }
        Err(error) => Err(error),
    }
}

fn script_of(alloc: Global, answers: &str) -> Result<Script, AllocError> {
    let mut script = Script::new(alloc);
    match push_answers(alloc, &mut script, answers) {
        Ok(()) => Ok(script),
        Err(error) => {
            drop(script);
            Err(error)
        }
    }
}

fn push_answers(alloc: Global, script: &mut Script, answers: &str) -> Result<(), AllocError> {
    for answer in answers.split(" | ") {
        script.push(fetched(alloc, answer)?)?;
    }
    Ok(())
}

fn fetched(alloc: Global, answer: &str) -> Result<Result<Reply, FetchFault>, AllocError> {
    match answer {
        "Device" => Ok(Err(FetchFault::Device)),
        "TooLong" => Ok(Err(FetchFault::TooLong)),
        _ => {
            let (status, body) = first_word(answer);
            Ok(Ok(reply_of(alloc, small(status), "application/json", body)?))
        }
    }
}

fn with_script(alloc: Global, sources: &str, script: &mut Script) -> Result<String, AllocError> {
    match asking(alloc) {
        Ok(config) => {
            let line = refresh_first(alloc, config.jobs.as_slice(), sources, script);
            drop(config);
            line
        }
        Err(error) => Err(error),
    }
}

fn refresh_first(
    alloc: Global,
    jobs: &[Job],
    sources: &str,
    script: &mut Script,
) -> Result<String, AllocError> {
    match jobs.first() {
        Some(job) => refresh_all(alloc, job, sources, script),
        None => Err(AllocError),
    }
}

fn refresh_all(
    alloc: Global,
    job: &Job,
    sources: &str,
    script: &mut Script,
) -> Result<String, AllocError> {
    match rules_of(alloc, job) {
        Ok(rules) => {
            let line = refresh_by(alloc, job, &rules, sources, script);
            drop(rules);
            line
        }
        Err(error) => Err(error),
    }
}

fn refresh_by(
    alloc: Global,
    job: &Job,
    rules: &Rules,
    sources: &str,
    script: &mut Script,
) -> Result<String, AllocError> {
    let mut text = String::new(alloc);
    for source in sources.split(' ') {
        push_refresh(alloc, &mut text, job, rules, number(source), script)?;
    }
    push_asked(alloc, &mut text, script.asked())?;
    Ok(text)
}

fn push_refresh(
    alloc: Global,
    text: &mut String,
    job: &Job,
    rules: &Rules,
    source: u32,
    script: &mut Script,
) -> Result<(), AllocError> {
    push(
        text,
        told(alloc, job, refresh(alloc, job, rules, source, script)),
    )?;
    let failures = script.failures();
    push(text, format!(in alloc; " ({failures}); "))
}

fn push_asked(alloc: Global, text: &mut String, asked: &[Get]) -> Result<(), AllocError> {
    text.push_str("asked")?;
    for get in asked {
        text.push_str(" | ")?;
        push(text, written(alloc, get))?;
    }
    Ok(())
}
