//! What requests are told of the configuration. It does not change while a desk is served.
ghost use Rattle.std.specs.Prelude.{◌≡◌, None, IfOk, map};
ghost use Rattle.serde_json.specs.View.{view};
ghost use Rattle.serde_json.specs.Written.{compact_text};
ghost use Rattle.sd_documents.specs.declared.config.Job.{Job};
ghost use Rattle.sd_routes.specs.Pages.{jobs_data};
ghost use Rattle.service_state.specs.Jobs.{place_of};

use lists::{List, Plain, Text};
use sd_documents::{Config, Job, scrape_configs_text};
use sd_routes::jobs_page;
use std::alloc::{AllocError, Global};

/// The pages of a configuration, and the names of its jobs in order.
#[derive(Drop)]
pub struct ConfigPages {
    /// The JSON of `/scrape_configs`: each scrape config as its collectors are to use it.
    pub scrape_configs: Text,
    /// The JSON of `/scrape_configs?rules=true`: each scrape config as it was read.
    pub as_read: Text,
    /// The JSON of `/jobs`.
    pub jobs: Text,
    pub names: List<Text>,
    /// The URLs of the sources of each job, job by job.
    pub urls: List<List<Text>>,
    /// Where a collector tells that it follows a list, as collectors reach it: a host, a colon and a port.
    pub acknowledge: Option<Text>,
}

impl ConfigPages {
    /// What a configuration is told by under which no list is acknowledged, with the text of its scrape configs as collectors are to use them.
    pub fn of(
        alloc: Global,
        config: &Config,
        scrape_configs: Text,
    ) -> Result<ConfigPages, AllocError>
        ensures scrape_configs { IfOk result (λ p. p.scrape_configs ≡ scrape_configs) }
        ensures as_read { IfOk result (λ p. p.as_read ≡ compact_text (view config.now.as_read)) }
        ensures jobs { IfOk result (λ p. p.jobs ≡ compact_text (jobs_data config.now.jobs)) }
        ensures acknowledge { IfOk result (λ p. p.acknowledge ≡ None) }
        ensures names { IfOk result (λ p. p.names ≡ map (λ (j : Job). j.name) config.now.jobs) }
        ensures urls { IfOk result (λ p. p.urls ≡ map (λ (j : Job). j.http_urls) config.now.jobs) }
    {
        let (as_read, jobs) = match texts_of(alloc, config) {
            Ok(texts) => texts,
            Err(refused) => {
                drop(scrape_configs);
                return Err(refused);
            }
        };
        match jobs_of(alloc, config.jobs.as_slice()) {
            Ok((names, urls)) => Ok(ConfigPages {
                scrape_configs,
                as_read,
                jobs,
                names,
                urls,
                acknowledge: None,
            }),
            Err(refused) => {
                drop((scrape_configs, as_read, jobs));
                Err(refused)
            }
        }
    }

    /// The URLs of the sources of the job at a place, by their numbers.
    pub fn urls_at(&self, place: usize) -> &[Text] {
        match self.urls.as_slice().get(place) {
            Some(urls) => urls.as_slice(),
            None => &[],
        }
    }

    /// A job's place in the configuration.
    pub fn place(&self, job: &str) -> Option<usize>
        ensures { result ≡ place_of job.now self.now.names }
    {
        self.names
            .as_slice()
            .iter()
            .position(|name| name.as_str() == job)
    }
}

/// The scrape configs as they were read, and the page of the jobs.
fn texts_of(alloc: Global, config: &Config) -> Result<(Text, Text), AllocError>
    ensures as_read { IfOk result (λ t. t.0 ≡ compact_text (view config.now.as_read)) }
    ensures jobs { IfOk result (λ t. t.1 ≡ compact_text (jobs_data config.now.jobs)) }
{
    let as_read = scrape_configs_text(alloc, config)?;
    let jobs = jobs_page(alloc, config.jobs.as_slice())?;
    Ok((as_read, jobs))
}

/// The names of jobs, and the URLs of their sources.
fn jobs_of(alloc: Global, jobs: &[Job]) -> Result<(List<Text>, List<List<Text>>), AllocError>
    ensures names { IfOk result (λ r. r.0 ≡ map (λ (j : Job). j.name) jobs.now) }
    ensures urls { IfOk result (λ r. r.1 ≡ map (λ (j : Job). j.http_urls) jobs.now) }
{
    let names = names_of(alloc, jobs)?;
    match urls_of(alloc, jobs) {
        Ok(urls) => Ok((names, urls)),
        Err(refused) => {
            drop(names);
            Err(refused)
        }
    }
}

fn names_of(alloc: Global, jobs: &[Job]) -> Result<List<Text>, AllocError>
    ensures { IfOk result (λ names. names ≡ map (λ (j : Job). j.name) jobs.now) }
{
    let mut names = List::new(alloc);
    for job in jobs {
        names.push(job.name.copy()?)?;
    }
    Ok(names)
}

fn urls_of(alloc: Global, jobs: &[Job]) -> Result<List<List<Text>>, AllocError>
    ensures { IfOk result (λ urls. urls ≡ map (λ (j : Job). j.http_urls) jobs.now) }
{
    let mut urls = List::new(alloc);
    for job in jobs {
        urls.push(job.http_urls.copy()?)?;
    }
    Ok(urls)
}
