//! What a service is to do.
use admission::Admission;
use json_values::{parse, text_of};
use lists::{List, Plain, Text};
use relabel::{Rules, RulesError};
use scrape_pages::collectors_configs;
use sd_documents::{Config, Job};
use service_settings::{Address, CollectorTimeout, Doors, Settings};
use service_state::ConfigPages;
use std::alloc::{AllocError, Global};
use std::sync::Arc;
use std::sync::atomic::AtomicU64;
use std::time::Duration;

/// What a service is to do: the jobs of its configuration, whose rules can be read, and its settings.
#[derive(Drop)]
pub struct Service {
    /// The document of the configuration, as one line.
    line: Text,
    pub(crate) jobs: Arc<List<Job>>,
    /// The jobs as the configuration has them.
    pub(crate) job_texts: Arc<List<JobText>>,
    /// What requests are told of the configuration.
    pub(crate) pages: Arc<ConfigPages>,
    /// Who may ask for what.
    pub(crate) doors: Arc<Admission>,
    pub(crate) settings: Settings,
    /// The program's version. Empty where nobody told it.
    pub(crate) version: &'static str,
    /// Whether it is that of an instance that leads others.
    pub(crate) is_leading: bool,
    /// Where the log counts the lines that it loses, if it may lose some.
    pub(crate) lost_lines: Option<Arc<AtomicU64>>,
    /// How many connections there may be at once.
    pub(crate) connections: u32,
    /// The discovery sources, job by job.
    pub(crate) sources: Vec<SourceSettings>,
}

/// A job as the configuration has it.
#[derive(Drop)]
pub(crate) struct JobText {
    pub(crate) name: Text,
    /// The compact JSON of its scrape config.
    pub(crate) text: Text,
}

/// A discovery source: entry `number - 1` of the `http_sd_configs` of the job at a place in the configuration, behind which its
/// `file_sd_configs` stand.
#[derive(Clone, Copy, PartialEq, Eq)]
pub(crate) struct SourceSettings {
    pub(crate) job: usize,
    pub(crate) number: u32,
    /// How long after a refresh began the next one does.
    pub(crate) every: Duration,
}

/// Why there is no service of a configuration.
#[derive(Drop)]
pub enum ServiceError {
    /// A rule of the job at this place is refused.
    Rules { job: usize, error: RulesError },
    Memory,
}

impl From<AllocError> for ServiceError {
    fn from(_refused: AllocError) -> ServiceError {
        ServiceError::Memory
    }
}

impl Service {
    /// A service of the configuration and the settings of a document, which is given as one line.
    pub fn of(
        alloc: Global,
        line: Text,
        config: Config,
        settings: Settings,
    ) -> Result<Service, ServiceError> {
        match Parts::of(alloc, line.as_str(), &config, &settings) {
            Ok(parts) => Service::with(alloc, line, config, settings, parts),
            Err(error) => {
                drop((line, config, settings));
                Err(error)
            }
        }
    }

    /// A service of a configuration with these parts of it.
    fn with(
        alloc: Global,
        line: Text,
        config: Config,
        settings: Settings,
        parts: Parts,
    ) -> Result<Service, ServiceError> {
        drop(config.as_read);
        match shared(alloc, config.jobs) {
            Ok(jobs) => {
                let connections = settings.connections;
                Ok(Service {
                    line,
                    jobs,
                    job_texts: parts.job_texts,
                    pages: parts.pages,
                    doors: parts.doors,
                    settings,
                    version: "",
                    is_leading: false,
                    lost_lines: None,
                    connections,
                    sources: parts.sources,
                })
            }
            Err(error) => {
                drop((line, settings, parts));
                Err(error.into())
            }
        }
    }

    /// Lets in from now on whom these doors let in.
    pub fn set_doors(&mut self, alloc: Global, doors: Admission) -> Result<(), AllocError> {
        self.doors = shared(alloc, doors)?;
        Ok(())
    }

    /// At most so many connections are served at once.
    pub fn limit_connections(&mut self, most: u32) {
        self.connections = self.connections.min(most);
    }

    /// How many connections there may be at once.
    pub fn connections(&self) -> u32 {
        self.connections
    }

    /// A service whose log counts here the lines that it loses.
    pub fn with_log(self, lost_lines: Arc<AtomicU64>) -> Service {
        let mut service = self;
        service.lost_lines = Some(lost_lines);
        service
    }

    /// A service of the program of this version.
    pub fn with_version(self, version: &'static str) -> Service {
        let mut service = self;
        service.version = version;
        service
    }

    /// The service of an instance that leads others.
    pub fn with_leading(self) -> Service {
        let mut service = self;
        service.is_leading = true;
        service
    }

    /// Who may ask, as the settings say it.
    pub fn doors(&self) -> &Doors {
        &self.settings.doors
    }

    /// The document of the configuration, as one line.
    pub fn line(&self) -> &str {
        self.line.as_str()
    }

    /// The jobs of the configuration.
    pub fn jobs(&self) -> &[Job] {
        self.jobs.as_slice()
    }

    /// How many collectors the configuration names.
    pub fn collectors(&self) -> usize {
        self.settings.collectors.as_slice().len()
    }

    /// Where the settings say to listen.
    pub fn listen(&self) -> Address {
        self.settings.listen
    }

    /// Whether a collector that asks for nothing is drained, and leaves.
    pub fn notices_absence(&self) -> bool {
        !matches!(self.settings.collector_timeout, CollectorTimeout::Never)
    }

    /// How long a source may take to answer.
    pub fn fetch_timeout(&self) -> Duration {
        Duration::from_millis(self.settings.fetch_timeout)
    }

    /// How long a round is, in milliseconds. Above 0.
    pub fn scrape_interval(&self) -> u64 {
        self.settings.scrape_interval
    }

    /// How many old journals are kept.
    pub fn keep(&self) -> u32 {
        self.settings.keep
    }

    /// The path of the journal that the settings name.
    pub fn journal(&self) -> Option<&str> {
        match &self.settings.journal {
            Some(path) => Some(path.as_str()),
            None => None,
        }
    }
}

/// What a service has of a configuration whose rules can be read.
#[derive(Drop)]
struct Parts {
    pages: Arc<ConfigPages>,
    job_texts: Arc<List<JobText>>,
    doors: Arc<Admission>,
    sources: Vec<SourceSettings>,
}

impl Parts {
    fn of(
        alloc: Global,
        line: &str,
        config: &Config,
        settings: &Settings,
    ) -> Result<Parts, ServiceError> {
        check_rules(alloc, config.jobs.as_slice())?;
        let sources = sources_of(alloc, settings)?;
        let pages = pages_of(alloc, line, config, settings)?;
        let job_texts = shared(alloc, job_texts_of(alloc, config)?)?;
        let doors = shared(alloc, Admission::open())?;
        Ok(Parts {
            pages,
            job_texts,
            doors,
            sources,
        })
    }
}

fn pages_of(
    alloc: Global,
    line: &str,
    config: &Config,
    settings: &Settings,
) -> Result<Arc<ConfigPages>, AllocError> {
    let scrape_configs = collectors_text(alloc, line)?;
    let mut pages = ConfigPages::of(alloc, config, scrape_configs)?;
    match copy_of(&settings.acknowledge) {
        Ok(acknowledge) => {
            pages.acknowledge = acknowledge;
            shared(alloc, pages)
        }
        Err(error) => {
            drop(pages);
            Err(error)
        }
    }
}

fn copy_of(text: &Option<Text>) -> Result<Option<Text>, AllocError> {
    match text {
        Some(text) => Ok(Some(text.copy()?)),
        None => Ok(None),
    }
}

/// The text of the scrape configs of a document as its collectors are to use them.
fn collectors_text(alloc: Global, line: &str) -> Result<Text, AllocError> {
    match parse(alloc, line.as_bytes())? {
        Some(document) => {
            let text = match collectors_configs(alloc, &document) {
                Ok(configs) => {
                    let text = text_of(alloc, &configs);
                    drop(configs);
                    text
                }
                Err(error) => Err(error),
            };
            drop(document);
            text
        }
        None => Text::from_str(alloc, "{}"),
    }
}

fn job_texts_of(alloc: Global, config: &Config) -> Result<List<JobText>, AllocError> {
    let mut texts = List::new(alloc);
    for job in config.jobs.as_slice() {
        texts.push(job_text_of(alloc, config, job)?)?;
    }
    Ok(texts)
}

fn job_text_of(alloc: Global, config: &Config, job: &Job) -> Result<JobText, AllocError> {
    let text = match config.as_read.get(job.name.as_str()) {
        Some(read) => read.to_string(alloc)?,
        None => String::new(alloc),
    };
    Ok(JobText {
        name: job.name.copy()?,
        text: Text::from_string(text),
    })
}

fn shared<T: Drop>(alloc: Global, value: T) -> Result<Arc<T>, AllocError> {
    Ok(Arc::new(alloc, value)?)
}

/// Whether the rules of each job can be read.
fn check_rules(alloc: Global, jobs: &[Job]) -> Result<(), ServiceError> {
    for (job, of) in jobs.iter().enumerate() {
        match Rules::read(alloc, of.rules.as_slice()) {
            Ok(rules) => drop(rules),
            Err(error) => return Err(ServiceError::Rules { job, error }),
        }
    }
    Ok(())
}

fn sources_of(alloc: Global, settings: &Settings) -> Result<Vec<SourceSettings>, AllocError> {
    let mut all = Vec::new(alloc);
    for (job, every) in settings.refresh.as_slice().iter().enumerate() {
        let mut number: u32 = 0;
        for millis in every.as_slice() {
            number = number.saturating_add(1);
            all.push(SourceSettings {
                job,
                number,
                every: Duration::from_millis(*millis),
            })?;
        }
    }
    Ok(all)
}
