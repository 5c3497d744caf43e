//! One instance of several over a journal in etcd.
use crate::command::Asked;
use command_faults::Fault;
use command_words::VERSION;
use etcd_client::{EtcdClient, Login, Watch};
use etcd_requests::term_text;
use etcd_settings::Settings;
use lists::{Plain, Text};
use scrape_client::Lookups;
use serve_configuration::{Machine, admission_at, password_at, settings_in};
use service_tasks::Service;
use standby::Standing;
use std::alloc::{AllocError, AllocGlobal, Global};
use std::fs::File;
use std::io;
use std::net::SocketAddr;
use std::random::RandomSource;
use std::rt::Files;
use std::sync::Arc;

/// One instance of several over a journal in etcd.
#[derive(Drop)]
pub(crate) struct Instance {
    pub(crate) alloc: Global,
    /// The journal as it is named.
    journal: Option<String>,
    pub(crate) settings: Settings,
    /// The URL at which others reach this instance.
    pub(crate) advertise: Text,
    /// As whom etcd is asked.
    login: Option<Login>,
    /// Where the names of etcd's members are looked up, and where by whoever keeps the lease alive.
    lookups: Arc<Lookups>,
    keepers: Arc<Lookups>,
    /// How many epochs are kept that are over.
    pub(crate) keep: u32,
    /// How many connections there may be at once.
    pub(crate) connections: u32,
    pub(crate) standing: Arc<Standing>,
}

impl Instance {
    /// That of a service over this journal.
    pub(crate) fn of<R>(
        rt: &R,
        machine: Machine<'_>,
        asked: &Asked<'_>,
        service: &Service,
        journal: Option<String>,
        settings: Settings,
    ) -> Result<Instance, Fault>
    where
        R: Files<File = File> + AllocGlobal,
    {
        match Parts::of(rt, machine, asked, service, &settings) {
            Ok(parts) => Ok(Instance {
                alloc: rt.alloc(),
                journal,
                settings,
                advertise: parts.advertise,
                login: parts.login,
                lookups: parts.lookups,
                keepers: parts.keepers,
                keep: service.keep(),
                connections: service.connections(),
                standing: parts.standing,
            }),
            Err(fault) => {
                drop((journal, settings));
                Err(fault)
            }
        }
    }

    /// What asks etcd as long as an instance may lead. One at a time is to ask.
    pub(crate) fn client<R: Copy>(
        &self,
        rt: &R,
        watch: &Arc<Watch>,
    ) -> Result<EtcdClient<R>, AllocError> {
        self.client_by(rt, &self.lookups, watch)
    }

    /// The same, for whoever keeps the lease alive.
    pub(crate) fn keeper<R: Copy>(
        &self,
        rt: &R,
        watch: &Arc<Watch>,
    ) -> Result<EtcdClient<R>, AllocError> {
        self.client_by(rt, &self.keepers, watch)
    }

    fn client_by<R: Copy>(
        &self,
        rt: &R,
        lookups: &Arc<Lookups>,
        watch: &Arc<Watch>,
    ) -> Result<EtcdClient<R>, AllocError> {
        let endpoints = self.endpoints()?;
        let login = self.login()?;
        let watch = Arc::try_clone(watch)?;
        let lookups = Arc::try_clone(lookups)?;
        Ok(EtcdClient::new(*rt, lookups, endpoints, login, watch))
    }

    fn endpoints(&self) -> Result<Vec<Text>, AllocError> {
        let mut all = Vec::new(self.alloc);
        for endpoint in self.settings.place.endpoints.as_slice() {
            all.push(endpoint.copy()?)?;
        }
        Ok(all)
    }

    fn login(&self) -> Result<Option<Login>, AllocError> {
        match &self.login {
            Some(login) => Ok(Some(login.copy()?)),
            None => Ok(None),
        }
    }

    /// The journal as it is told.
    pub(crate) fn name(&self) -> &str {
        match &self.journal {
            Some(journal) => journal.as_str(),
            None => "",
        }
    }

    /// What the journal's keys begin with behind a slash.
    pub(crate) fn prefix(&self) -> &str {
        self.settings.place.prefix.as_str()
    }

    /// How long a lease is, in seconds.
    pub(crate) fn seconds(&self) -> u32 {
        u32::try_from(self.settings.lease.div_ceil(1_000)).unwrap_or(u32::MAX)
    }

    /// The text of a term that nobody else has.
    pub(crate) fn new_term<R: RandomSource>(&self, rt: &R) -> io::Result<Text> {
        let mut bytes = [0; 16];
        rt.fill_bytes(&mut bytes)?;
        let number = u128::from_le_bytes(bytes);
        let instance = format!(in self.alloc; "{number:032x}")?;
        let term = term_text(self.alloc, self.advertise.as_str(), instance.as_str())?;
        Ok(term)
    }
}

/// What an instance has of its settings.
#[derive(Drop)]
struct Parts {
    advertise: Text,
    login: Option<Login>,
    lookups: Arc<Lookups>,
    keepers: Arc<Lookups>,
    standing: Arc<Standing>,
}

impl Parts {
    fn of<R: Files<File = File> + AllocGlobal>(
        rt: &R,
        machine: Machine<'_>,
        asked: &Asked<'_>,
        service: &Service,
        settings: &Settings,
    ) -> Result<Parts, Fault> {
        let advertise = advertise_of(rt.alloc(), asked, settings)?;
        let login = login_of(rt, asked.options.config, settings)?;
        let (lookups, keepers) = lookups_of(machine)?;
        match standing_of(rt, asked, service, &advertise) {
            Ok(standing) => Ok(Parts {
                advertise,
                login,
                lookups,
                keepers,
                standing,
            }),
            Err(fault) => {
                drop((advertise, login, lookups, keepers));
                Err(fault)
            }
        }
    }
}

/// Where the names of etcd's members are looked up.
fn lookups_of(machine: Machine<'_>) -> Result<(Arc<Lookups>, Arc<Lookups>), Fault> {
    match machine.etcd {
        Some(etcd) => {
            let asks = Arc::try_clone(&etcd.asks)?;
            let keeps = Arc::try_clone(&etcd.keeps)?;
            Ok((asks, keeps))
        }
        // The configuration was changed since it was read first.
        None => Err(Fault::Machine(io::ErrorKind::NotFound.into())),
    }
}

/// Refuses settings with which there is no instance: others cannot be sent to it, or its password cannot be read.
pub(crate) fn check_instance<R: Files<File = File> + AllocGlobal>(
    rt: &R,
    asked: &Asked<'_>,
    settings: &Settings,
) -> Result<(), Fault> {
    drop(advertise_of(rt.alloc(), asked, settings)?);
    drop(login_of(rt, asked.options.config, settings)?);
    Ok(())
}

/// The URL at which others reach an instance: that of the settings, or else where it listens.
fn advertise_of(alloc: Global, asked: &Asked<'_>, settings: &Settings) -> Result<Text, Fault> {
    let here = asked.here;
    match &settings.advertise {
        Some(url) => Ok(url.copy()?),
        None if is_everywhere(here) => {
            let path = asked.options.config;
            Err(Fault::Told(format!(in alloc;
                "{path}: allocator.advertise: others cannot be sent to {here}: name the URL at which they reach this instance"
            )?))
        }
        None => Ok(Text::from_string(format!(in alloc; "http://{here}")?)),
    }
}

/// Whether it is no address of a machine, but stands for all that it has.
fn is_everywhere(here: SocketAddr) -> bool {
    here.ip().is_unspecified()
}

/// As whom etcd is asked, with the password of the file.
fn login_of<R: Files<File = File> + AllocGlobal>(
    rt: &R,
    path: &str,
    settings: &Settings,
) -> Result<Option<Login>, Fault> {
    match &settings.user {
        Some(user) => {
            let name = user.name.copy()?;
            let password = password_at(rt, path, user.password_file.as_str())?;
            Ok(Some(Login { name, password }))
        }
        None => Ok(None),
    }
}

/// What answers while an instance stands by.
fn standing_of<R: Files<File = File> + AllocGlobal>(
    rt: &R,
    asked: &Asked<'_>,
    service: &Service,
    advertise: &Text,
) -> Result<Arc<Standing>, Fault> {
    let alloc = rt.alloc();
    let path = asked.options.config;
    let settings = settings_in(alloc, path, asked.document)?;
    let lifecycle = settings.lifecycle;
    drop(settings);
    let own = advertise.copy()?;
    let doors = admission_at(rt, path, service.doors(), asked.here)?;
    let standing = Standing::new(doors, lifecycle, VERSION, own);
    Ok(shared(alloc, standing)?)
}

fn shared(alloc: Global, standing: Standing) -> Result<Arc<Standing>, AllocError> {
    Ok(Arc::new(alloc, standing)?)
}
