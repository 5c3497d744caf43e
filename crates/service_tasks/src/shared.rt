//! What the threads of a desk share.
use crate::control::{Control, Ending};
use crate::evenings::evenings_of;
use crate::patience::Patience;
use crate::service::Service;
use crate::service_context::ServiceContext;
use alloc_desk::{Desk, JobEvening};
use kept_journal::{JournalName, Kept};
use service_settings::{JobSpread, Spread};
use service_state::ServiceState;
use std::alloc::{AllocError, Global};
use std::sync::atomic::{AtomicBool, AtomicU64};
use std::sync::ledger::Ledger;
use std::sync::{Arc, Wait};
use std::time::Duration;

/// What the threads of a desk share.
#[derive(Drop)]
pub struct Shared<R, L: Ledger, B: Ledger, N: JournalName> {
    pub(crate) rt: R,
    pub(crate) alloc: Global,
    pub(crate) desk: Arc<Desk<L, B, N>>,
    /// How long a round is open.
    pub(crate) round: Duration,
    /// How long changes are gathered before a reallocation.
    pub(crate) settle: Duration,
    /// How even the collectors' loads are made, if they are.
    pub(crate) spread: Option<Spread>,
    /// How each job is evened out then, by its place.
    pub(crate) by_job: Vec<JobEvening>,
    /// How long a collector may ask for nothing.
    pub(crate) patience: Patience,
    /// Whether a collector of the configuration that is not live joins where its list is asked for.
    pub(crate) rejoin: bool,
    /// How long after its journal broke the service ends.
    pub(crate) give_up: Duration,
    pub(crate) control: Control,
    pub(crate) state: Arc<ServiceState>,
    /// How many targets the lists have that were entered.
    pub(crate) listed: AtomicU64,
    /// Whether the journal's file is so long that another one is to begin.
    pub(crate) is_long: AtomicBool,
    /// How much of the journal is kept, where there is a file for it.
    pub(crate) kept: Option<Arc<Kept<N>>>,
}

impl<R: Wait + Copy, L: Ledger, B: Ledger, N: JournalName> Shared<R, L, B, N> {
    /// What the threads of a desk of a service share, with how much of the journal is kept, where there is a file for it.
    pub fn new<S, F, C>(
        rt: &R,
        alloc: Global,
        service: &Service,
        context: &ServiceContext<S, F, C>,
        desk: Arc<Desk<L, B, N>>,
        kept: Option<Arc<Kept<N>>>,
    ) -> Result<Shared<R, L, B, N>, AllocError> {
        let settings = &service.settings;
        match parts_of(alloc, settings.spreads.as_slice(), &context.state) {
            Ok((by_job, state)) => Ok(Shared {
                rt: *rt,
                alloc,
                desk,
                round: Duration::from_millis(settings.scrape_interval),
                settle: Duration::from_millis(settings.settle),
                spread: settings.spread,
                by_job,
                patience: Patience::of(settings),
                rejoin: settings.rejoin,
                give_up: Duration::from_millis(settings.give_up),
                control: Control::new(),
                state,
                listed: AtomicU64::new(0),
                is_long: AtomicBool::new(context.is_long()),
                kept,
            }),
            Err(error) => {
                drop((desk, kept));
                Err(error)
            }
        }
    }

    /// Whether the service is to end. Else another desk follows.
    pub fn is_quitting(&self) -> bool {
        self.control
            .ending(&self.rt)
            .is_some_and(|ending| ending.is_last())
    }

    /// The service is to end, unless the desk is closed for another reason.
    pub fn quit(&self) {
        self.control.end(&self.rt, Ending::Quit);
    }

    /// Why the desk is closed.
    pub fn ending(&self) -> Ending {
        self.control.ending(&self.rt).unwrap_or(Ending::Quit)
    }
}

/// How each job is evened out, and the state of a service.
fn parts_of(
    alloc: Global,
    spreads: &[JobSpread],
    state: &Arc<ServiceState>,
) -> Result<(Vec<JobEvening>, Arc<ServiceState>), AllocError> {
    let state = Arc::try_clone(state)?;
    let by_job = evenings_of(alloc, spreads)?;
    Ok((by_job, state))
}
