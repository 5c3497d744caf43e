//! The reports of a turn.
ghost use Rattle.std.specs.Prelude.{◌≡◌, ◌⊎◌};
ghost use Rattle.agent_core.specs.Agents.{Over, next};
ghost use Rattle.agent_turns.specs.Acts.{PostedFirst};
ghost use Rattle.agent_turns.specs.Turns.{Reported, Tried};

use crate::outside::{Outside, Posted};
use agent_core::{Agent, Lasts, Report, Said, Standing};
use agent_documents::write_memory;
use std::alloc::{AllocError, Global};

/// Reports what Prometheus says of its scrapes, where the allocator was heard: a report that it does not get would be lost.
pub(crate) fn report<O: Outside>(
    alloc: Global,
    agent: &mut Agent,
    outside: &mut O,
    came: bool,
) -> Result<(), AllocError>
    ensures { Tried O.may_act outside.old outside.new agent.old agent.new }
{
    match said_to(agent, outside, came) {
        Some((said, lasts)) => {
            let now = outside.now();
            report_all(alloc, agent, outside, now, &said, &lasts)
        }
        None => Ok(()),
    }
}

/// What Prometheus says to an agent that holds a list, where the allocator was heard.
fn said_to<O: Outside>(agent: &Agent, outside: &O, came: bool) -> Option<(Said, Lasts)> {
    match agent.standing() {
        Standing::Holding | Standing::Following(_) if came => said_by(agent, outside),
        Standing::Nobody | Standing::Holding | Standing::Following(_) => None,
    }
}

/// What Prometheus says. Of last scrapes it is asked first: then those are stored when it is asked for scrapes.
fn said_by<O: Outside>(agent: &Agent, outside: &O) -> Option<(Said, Lasts)> {
    let lasts = outside.lasts(agent);
    match outside.said() {
        Some(said) => Some((said, lasts)),
        None => None,
    }
}

/// Chooses reports of what Prometheus said, as it is asked at a time, writes down what was told, and posts them. Where one is refused, since its
/// list or its round is over, none is posted any more until the allocator shows or gives a list.
pub fn report_all<O: Outside>(
    alloc: Global,
    agent: &mut Agent,
    outside: &mut O,
    now: u64,
    said: &Said,
    lasts: &Lasts,
) -> Result<(), AllocError>
    ensures { Reported O.may_act now said.now.entries lasts.now.entries outside.old outside.new agent.old agent.new }
{
    let reports = agent.choose(now, said, lasts)?;
    if reports.is_empty() {
        return Ok(());
    }
    let text = write_memory(alloc, agent.memory())?;
    if !outside.write(text.as_str()) {
        return Ok(());
    }
    post_all(agent, outside, reports.as_slice());
    Ok(())
}

/// Posts reports. Where one is refused, the agent's round is over.
fn post_all<O: Outside>(agent: &mut Agent, outside: &mut O, reports: &[Report])
    ensures posted { PostedFirst O.may_act outside.old outside.new reports.now }
    ensures state { (agent.new ≡ agent.old) ⊎ (agent.new ≡ next agent.old Over) }
{
    match outside.post(reports) {
        Posted::Over => agent.over(),
        Posted::Answered => {}
        Posted::Unknown => {}
    }
}
