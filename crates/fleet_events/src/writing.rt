//! Events as JSON texts.
ghost use Rattle.std.specs.Prelude.{◌≡◌, ◌∷◌, ◌++◌, [], Some, None, false, IfOk, OnOk, codes};
ghost use Rattle.std.specs.List.{list_any};
ghost use Rattle.json.specs.Token.{key, string as string_token};
ghost use Rattle.serde_json.specs.Data.{object, no_members};
ghost use Rattle.serde_json.specs.View.{view, members_view};
ghost use Rattle.json_values.specs.Spelling.{list_data};
ghost use Rattle.json_values.specs.Texts.{is_line_feed, tokens_of};
ghost use Rattle.label_sets.specs.Target.{target_data};
ghost use Rattle.fleet_events.specs.Targets.{AreReadBack, IsReadBack, target_in};
ghost use Rattle.fleet_events.specs.Reading.{event_in, event_of, reported};
ghost use Rattle.fleet_events.specs.Writing.{discover_data, is_discovery, unlimited_join_data, limited_join_data, join_data, collector_data, set_limits_data, source_tokens, install_data, round_data, serve_data, job_release_data, release_data, report_data, event_data, event_text};

use crate::event::Event;
use crate::ids::CollectorId;
use crate::members::put_event;
use crate::report::Report;
use crate::spreads::spread_value;
use json::Writer;
use json_values::{Spelled, put_written, text_of, written_text};
use label_sets::{Target, finishes_again, map_laws};
use lists::Text;
use price_certificate::Plan;
use reach_rules::{CollectorName, OwnLimits, Reach};
use scrape_books::Outcome;
use serde_json::{Map, Value, json};
use std::alloc::{AllocError, Global};

impl Event {
    /// The event as one compact JSON object. It has no line feed, and reads back as the event.
    pub fn to_json(&self, alloc: Global) -> Result<Text, AllocError>
        ensures form { IfOk result (λ t. t ≡ event_text self.now) }
        ensures one_line { IfOk result (λ t. list_any is_line_feed t ≡ false) }
        ensures reads_back { IfOk result (λ t. event_of t ≡ Some self.now) }
    {
        if let Event::Discover {
            job,
            source,
            targets,
        } = self
        {
            return discover_text(alloc, job.as_str(), *source, targets.as_slice());
        }
        self.plain_text(alloc)
    }

    /// The text of an event that is no discovery, by way of a value.
    fn plain_text(&self, alloc: Global) -> Result<Text, AllocError>
        requires { is_discovery self.now ≡ false }
        ensures form { IfOk result (λ t. t ≡ event_text self.now) }
        ensures one_line { IfOk result (λ t. list_any is_line_feed t ≡ false) }
        ensures reads_back { IfOk result (λ t. event_of t ≡ Some self.now) }
    {
        let value = self.to_value(alloc)?;
        text_of(alloc, &value)
    }

    fn to_value(&self, alloc: Global) -> Result<Value, AllocError>
        requires { is_discovery self.now ≡ false }
        ensures form { IfOk result (λ v. view v ≡ event_data self.now) }
        ensures reads_back { IfOk result (λ v. event_in (view v) ≡ Some self.now) }
    {
        match self {
            Event::Discover { .. } => unreachable!(),
            Event::Join {
                name,
                reach,
                limits,
            } => join_value(alloc, name, reach, limits),
            Event::Leave(collector) => leave_value(alloc, *collector),
            Event::Drain(collector) => drain_value(alloc, *collector),
            Event::SetLimits { collector, limits } => set_limits_value(alloc, *collector, limits),
            Event::Install(plan) => install_value(alloc, plan),
            Event::Spread(spread) => spread_value(alloc, spread),
            Event::NextRound => round_value(alloc),
            Event::Take(collector) => take_value(alloc, *collector),
            Event::Serve { collector, job } => serve_value(alloc, *collector, job),
            Event::Release { collector, job } => release_value(alloc, *collector, job),
            Event::Report(report) => report_value(alloc, *report),
        }
    }
}

/// A discovery. Its targets are many, so no value is made of them.
fn discover_text(
    alloc: Global,
    job: &str,
    source: u32,
    targets: &[Target],
) -> Result<Text, AllocError>
    ensures form { IfOk result (λ t. t ≡ event_text (Event.Discover job.now source targets.now)) }
    ensures one_line { IfOk result (λ t. list_any is_line_feed t ≡ false) }
    ensures reads_back { IfOk result (λ t. event_of t ≡ Some (Event.Discover job.now source targets.now)) }
{
    let mut out = Writer::new(Vec::new(alloc));
    match put_discover(&mut out, job, source, targets) {
        Ok(()) => written_text(out),
        Err(error) => {
            drop(out);
            Err(error)
        }
    }
}

fn put_discover(
    out: &mut Writer,
    job: &str,
    source: u32,
    targets: &[Target],
) -> Result<(), AllocError>
    ensures tokens { OnOk result (out.new.tokens ≡ out.old.tokens ++ tokens_of (discover_data job.now source targets.now)) }
    ensures before { out.new.before ≡ out.old.before }
    ensures said { OnOk result (AreReadBack targets.now) }
{
    put_source(out, job, u64::from(source))?;
    put_targets(out, targets)?;
    out.end_object()
}

/// Writes what a discovery says before its targets.
fn put_source(out: &mut Writer, job: &str, source: u64) -> Result<(), AllocError>
    ensures tokens { OnOk result (out.new.tokens ≡ out.old.tokens ++ source_tokens job.now source) }
    ensures before { out.new.before ≡ out.old.before }
{
    out.begin_object()?;
    put_text(out, "event", "discover")?;
    put_text(out, "job", job)?;
    out.key("source")?;
    out.u64(source)?;
    out.key("targets")
}

fn put_text(out: &mut Writer, name: &str, text: &str) -> Result<(), AllocError>
    ensures tokens { OnOk result (out.new.tokens ≡ out.old.tokens ++ key name.now ∷ string_token text.now ∷ []) }
    ensures before { out.new.before ≡ out.old.before }
{
    out.key(name)?;
    out.string(text)
}

fn put_targets(out: &mut Writer, targets: &[Target]) -> Result<(), AllocError>
    ensures tokens { OnOk result (out.new.tokens ≡ out.old.tokens ++ tokens_of (list_data target_data targets.now)) }
    ensures before { out.new.before ≡ out.old.before }
    ensures said { OnOk result (AreReadBack targets.now) }
{
    out.begin_array()?;
    for target in targets {
        put_target(out, target)?;
    }
    out.end_array()
}

fn put_target(out: &mut Writer, target: &Target) -> Result<(), AllocError>
    ensures tokens { OnOk result (out.new.tokens ≡ out.old.tokens ++ tokens_of (target_data target.now)) }
    ensures before { out.new.before ≡ out.old.before }
    ensures said { IsReadBack target.now }
{
    map_laws();
    finishes_again();
    target.write(out)
}

/// The target's group as a JSON value, which says the target again.
pub fn target_value(alloc: Global, target: &Target) -> Result<Value, AllocError>
    ensures form { IfOk result (λ v. view v ≡ target_data target.now) }
    ensures reads_back { IfOk result (λ v. target_in (view v) ≡ Some target.now) }
{
    map_laws();
    finishes_again();
    target.to_value(alloc)
}

fn join_value(
    alloc: Global,
    name: &CollectorName,
    reach: &Reach,
    limits: &OwnLimits,
) -> Result<Value, AllocError>
    ensures form { IfOk result (λ v. view v ≡ join_data name.now reach.now limits.now) }
    ensures reads_back { IfOk result (λ v. event_in (view v) ≡ Some (Event.Join name.now reach.now limits.now)) }
{
    if limits.is_empty() {
        return unlimited_join_value(alloc, name, reach);
    }
    limited_join_value(alloc, name, reach, limits)
}

fn unlimited_join_value(
    alloc: Global,
    name: &CollectorName,
    reach: &Reach,
) -> Result<Value, AllocError>
    ensures form { IfOk result (λ v. view v ≡ unlimited_join_data name.now reach.now) }
    ensures reads_back { IfOk result (λ v. event_in (view v) ≡ Some (Event.Join name.now reach.now [])) }
{
    let mut members = Map::new(alloc);
    match put_unlimited_join(&mut members, alloc, name, reach) {
        Ok(()) => Ok(Value::Object(members)),
        Err(refused) => {
            drop(members);
            Err(refused)
        }
    }
}

#[tactic(auto, unfolding(crate::specs::Reading::event_in, crate::specs::Reading::join_in))]
fn put_unlimited_join(
    members: &mut Map<String, Value>,
    alloc: Global,
    name: &CollectorName,
    reach: &Reach,
) -> Result<(), AllocError>
    requires { members_view members.old.entries ≡ no_members }
    ensures form { OnOk result (object (members_view members.new.entries) ≡ unlimited_join_data name.now reach.now) }
    ensures reads_back { OnOk result (event_in (object (members_view members.new.entries)) ≡ Some (Event.Join name.now reach.now [])) }
{
    put_event(members, alloc, "join")?;
    put_written(members, alloc, "name", name)?;
    put_written(members, alloc, "reach", reach)
}

fn limited_join_value(
    alloc: Global,
    name: &CollectorName,
    reach: &Reach,
    limits: &OwnLimits,
) -> Result<Value, AllocError>
    ensures form { IfOk result (λ v. view v ≡ limited_join_data name.now reach.now limits.now) }
    ensures reads_back { IfOk result (λ v. event_in (view v) ≡ Some (Event.Join name.now reach.now limits.now)) }
{
    let mut members = Map::new(alloc);
    match put_limited_join(&mut members, alloc, name, reach, limits) {
        Ok(()) => Ok(Value::Object(members)),
        Err(refused) => {
            drop(members);
            Err(refused)
        }
    }
}

#[tactic(auto, unfolding(crate::specs::Reading::event_in, crate::specs::Reading::join_in))]
fn put_limited_join(
    members: &mut Map<String, Value>,
    alloc: Global,
    name: &CollectorName,
    reach: &Reach,
    limits: &OwnLimits,
) -> Result<(), AllocError>
    requires { members_view members.old.entries ≡ no_members }
    ensures form { OnOk result (object (members_view members.new.entries) ≡ limited_join_data name.now reach.now limits.now) }
    ensures reads_back { OnOk result (event_in (object (members_view members.new.entries)) ≡ Some (Event.Join name.now reach.now limits.now)) }
{
    put_event(members, alloc, "join")?;
    put_written(members, alloc, "limits", limits)?;
    put_written(members, alloc, "name", name)?;
    put_written(members, alloc, "reach", reach)
}

#[tactic(auto, unfolding(crate::specs::Reading::event_in))]
fn leave_value(alloc: Global, collector: CollectorId) -> Result<Value, AllocError>
    ensures form { IfOk result (λ v. view v ≡ collector_data (codes "leave") collector) }
    ensures reads_back { IfOk result (λ v. event_in (view v) ≡ Some (Event.Leave collector)) }
{
    json!(in alloc; {"collector": collector, "event": "leave"})
}

#[tactic(auto, unfolding(crate::specs::Reading::event_in))]
fn drain_value(alloc: Global, collector: CollectorId) -> Result<Value, AllocError>
    ensures form { IfOk result (λ v. view v ≡ collector_data (codes "drain") collector) }
    ensures reads_back { IfOk result (λ v. event_in (view v) ≡ Some (Event.Drain collector)) }
{
    json!(in alloc; {"collector": collector, "event": "drain"})
}

#[tactic(auto, unfolding(crate::specs::Reading::event_in, crate::specs::Reading::set_limits_in))]
fn set_limits_value(
    alloc: Global,
    collector: CollectorId,
    limits: &OwnLimits,
) -> Result<Value, AllocError>
    ensures form { IfOk result (λ v. view v ≡ set_limits_data collector limits.now) }
    ensures reads_back { IfOk result (λ v. event_in (view v) ≡ Some (Event.SetLimits collector limits.now)) }
{
    let limits = limits.write(alloc)?;
    json!(in alloc; {"collector": collector, "event": "limits", "limits": limits})
}

fn install_value(alloc: Global, plan: &Plan) -> Result<Value, AllocError>
    ensures form { IfOk result (λ v. view v ≡ install_data plan.now) }
    ensures reads_back { IfOk result (λ v. event_in (view v) ≡ Some (Event.Install plan.now)) }
{
    let mut members = Map::new(alloc);
    match put_install(&mut members, alloc, plan) {
        Ok(()) => Ok(Value::Object(members)),
        Err(refused) => {
            drop(members);
            Err(refused)
        }
    }
}

#[tactic(auto, unfolding(crate::specs::Reading::event_in, price_certificate::specs::Plan::plan_in))]
fn put_install(
    members: &mut Map<String, Value>,
    alloc: Global,
    plan: &Plan,
) -> Result<(), AllocError>
    requires { members_view members.old.entries ≡ no_members }
    ensures form { OnOk result (object (members_view members.new.entries) ≡ install_data plan.now) }
    ensures reads_back { OnOk result (event_in (object (members_view members.new.entries)) ≡ Some (Event.Install plan.now)) }
{
    put_written(members, alloc, "bin_prices", &plan.bin_prices)?;
    put_event(members, alloc, "install")?;
    put_written(members, alloc, "item_prices", &plan.item_prices)?;
    put_written(members, alloc, "pairs", &plan.pairs)
}

#[tactic(auto, unfolding(crate::specs::Reading::event_in))]
fn round_value(alloc: Global) -> Result<Value, AllocError>
    ensures form { IfOk result (λ v. view v ≡ round_data) }
    ensures reads_back { IfOk result (λ v. event_in (view v) ≡ Some Event.NextRound) }
{
    json!(in alloc; {"event": "round"})
}

#[tactic(auto, unfolding(crate::specs::Reading::event_in))]
fn take_value(alloc: Global, collector: CollectorId) -> Result<Value, AllocError>
    ensures form { IfOk result (λ v. view v ≡ collector_data (codes "take") collector) }
    ensures reads_back { IfOk result (λ v. event_in (view v) ≡ Some (Event.Take collector)) }
{
    json!(in alloc; {"collector": collector, "event": "take"})
}

#[tactic(auto, unfolding(crate::specs::Reading::event_in, crate::specs::Reading::serve_in))]
fn serve_value(alloc: Global, collector: CollectorId, job: &Text) -> Result<Value, AllocError>
    ensures form { IfOk result (λ v. view v ≡ serve_data collector job.now) }
    ensures reads_back { IfOk result (λ v. event_in (view v) ≡ Some (Event.Serve collector job.now)) }
{
    let job = job.as_str();
    json!(in alloc; {"collector": collector, "event": "serve", "job": job})
}

fn release_value(
    alloc: Global,
    collector: CollectorId,
    job: &Option<Text>,
) -> Result<Value, AllocError>
    ensures form { IfOk result (λ v. view v ≡ release_data collector job.now) }
    ensures reads_back { IfOk result (λ v. event_in (view v) ≡ Some (Event.Release collector job.now)) }
{
    match job {
        Some(job) => job_release_value(alloc, collector, job),
        None => whole_release_value(alloc, collector),
    }
}

#[tactic(auto, unfolding(crate::specs::Reading::event_in, crate::specs::Reading::release_in))]
fn job_release_value(alloc: Global, collector: CollectorId, job: &Text) -> Result<Value, AllocError>
    ensures form { IfOk result (λ v. view v ≡ job_release_data collector job.now) }
    ensures reads_back { IfOk result (λ v. event_in (view v) ≡ Some (Event.Release collector (Some job.now))) }
{
    let job = job.as_str();
    json!(in alloc; {"collector": collector, "event": "release", "job": job})
}

#[tactic(auto, unfolding(crate::specs::Reading::event_in, crate::specs::Reading::release_in))]
fn whole_release_value(alloc: Global, collector: CollectorId) -> Result<Value, AllocError>
    ensures form { IfOk result (λ v. view v ≡ collector_data (codes "release") collector) }
    ensures reads_back { IfOk result (λ v. event_in (view v) ≡ Some (Event.Release collector None)) }
{
    json!(in alloc; {"collector": collector, "event": "release"})
}

fn report_value(alloc: Global, report: Report) -> Result<Value, AllocError>
    ensures form { IfOk result (λ v. view v ≡ report_data report.collector report.allocation report.target report.round report.outcome) }
    ensures reads_back { IfOk result (λ v. event_in (view v) ≡ Some (Event.Report report)) }
{
    match report.outcome {
        Outcome::Up(samples) => up_value(alloc, report, samples),
        Outcome::Down => down_value(alloc, report),
    }
}

#[tactic(auto, unfolding(crate::specs::Reading::event_in, crate::specs::Reading::report_in, crate::specs::Reading::outcome_in))]
fn up_value(alloc: Global, report: Report, samples: u32) -> Result<Value, AllocError>
    ensures form { IfOk result (λ v. view v ≡ report_data report.collector report.allocation report.target report.round (Outcome.Up samples)) }
    ensures reads_back { IfOk result
        (λ v. event_in (view v) ≡ Some (reported report.collector report.allocation report.target report.round (Outcome.Up samples))) }
{
    json!(in alloc; {
        "collector": report.collector,
        "event": "report",
        "number": report.allocation,
        "round": report.round,
        "samples": samples,
        "target": report.target,
        "up": true
    })
}

#[tactic(auto, unfolding(crate::specs::Reading::event_in, crate::specs::Reading::report_in, crate::specs::Reading::outcome_in))]
fn down_value(alloc: Global, report: Report) -> Result<Value, AllocError>
    ensures form { IfOk result (λ v. view v ≡ report_data report.collector report.allocation report.target report.round Outcome.Down) }
    ensures reads_back { IfOk result
        (λ v. event_in (view v) ≡ Some (reported report.collector report.allocation report.target report.round Outcome.Down)) }
{
    json!(in alloc; {
        "collector": report.collector,
        "event": "report",
        "number": report.allocation,
        "round": report.round,
        "target": report.target,
        "up": false
    })
}
