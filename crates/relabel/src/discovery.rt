//! The final targets of a job's groups.
ghost use Rattle.std.specs.Prelude.{◌≡◌, ◌≤◌, ◌+◌, length, sum_by, IfOk, OnOk};
ghost use Rattle.label_sets.specs.Finish.{finished};
ghost use Rattle.sd_documents.specs.FirstLabels.{first_labels as first_labels_of};
ghost use Rattle.relabel.specs.Applying.{relabelled};
ghost use Rattle.relabel.specs.Discovering.{with_finished, with_relabelled, with_targets, discovered, count_of};

use crate::rule_matcher::RuleMatcher;
use crate::rules::{Relabelled, Rules, run};
use label_sets::{Finished, Target, finish};
use lists::List;
use sd_documents::{Group, Job, first_labels};
use std::alloc::{AllocError, Global};

/// What is found in a job's groups.
#[derive(Debug, Drop)]
pub struct Found {
    /// The final targets, in order.
    pub targets: List<Target>,
    /// How many targets a rule dropped.
    pub dropped: usize,
    /// How many targets had no address after the rules.
    pub no_address: usize,
}

impl Rules {
    /// Each target of each group in order: its first labels, the rules, and what is finished of them. Source 0 is the
    /// job's static groups, and source 1 + i its i-th URL.
    pub fn discover(
        &self,
        alloc: Global,
        job: &Job,
        source: u32,
        groups: &[Group],
    ) -> Result<Found, AllocError>
        requires { source ≤ length job.now.http_urls }
        ensures found { IfOk result (λ f. f ≡ discovered self.now job.now source groups.now) }
        // Each target is found, dropped or without an address.
        ensures all { IfOk result (λ f. count_of f ≡ sum_by (λ (g : Group). length g.targets) groups.now) }
    {
        let mut matchers = self.matchers(alloc)?;
        let mut found = Found {
            targets: List::new(alloc),
            dropped: 0,
            no_address: 0,
        };
        for group in groups {
            add_group(alloc, &mut matchers, job, source, group, &mut found)?;
        }
        Ok(found)
    }
}

fn add_group(
    alloc: Global,
    matchers: &mut [RuleMatcher<'_>],
    job: &Job,
    source: u32,
    group: &Group,
    found: &mut Found,
) -> Result<(), AllocError>
    requires { source ≤ length job.now.http_urls }
    ensures value { OnOk result (found.new ≡ with_targets matchers.old job.now source group.now group.now.targets found.old) }
    ensures same { matchers.new ≡ matchers.old }
{
    for target in group.targets.as_slice() {
        let labels = first_labels(alloc, job, group, target.as_str(), source)?;
        let relabelled = run(alloc, matchers, labels)?;
        add_relabelled(alloc, found, relabelled)?;
    }
    Ok(())
}

fn add_relabelled(
    alloc: Global,
    found: &mut Found,
    relabelled: Relabelled,
) -> Result<(), AllocError>
    ensures { OnOk result (found.new ≡ with_relabelled found.old relabelled) }
{
    match relabelled {
        Relabelled::Kept(labels) => add_finished(found, finish(alloc, &labels)?),
        Relabelled::Dropped(_) => {
            found.dropped = one_more(found.dropped)?;
            Ok(())
        }
    }
}

fn add_finished(found: &mut Found, finished: Finished) -> Result<(), AllocError>
    ensures { OnOk result (found.new ≡ with_finished found.old finished) }
{
    match finished {
        Finished::Target(target) => found.targets.push(target),
        Finished::NoAddress => {
            found.no_address = one_more(found.no_address)?;
            Ok(())
        }
    }
}

/// No memory holds more targets than are counted.
fn one_more(count: usize) -> Result<usize, AllocError>
    ensures { IfOk result (λ n. n ≡ count + 1) }
{
    count.checked_add(1).ok_or(AllocError)
}
