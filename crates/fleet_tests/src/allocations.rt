//! An allocator is opened, and the laws of its crates are called.
use allocation_core::{Core, JobSpec, answers_fit, published_are_best};
use fleet_assignment::{
    allocations_are_once, feasible_are_carried_over, instances_are_problems, optimal_is_best,
};
use fleet_events::{Event, read_event};
use lists::Text;
use std::alloc::{AllocError, Global};
use std::test::Fail;

/// A collector joins that reaches everything.
pub(crate) const JOIN: &str =
    r#"{"event":"join","name":"a","reach":[{"allow":true,"test":"any"}]}"#;

/// The allocator of one job with two sources.
pub(crate) fn core(alloc: Global) -> Result<Core, AllocError> {
    match jobs(alloc, Text::from_str(alloc, "j")) {
        Ok(jobs) => match Core::open(alloc, jobs) {
            Ok(core) => Ok(core),
            Err(_) => Err(AllocError),
        },
        Err(error) => Err(error),
    }
}

fn jobs(alloc: Global, name: Result<Text, AllocError>) -> Result<Vec<JobSpec>, AllocError> {
    match name {
        Ok(name) => {
            let job = JobSpec {
                name,
                target_limit: 1,
                sources: 2,
            };
            Ok(vec![in alloc; job]?)
        }
        Err(error) => Err(error),
    }
}

/// The event of a line.
pub(crate) fn event_in(alloc: Global, line: &str) -> Result<Event, AllocError> {
    match read_event(alloc, line.as_bytes()) {
        Ok(Some(event)) => Ok(event),
        other => {
            drop(other);
            Err(AllocError)
        }
    }
}

#[test]
fn laws_are_called(rt: HostRuntime) -> Result<(), Fail> {
    published_are_best();
    answers_fit();
    instances_are_problems();
    feasible_are_carried_over();
    optimal_is_best();
    allocations_are_once();
    assert!(rt; knows_nothing(rt.alloc())?);
    Ok(())
}

fn knows_nothing(alloc: Global) -> Result<bool, AllocError> {
    match core(alloc) {
        Ok(core) => {
            let is_new = is_new(&core);
            drop(core);
            is_new
        }
        Err(error) => Err(error),
    }
}

fn is_new(core: &Core) -> Result<bool, AllocError> {
    Ok(is_first(core) && held(core)? == 0 && items(core)? == 0 && certified_items(core)? == 0)
}

/// Whether nothing is known, published or reached.
fn is_first(core: &Core) -> bool {
    let numbers = core.current() == 0 && core.round() == 1;
    let named = core.named("a").is_none() && core.target(0).is_none();
    numbers && named && !core.fleet().reaches(0, 0)
}

/// How many items the next plan is for.
pub(crate) fn items(core: &Core) -> Result<usize, AllocError> {
    match core.instance() {
        Ok(instance) => {
            let items = instance.items();
            drop(instance);
            Ok(items)
        }
        Err(error) => Err(error),
    }
}

/// How many targets the first collector holds.
pub(crate) fn held(core: &Core) -> Result<usize, AllocError> {
    match core.held(1) {
        Ok(held) => {
            let count = held.len();
            drop(held);
            Ok(count)
        }
        Err(error) => Err(error),
    }
}

/// How many items the last plan was for.
fn certified_items(core: &Core) -> Result<usize, AllocError> {
    match core.certificate() {
        Ok((instance, plan)) => {
            let items = instance.items();
            drop((instance, plan));
            Ok(items)
        }
        Err(error) => Err(error),
    }
}
