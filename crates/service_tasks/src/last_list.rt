//! The list that a source had last, and what the next one shares with it.
ghost use Rattle.std.specs.Prelude.{◌≡◌, IfOk};

use fleet_events::Event;
use label_sets::Target;
use lists::{List, Plain, Text, copies};
use std::alloc::{AllocError, Global};

/// The list that a source had last. A journal has a list for each change, and copies of a target share what it is made of: so a target that stays
/// is in memory once, however many lists have it.
#[derive(Drop)]
pub(crate) struct LastList {
    text: Text,
    /// In order of their texts. None where there was no memory for them.
    targets: Vec<Target>,
}

impl LastList {
    /// The list of an event that has this text.
    pub(crate) fn of(alloc: Global, text: Text, event: &Event) -> LastList {
        match in_order(alloc, targets_in(event)) {
            Ok(targets) => LastList { text, targets },
            Err(AllocError) => LastList {
                text,
                targets: Vec::new(alloc),
            },
        }
    }

    /// Whether it has this text.
    pub(crate) fn is(&self, text: &str) -> bool {
        self.text.as_str() == text
    }

    /// The same event, with copies of the targets that this list has, too.
    pub(crate) fn shared_by(&self, alloc: Global, event: Event) -> Event
        ensures { result ≡ event }
    {
        match event {
            Event::Discover {
                job,
                source,
                targets,
            } => Event::Discover {
                job,
                source,
                targets: shared(alloc, self.targets.as_slice(), targets),
            },
            other => other,
        }
    }
}

/// The targets that an event lists.
pub(crate) fn targets_in(event: &Event) -> &[Target] {
    match event {
        Event::Discover { targets, .. } => targets.as_slice(),
        _ => &[],
    }
}

/// Copies of targets, in order of their texts.
fn in_order(alloc: Global, targets: &[Target]) -> Result<Vec<Target>, AllocError> {
    let mut all = copies(alloc, targets)?;
    all.sort_unstable_by(|one, other| one.text().cmp(other.text()));
    Ok(all)
}

/// The same targets, as copies of those that are known, which are in order. Where there is no memory, as they are.
fn shared(alloc: Global, known: &[Target], targets: List<Target>) -> List<Target>
    ensures { result ≡ targets }
{
    match copies_of(alloc, known, targets.as_slice()) {
        Ok(all) => {
            drop(targets);
            List::from_vec(all)
        }
        Err(AllocError) => targets,
    }
}

fn copies_of(alloc: Global, known: &[Target], targets: &[Target]) -> Result<Vec<Target>, AllocError>
    ensures { IfOk result (λ v. v.items ≡ targets.now) }
{
    let mut all = Vec::with_capacity(alloc, targets.len())?;
    for target in targets {
        all.push(copy_of(known, target)?)?;
    }
    Ok(all)
}

/// A copy of the known target that is the same, or of the target itself.
fn copy_of(known: &[Target], target: &Target) -> Result<Target, AllocError>
    ensures { IfOk result (λ t. t ≡ target.now) }
{
    match known.binary_search_by(|other| other.text().cmp(target.text())) {
        Ok(place) => copy_of_same(&known[place], target),
        Err(_) => target.copy(),
    }
}

fn copy_of_same(known: &Target, target: &Target) -> Result<Target, AllocError>
    ensures { IfOk result (λ t. t ≡ target.now) }
{
    if known.same(target) {
        known.copy()
    } else {
        target.copy()
    }
}
