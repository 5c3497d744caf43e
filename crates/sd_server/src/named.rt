//! Whether the jobs of an allocator are those of a configuration, by their names.
ghost use Rattle.std.specs.Prelude.{◌≡◌, IfOk, IsTrue};
ghost use Rattle.sd_server.specs.Named.{AreNamed, names_of};

use fleet::JobSpec;
use lists::{List, Plain, Text, all_same};
use service_state::ConfigPages;
use std::alloc::{AllocError, Global};

/// Whether jobs have the names that the pages of a configuration tell, in the same order. A job that is asked for is looked up in the pages, and
/// taken from the allocator at the same place.
pub fn are_named(alloc: Global, pages: &ConfigPages, jobs: &[JobSpec]) -> Result<bool, AllocError>
    ensures { IfOk result (λ are. IsTrue are → AreNamed pages.now.names jobs.now) }
{
    let names = names_of(alloc, jobs)?;
    Ok(all_same(pages.names.as_slice(), names.as_slice()))
}

fn names_of(alloc: Global, jobs: &[JobSpec]) -> Result<List<Text>, AllocError>
    ensures { IfOk result (λ names. names ≡ names_of jobs.now) }
{
    let mut names = List::new(alloc);
    for job in jobs {
        names.push(job.name.copy()?)?;
    }
    Ok(names)
}
