//! The number of a bin.
ghost use Rattle.std.specs.Prelude.{◌≡◌, ◌<◌, ◌≤◌, ◌*◌, ◌+◌};

use fleet::MOST_BINS;

/// The bin of a collector's place and a job's.
pub(crate) fn bin_of(jobs: usize, collectors: usize, place: usize, job: usize) -> u32
    requires home { job < jobs }
    requires place { place < collectors }
    requires bins { jobs * collectors ≤ MOST_BINS }
    ensures bin { result ≡ place * jobs + job }
    ensures below { result < jobs * collectors }
{
    (place * jobs + job) as u32
}
