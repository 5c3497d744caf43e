//! Counting the samples of a scraped body.
ghost use Rattle.std.specs.Prelude.{◌≡◌, ◌+◌, if◌then◌else◌};
ghost use Rattle.scrape_books.specs.Samples.{first_mark, is_sample_line, sample_count, saturated};

use memchr::memchr_iter;

/// How many samples a scraped body has, at most 4,294,967,295: how many of its lines hold more than spaces and tabs and have
/// another first mark than `#`, in the Prometheus text exposition format, version 0.0.4, "Text format details". It takes no
/// memory.
pub fn count_samples(body: &[u8]) -> u32
    ensures { result ≡ saturated (sample_count body.now) }
{
    let mut count = 0;
    let mut start = 0;
    for end in memchr_iter(b'\n', body) {
        count = counted(count, &body[start..end]);
        start = end + 1;
    }
    counted(count, &body[start..])
}

/// The count with one more line.
#[inline]
fn counted(count: u32, line: &[u8]) -> u32
    ensures { result ≡ saturated (count + (if is_sample_line line.now then 1 else 0)) }
{
    if is_sample_line(line) {
        count.saturating_add(1)
    } else {
        count
    }
}

#[inline]
fn is_sample_line(line: &[u8]) -> bool
    ensures { result ≡ is_sample_line line.now }
{
    match first_mark(line) {
        Some(byte) => byte != b'#',
        None => false,
    }
}

/// The line's first byte that is neither a space nor a tab.
#[inline]
fn first_mark(line: &[u8]) -> Option<u8>
    ensures { result ≡ first_mark line.now }
{
    line.iter()
        .copied()
        .find(|byte| *byte != b' ' && *byte != b'\t')
}
