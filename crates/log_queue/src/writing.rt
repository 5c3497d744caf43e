//! The thread that writes.
use crate::log_queue::LogQueue;
use log::warn;
use logfmt::Logfmt;
use std::alloc::{AllocError, AllocGlobal};
use std::sync::atomic::{AtomicU64, Ordering};
use std::sync::{Arc, Wait};
use std::thread;
use std::thread::Threads;
use std::time::Clock;

/// A queue, and the thread that writes to standard error what is in it. The thread ends once the queue is closed and empty; where nobody
/// reads what it writes it ends with the process.
pub fn start_log<R>(rt: &R) -> Result<Arc<LogQueue>, AllocError>
where
    R: Wait + Threads + Clock + AllocGlobal + Eprint + Send + Copy + Drop + 'static,
{
    let lost = Arc::new(rt.alloc(), AtomicU64::new(0))?;
    let queue = Arc::new(rt.alloc(), LogQueue::new(rt.alloc(), lost))?;
    let writers = Arc::try_clone(&queue)?;
    let own = *rt;
    let _writer = thread::spawn(rt, move || write_texts(&own, &writers))?;
    Ok(queue)
}

/// Writes what is in the queue, until it is closed and empty.
fn write_texts<R: Wait + Clock + Eprint + Copy>(rt: &R, queue: &LogQueue) {
    let mut told = 0;
    for _ in rt.forever() {
        let Some(texts) = queue.take(rt) else {
            return;
        };
        for text in texts.iter() {
            // Nobody can be told that it was not written.
            let _ = rt.eprint(text.as_str());
        }
        told = tell_lost(rt, queue.lost(), told);
    }
    unreachable!()
}

/// Tells how many texts were lost, where more were than are told, and gives how many are told then.
fn tell_lost<R: Clock + Eprint + Copy>(rt: &R, lost: &AtomicU64, told: u64) -> u64 {
    let now = lost.load(Ordering::SeqCst);
    let lines = now.saturating_sub(told);
    if lines > 0 {
        warn!(Logfmt(*rt); lines; "log lines are lost: nobody read them in time");
    }
    now
}
