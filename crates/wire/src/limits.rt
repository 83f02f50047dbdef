//! The threads and descriptors that the system gives.

use std::alloc::{AllocError, Global};
use std::net::TcpListener;
use std::os::unix::fs::MetadataExt;
use std::sync::Wait;
use std::sync::atomic::{AtomicBool, Ordering};
use std::thread::Threads;
use std::time::{Clock, Duration};
use std::{fs, io, rt, thread};

/// A folder with one link for each thread of the program, and [`FOLDER_LINKS`], if the system has it.
const THREADS_FOLDER: &str = "/proc/self/task";

/// How many links the system gives a folder that has no subfolders.
const FOLDER_LINKS: u64 = 2;

/// How long to wait at most until the system has removed threads that ended, in milliseconds.
const SETTLING_TIME: u32 = 200;

/// Why the system does not give this many descriptors besides those that are open, or `None` if it does. Those that it
/// gives are closed again.
pub(crate) fn lack_of_descriptors(
    alloc: Global,
    listener: &TcpListener,
    count: usize,
) -> Result<Option<io::Error>, AllocError> {
    let mut spare = Vec::with_capacity(alloc, count)?;
    for _ in 0..count {
        match listener.try_clone() {
            Ok(handle) => spare.push(handle)?,
            Err(error) => return Ok(Some(error)),
        }
    }
    Ok(None)
}

/// Whether the system gives `count` threads besides this one, which must be the only one. They have ended by the return
/// and the system no longer counts them, so as many can be started at once.
pub(crate) fn has_threads<R: Threads + Wait + Clock + rt::Files>(rt: &R, count: u32) -> bool {
    settle(rt);
    let over = AtomicBool::new(false);
    let waited = &over;
    let all = thread::scope(thread::scope_env(), rt, |scope| {
        let mut all = true;
        for _ in 0..count {
            if scope.spawn(move || wait_for_end(waited)).is_err() {
                all = false;
            }
        }
        waited.store(true, Ordering::SeqCst);
        all
    });
    settle(rt);
    all
}

/// Waits until the check is over: the threads that were asked for have been made or refused.
fn wait_for_end(over: &AtomicBool) {
    for _ in 0..u64::MAX {
        if over.load(Ordering::SeqCst) {
            return;
        }
        thread::yield_now();
    }
}

/// Waits until the system counts this thread alone: it counts a thread that has ended for a little longer.
fn settle<R: Clock + rt::Files>(rt: &R) {
    for _ in 0..SETTLING_TIME {
        match fs::metadata(rt, THREADS_FOLDER) {
            Ok(folder) if folder.nlink() > FOLDER_LINKS + 1 => {
                thread::sleep(rt, Duration::from_millis(1));
            }
            _ => return,
        }
    }
}
