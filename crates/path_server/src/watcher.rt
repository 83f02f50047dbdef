//! Who looks on while the program runs.

use build_pool::Gate;
use path_commands::Watch;
use std::io::Eprint;
use std::sync::Mutex;
use std::time::Clock;
use wire::{Progress, Showing};

/// A gate that holds nothing, shows how far the first version is, and keeps remarks for the end of the
/// run.
#[derive(Drop)]
pub struct Watcher<'a, R> {
    progress: Progress<'a, R>,
    remarks: Mutex<Option<String>>,
}

impl<'a, R: Clock + Eprint> Watcher<'a, R> {
    /// One that shows progress so, through this runtime.
    pub fn new(rt: &'a R, showing: Showing) -> Watcher<'a, R> {
        Watcher {
            progress: Progress::new(rt, "path_server", showing),
            remarks: Mutex::new(None),
        }
    }

    /// What was remarked, if anything was.
    pub fn remarks(self) -> Option<String> {
        self.remarks.into_inner()
    }
}

impl<'a, R: Clock + Eprint + Sync> Gate for Watcher<'a, R> {
    fn enter(&self, _piece: u32) {}

    fn built(&self, rows: u32) {
        self.progress.add(rows);
    }
}

impl<'a, R: Clock + Eprint + Sync> Watch for Watcher<'a, R> {
    fn begin(&self, rows: u32) {
        self.progress.begin(rows);
    }

    fn end(&self) {
        self.progress.end();
    }

    fn remark(&self, lines: String) {
        if let Some(mut kept) = self.remarks.try_lock() {
            *kept = Some(lines);
        }
    }
}
