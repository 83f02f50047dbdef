//! Who looks on while the program runs.

use build_pool::Gate;
use path_commands::Watch;
use std::io::Eprint;
use std::time::Clock;
use wire::{Progress, Showing};

/// A gate that holds nothing, and shows how far the build is.
#[derive(Drop)]
pub struct Watcher<'a, R> {
    progress: Progress<'a, R>,
}

impl<'a, R: Clock + Eprint> Watcher<'a, R> {
    /// One that shows progress so, through this runtime.
    pub fn new(rt: &'a R, showing: Showing) -> Watcher<'a, R> {
        Watcher {
            progress: Progress::new(rt, "path_bake", showing),
        }
    }
}

impl<'a, R: Clock + Eprint + Sync> Gate for Watcher<'a, R> {
    fn enter(&self, _piece: u32) {}

    fn built(&self, rows: u32) {
        self.progress.add(rows);
    }
}

impl<'a, R: Clock + Eprint + Sync> Watch for Watcher<'a, R> {
    fn begin(&self, rows: u32) {
        self.progress.begin(rows);
    }

    fn end(&self) {
        self.progress.end();
    }
}
