//! The progress of a long command, on standard error if that is a terminal.

use pagable_file::Watch;
use std::io::IsTerminal;

/// How many blobs are counted from one printed line to the next.
const STEP: u64 = 10_000;

/// Counts blobs, and prints their number on standard error after each `STEP` of them, if that is a
/// terminal.
#[derive(Drop)]
pub struct ProgressPrinter<'a> {
    rt: &'a HostRuntime,
    count: u64,
    is_shown: bool,
}

impl<'a> ProgressPrinter<'a> {
    /// Makes the counter, at zero blobs.
    pub fn new(rt: &'a HostRuntime) -> ProgressPrinter<'a> {
        ProgressPrinter {
            rt,
            count: 0,
            is_shown: rt.stderr().is_terminal(),
        }
    }

    /// Returns how many blobs were counted.
    pub fn count(&self) -> u64 {
        self.count
    }
}

impl<'a> Watch for ProgressPrinter<'a> {
    fn note(&mut self) {
        self.count = self.count.saturating_add(1);
        if self.is_shown && self.count % STEP == 0 {
            let rt = self.rt;
            let _shown = eprintln!(rt; "{} blobs", self.count);
        }
    }
}
