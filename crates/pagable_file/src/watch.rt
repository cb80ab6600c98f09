//! Reports of progress in long calls.

/// Receives reports of progress from a long call.
pub trait Watch {
    /// Notes that the call has handled one more blob.
    fn note(&mut self);
}

/// Ignores all reports.
impl Watch for () {
    fn note(&mut self) {}
}
