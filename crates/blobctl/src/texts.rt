//! The service of lines about texts that a file keeps under names.

use crate::refusal::Refusal;
use named_texts::TextEnv;
use named_texts::serve::{ServeError, serve_durable};
use pagable_core::Sha256Key;
use pagable_file::{FileBlobs, FileOfBlobs};
use std::io;
use std::io::BufReader;
use std::sync::Wait;

/// A file of blobs of texts, with keys by SHA-256.
type TextBlobs = FileOfBlobs<TextEnv<Sha256Key>>;

/// Answers each line of the input over the texts in the file of a path. It waits for locks by `waits`.
///
/// # Errors
///
/// - `File` if the file can't be opened, `Blobs` if its names of roots can't be read: no line is read.
/// - `Output` for an error of reading or writing, or of making a buffer: the call writes nothing more.
pub fn serve_texts<W: Wait>(rt: &HostRuntime, waits: &W, path: &str) -> Result<(), Refusal> {
    let blobs: TextBlobs = FileBlobs::open(rt, path)?;
    let mut reader = BufReader::new(rt.alloc(), rt.reader())?;
    let writer = io::writer(rt);
    match serve_durable::<Sha256Key, _, _, _, _>(waits, rt.alloc(), blobs, &mut reader, writer) {
        Ok(()) => Ok(()),
        Err(ServeError::Lines(error)) => Err(Refusal::Output(error)),
        Err(ServeError::Storage(error)) => Err(Refusal::Blobs(error)),
    }
}
