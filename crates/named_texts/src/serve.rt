//! Lines about named texts, and their answers.

use crate::command::parse;
use crate::durable_command::parse_durable;
use crate::durable_session::DurableSession;
use crate::lines;
use crate::lines::LineAnswerer;
use crate::names::Refusal;
use crate::session::{Answer, Session};
use crate::text::TextEnv;
use pagable::{Error, InMemoryBlobs, KeyHash, PagableStorage, Roots};
use std::alloc::Global;
use std::io;
use std::io::{BufRead, Write};
use std::sync::Wait;

/// Why `serve_durable` ended before the end of the input.
#[derive(Drop)]
pub enum ServeError {
    /// No line was read: the storage can't tell its names of roots, or no memory is left.
    Storage(Error),
    /// Reading or writing failed, or a buffer can't be made.
    Lines(io::Error),
}

/// Answers each line of the input with one line, over blobs in memory whose keys the hash `H`
/// computes. It answers a line that spells no command with `bad line`, and an empty line not at
/// all.
///
/// # Errors
///
/// - an error of reading or writing, or `OutOfMemory` if the storage or a buffer can't be made: the
///   call writes nothing more.
pub fn serve<H: KeyHash, T: Wait, R: BufRead, W: Write + Drop>(
    rt: &T,
    alloc: Global,
    reader: &mut R,
    writer: W,
) -> io::Result<()> {
    match Session::<T, H, InMemoryBlobs<TextEnv<H>>>::in_memory(rt, alloc) {
        Ok(mut session) => lines::serve(alloc, &mut session, reader, writer),
        Err(_) => Err(io::ErrorKind::OutOfMemory.into()),
    }
}

/// Answers each line of the input with one line, over a storage with names of roots: the lines that
/// `serve` answers, and those of `DurableCommand`. At the end of the input it drops the storage,
/// with all that no `flush` line committed.
///
/// # Errors
///
/// - `Storage` with the error of `DurableSession::open`: the call reads no line.
/// - `Lines` with the error of reading, of writing or of making a buffer: the call writes nothing
///   more.
pub fn serve_durable<H: KeyHash, S: Roots<TextEnv<H>> + Drop, T: Wait, R: BufRead, W: Write + Drop>(
    rt: &T,
    alloc: Global,
    storage: S,
    reader: &mut R,
    writer: W,
) -> Result<(), ServeError> {
    match DurableSession::<T, H, S>::open(rt, alloc, storage) {
        Ok(mut session) => {
            lines::serve(alloc, &mut session, reader, writer).map_err(ServeError::Lines)
        }
        Err(e) => Err(ServeError::Storage(e)),
    }
}

impl<'a, T: Wait, H: KeyHash, S: PagableStorage<TextEnv<H>>> LineAnswerer for Session<'a, T, H, S> {
    /// Writes no answer to an empty line.
    fn answer<W: Write>(
        &mut self,
        alloc: Global,
        line: Option<&str>,
        writer: &mut W,
    ) -> io::Result<()> {
        if line == Some("") {
            return Ok(());
        }
        match line.and_then(parse) {
            None => writer.write_all(b"bad line\n"),
            Some(command) => {
                let outcome = self.run(alloc, command);
                write(&outcome, writer)
            }
        }
    }
}

impl<'a, T: Wait, H: KeyHash, S: Roots<TextEnv<H>>> LineAnswerer for DurableSession<'a, T, H, S> {
    /// Answers a line that spells no durable command as its session does.
    fn answer<W: Write>(
        &mut self,
        alloc: Global,
        line: Option<&str>,
        writer: &mut W,
    ) -> io::Result<()> {
        match line.and_then(parse_durable) {
            None => self.session.answer(alloc, line, writer),
            Some(command) => {
                let outcome = self.run(alloc, command);
                write(&outcome, writer)
            }
        }
    }
}

/// Writes what a command answers, or why it fails.
fn write<W: Write>(outcome: &Result<Answer, Refusal>, writer: &mut W) -> io::Result<()> {
    match outcome {
        Ok(Answer::Word(word)) => writeln!(writer, "{word}"),
        Ok(Answer::Number(number)) => writeln!(writer, "{number}"),
        Ok(Answer::Value(node)) => writeln!(writer, "{}", node.as_str()),
        Ok(Answer::Counts(counts)) => writeln!(writer, "{counts}"),
        Err(Refusal::BadName) => writeln!(writer, "bad name"),
        Err(Refusal::NoName) => writeln!(writer, "no name"),
        Err(Refusal::Error(e)) => writeln!(writer, "error {}", e.number()),
    }
}
