//! `blobctl FILE COMMAND..` shows or changes a file of blobs with named roots, whose keys SHA-256 makes.
//! `blobctl FILE serve` answers a command on each line of its input. `blobctl texts FILE` answers lines
//! about texts that the file keeps under names. `blobctl help` lists the commands.
//!
//! What a command shows stands on standard output, and why it fails on standard error, behind the
//! file's path. The status is 0, 1 for a flaw, a difference or what isn't there, 2 for a wrong call, 3 if a
//! file fails.
#![tactic(auto)]

mod arguments;
mod blobs;
mod cache;
mod cache_change;
mod change;
mod collect;
mod command;
mod copy;
mod diff;
mod entry;
mod export;
mod find;
mod graph;
mod import;
mod json;
mod keep;
mod line;
mod listing;
mod look;
mod new_file;
mod progress;
mod reach;
mod refusal;
mod run;
mod serve;
mod texts;
mod tree;
mod usage;
mod versions;
mod words;

use crate::arguments::{Request, parse};
use crate::command::Command;
use crate::entry::read_entry;
use crate::look::Answer;
use crate::new_file::write_file;
use crate::refusal::Refusal;
use crate::run::run;
use crate::serve::print;
use crate::texts::serve_texts;
use clap::error::ErrorKind;
use pagable_core::Sha256Key;
use pagable_file::{BlobEnv, FileOfBlobs};
use std::io::Write;
use std::process::ExitCode;
use std::sync::Wait;
use std::{env, io};

/// A file of blobs of any kind, with keys by SHA-256.
type AnyBlobs = FileOfBlobs<BlobEnv<Sha256Key>>;

/// Prints bytes on standard output.
fn print_bytes(rt: &HostRuntime, bytes: &[u8]) -> Result<(), Refusal> {
    let mut output = io::writer(rt);
    output.write_all(bytes).map_err(Refusal::Output)
}

/// Writes the content of an entry of the cache to the file of a path, or prints it. Tells the status that
/// is kept with it on standard error, unless that is 0.
fn write_out(rt: &HostRuntime, bytes: &[u8], path: Option<String>) -> Result<(), Refusal> {
    let Some((facts, content)) = read_entry(bytes) else {
        return Err(Refusal::Miss);
    };
    match path {
        Some(path) => write_file(rt, path.as_str(), content)?,
        None => print_bytes(rt, content)?,
    }
    if facts.status != 0 {
        let _shown = eprintln!(rt; "blobctl: kept status {}", facts.status);
    }
    Ok(())
}

/// Prints what a command answers, and returns the status: 1 if it names a flaw or a difference.
fn print_answer(rt: &HostRuntime, answer: Answer) -> Result<u8, Refusal> {
    match answer {
        Answer::Lines(text) => {
            print(rt, text.as_str())?;
            Ok(0)
        }
        Answer::Flaws(text) | Answer::Differences(text) => {
            print(rt, text.as_str())?;
            Ok(1)
        }
        Answer::Blob(blob) => {
            print_bytes(rt, blob.bytes.as_slice())?;
            Ok(0)
        }
        Answer::Entry(blob, path) => {
            write_out(rt, blob.bytes.as_slice(), path)?;
            Ok(0)
        }
    }
}

/// Serves a request, and returns the status of a success.
fn serve_request<W: Wait>(
    rt: &HostRuntime,
    waits: &W,
    request: Request<'_>,
) -> Result<u8, Refusal> {
    match request.command {
        Command::Texts => {
            serve_texts(rt, waits, request.path)?;
            Ok(0)
        }
        command => print_answer(rt, run::<AnyBlobs>(rt, request.path, command)?),
    }
}

/// Tells why a command over the file of a path fails, unless that is nobody's fault or the status tells
/// it, and returns the status.
fn tell(rt: &HostRuntime, path: &str, refusal: &Refusal) -> u8 {
    if refusal.is_broken_pipe() {
        return 0;
    }
    if refusal.is_miss() {
        return refusal.status();
    }
    let _shown = eprintln!(rt; "blobctl: {}: {refusal}", path.escape_debug());
    refusal.status()
}

/// Serves what the program's arguments ask for, and returns the status.
fn serve_arguments<W: Wait>(rt: &HostRuntime, waits: &W) -> io::Result<u8> {
    let words: Vec<String> = env::args(rt)?.skip(1).collect(rt.alloc())?;
    match parse(rt.alloc(), words.as_slice()) {
        Ok(request) => {
            let path = request.path;
            match serve_request(rt, waits, request) {
                Ok(status) => Ok(status),
                Err(refusal) => Ok(tell(rt, path, &refusal)),
            }
        }
        Err(error) if error.kind() == ErrorKind::OutOfMemory => {
            Err(io::Error::from(io::ErrorKind::OutOfMemory))
        }
        Err(error) => {
            error.print(rt)?;
            Ok(error.exit_code() as u8)
        }
    }
}

fn main(rt: HostRuntime) -> ExitCode {
    match serve_arguments(&rt, &rt) {
        Ok(status) => ExitCode::from(status),
        Err(error) if error.kind() == io::ErrorKind::InvalidData => {
            let _shown = eprintln!(rt; "blobctl: an argument isn't UTF-8");
            ExitCode::from(2)
        }
        Err(error) => {
            let _shown = eprintln!(rt; "blobctl: {error}");
            ExitCode::from(3)
        }
    }
}
