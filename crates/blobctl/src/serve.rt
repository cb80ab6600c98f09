//! The service of lines over an open file.

use crate::blobs::BlobsInFile;
use crate::change::answer_change;
use crate::command::LineCommand;
use crate::line::{Found, next_line, parse_line};
use crate::look::{Answer, answer_look};
use crate::refusal::Refusal;
use std::io::BufReader;

/// Answers a command of a line.
fn answer<B: BlobsInFile>(
    rt: &HostRuntime,
    blobs: &mut B,
    command: LineCommand<'_>,
) -> Result<String, Refusal> {
    match command {
        LineCommand::Look(look) => match answer_look(rt, blobs, look)? {
            Answer::Lines(text) | Answer::Flaws(text) | Answer::Differences(text) => Ok(text),
            Answer::Blob(_) | Answer::Entry(_, _) => Ok(String::new(rt.alloc())),
        },
        LineCommand::Change(change) => answer_change(rt, blobs, change),
        LineCommand::Flush => {
            let text = String::from_str(rt.alloc(), "flushed\n")?;
            blobs.flush()?;
            Ok(text)
        }
    }
}

/// Prints text on standard output.
///
/// # Errors
///
/// - `Output` if it can't be written.
pub fn print(rt: &HostRuntime, text: &str) -> Result<(), Refusal> {
    rt.print(text).map_err(Refusal::Output)
}

/// Prints what a line is answered; None stands for one that is no command.
fn print_outcome(
    rt: &HostRuntime,
    outcome: Option<Result<String, Refusal>>,
) -> Result<(), Refusal> {
    match outcome {
        Some(Ok(text)) => print(rt, text.as_str()),
        Some(Err(refusal)) => {
            let line = format!(in rt.alloc(); "error: {refusal}\n")?;
            print(rt, line.as_str())
        }
        None => print(rt, "bad line\n"),
    }
}

/// Answers a line; None stands for one that isn't text.
fn answer_line<B: BlobsInFile>(
    rt: &HostRuntime,
    blobs: &mut B,
    line: Option<&str>,
) -> Result<(), Refusal> {
    let command = match line {
        Some(text) => parse_line(rt.alloc(), text)?,
        None => None,
    };
    let outcome = match command {
        Some(command) => Some(answer(rt, blobs, command)),
        None => None,
    };
    print_outcome(rt, outcome)
}

/// Answers each line of the input over an open file.
///
/// # Errors
///
/// - `Input` or `Output` if a line can't be read or an answer written, `Blobs` for want of memory. What
///   was not flushed by then is lost.
pub fn serve_lines<B: BlobsInFile>(rt: &HostRuntime, blobs: &mut B) -> Result<(), Refusal> {
    let mut reader = BufReader::new(rt.alloc(), rt.reader())?;
    let mut line = Vec::new(rt.alloc());
    for _ in 0..u64::MAX {
        match next_line(&mut reader, &mut line)? {
            Found::End => break,
            Found::Whole => answer_line(rt, blobs, str::from_utf8(line.as_slice()).ok())?,
            Found::TooLong => print(rt, "error: the line is longer than 65536 bytes\n")?,
        }
    }
    Ok(())
}
