//! `pagectl HASH` keeps named texts in a pager, and answers each nonempty line by one line.
#![tactic(auto)]

use named_texts::serve::serve;
use pagable::{KeyHash, Sha256Key, WeighHash};
use std::io::BufReader;
use std::process::ExitCode;
use std::rt::Runtime;
use std::sync::Wait;
use std::{env, io};

/// Returns the one word after the program's name. Returns None for no word, for more, and for one that
/// isn't text.
fn read_argument<R: Runtime + AllocGlobal>(rt: &R) -> io::Result<Option<String>> {
    let mut words = match env::args(rt) {
        Ok(words) => words,
        Err(e) if e.kind() == io::ErrorKind::InvalidData => return Ok(None),
        Err(e) => return Err(e),
    };
    let _program = words.next();
    match words.next() {
        Some(word) if words.next().is_none() => Ok(Some(word)),
        _ => Ok(None),
    }
}

/// Answers the lines of the input, with keys by the hash `H`.
fn answer<H: KeyHash, R: Runtime + AllocGlobal + Wait>(rt: &R) -> io::Result<()> {
    let alloc = rt.alloc();
    let mut reader = BufReader::new(alloc, rt.reader())?;
    serve::<H, _, _, _>(rt, alloc, &mut reader, io::writer(rt))
}

/// Answers the lines of the input, with keys by the hash that the program's one argument names, and
/// returns the exit status. For any other arguments it prints the usage, and returns 2.
fn run<R: Runtime + AllocGlobal + Wait>(rt: &R) -> io::Result<ExitCode> {
    let word = read_argument(rt)?;
    match word.as_ref().map(String::as_str) {
        Some("weigh") => answer::<WeighHash, R>(rt)?,
        Some("sha256") => answer::<Sha256Key, R>(rt)?,
        _ => {
            eprintln!(rt; "usage: pagectl weigh|sha256")?;
            return Ok(ExitCode::from(2));
        }
    }
    Ok(ExitCode::SUCCESS)
}

fn main(rt: HostRuntime) -> ExitCode {
    run(&rt).unwrap_or(ExitCode::FAILURE)
}
