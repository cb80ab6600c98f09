//! What the program's arguments ask for.

use crate::command::Command;
use crate::usage::command_line;
use crate::words::{read_cache, read_command};
use clap::error::ErrorKind;
use clap::{ArgMatches, Error};
use std::alloc::{AllocError, Global};

/// A file's path, and what the arguments ask of it.
#[derive(Drop)]
pub struct Request<'a> {
    pub path: &'a str,
    pub command: Command<'a>,
}

/// Reads the command that matches name. Returns None if they name none, or a word is missing.
fn read_named<'a>(
    alloc: Global,
    matches: &ArgMatches<'a>,
) -> Result<Option<Command<'a>>, AllocError> {
    match matches.subcommand() {
        Some(("cache", inner)) => match inner.subcommand() {
            Some((name, words)) => Ok(read_cache(name, words)),
            None => Ok(None),
        },
        Some((name, inner)) => read_command(alloc, name, inner),
        None => Ok(None),
    }
}

/// Reads the request of `texts`, or returns None if the matches name another command.
fn read_texts<'a>(matches: &ArgMatches<'a>) -> Option<Request<'a>> {
    let inner = matches.subcommand_matches("texts")?;
    Some(Request {
        path: inner.get_str("FILE")?,
        command: Command::Texts,
    })
}

/// Reads a request of matches, about the file of a path, which `texts` alone has among its own words.
fn read_request<'a>(
    alloc: Global,
    path: Option<&'a str>,
    matches: &ArgMatches<'a>,
) -> Result<Option<Request<'a>>, AllocError> {
    let Some(path) = path else {
        return Ok(read_texts(matches));
    };
    match read_named(alloc, matches)? {
        Some(command) => Ok(Some(Request { path, command })),
        None => Ok(None),
    }
}

/// Returns whether a first word names a file, and isn't an option or a command without one.
fn is_path(word: &str) -> bool {
    !word.starts_with("-") && word != "texts" && word != "help"
}

/// Reads the words behind the program's name.
///
/// # Errors
///
/// - what there is to print, with the status: help, the version, or why the words are no command.
pub fn parse<'a>(alloc: Global, words: &'a [String]) -> Result<Request<'a>, Error> {
    let (path, rest) = match words.split_first() {
        Some((first, rest)) if is_path(first.as_str()) => (Some(first.as_str()), rest),
        _ => (None, words),
    };
    let mut command = command_line(alloc)?;
    let matches = command.try_get_matches_from_mut(rest)?;
    match read_request(alloc, path, &matches)? {
        Some(request) => Ok(request),
        None => Err(command.error(
            ErrorKind::MissingSubcommand,
            "FILE comes first, but for texts",
        )?),
    }
}
