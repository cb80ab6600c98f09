//! The lines that `serve` answers: how they are read, and what they ask.

use crate::command::{Change, Comparison, Format, LineCommand, Listing, Look, Source};
use std::alloc::{AllocError, Global};
use std::io;
use std::io::{BufRead, Read};

/// The greatest length of a line in bytes, without its LF.
const LONGEST_LINE: usize = 65_536;

/// What the reader found as the next line.
#[derive(Clone, Copy)]
pub enum Found {
    /// No line: the input has ended.
    End,
    /// A line; the buffer holds it without its LF.
    Whole,
    /// A line above the greatest length.
    TooLong,
}

/// Reads the next line into the buffer. The last line may lack its LF. Of a line that is too long,
/// the buffer holds at most one byte above the greatest length.
///
/// # Errors
///
/// - an error of reading, or for want of memory.
pub fn next_line<R: BufRead>(reader: &mut R, line: &mut Vec<u8>) -> io::Result<Found> {
    line.clear();
    let most = LONGEST_LINE as u64 + 1;
    let count = (&mut *reader).take(most).read_until(b'\n', line)?;
    if count == 0 {
        return Ok(Found::End);
    }
    if line.last() == Some(&b'\n') {
        line.truncate(count - 1);
    } else if line.len() > LONGEST_LINE {
        reader.skip_until(b'\n')?;
        return Ok(Found::TooLong);
    }
    Ok(Found::Whole)
}

/// Reads a line that is one word, or returns None.
fn parse_word(word: &str) -> Option<LineCommand<'_>> {
    match word {
        "stat" => Some(LineCommand::Look(Look::Stat(Format::Lines))),
        "ls" => Some(LineCommand::Look(Look::List(Listing::Roots, Format::Lines))),
        "fsck" => Some(LineCommand::Look(Look::Fsck(None))),
        "flush" => Some(LineCommand::Flush),
        _ => None,
    }
}

/// Reads what `ls` lists of the word behind it.
fn parse_listing(word: &str) -> Listing<'_> {
    match word {
        "--all" => Listing::Blobs,
        _ => Listing::Children(word),
    }
}

/// Reads a line of a word and what stands behind one space, or returns None. What stands there is one
/// word, a path or a name.
fn parse_rest<'a>(
    alloc: Global,
    word: &str,
    rest: &'a str,
) -> Result<Option<LineCommand<'a>>, AllocError> {
    let look = match word {
        "ls" => Look::List(parse_listing(rest), Format::Lines),
        "log" => Look::Log(rest, Format::Lines),
        "tree" => Look::Tree(rest),
        "dot" => Look::Dot(rest),
        "fsck" => Look::Fsck(Some(rest)),
        "copy" => Look::Copy(rest, Vec::new(alloc)),
        "export-db" => Look::ExportDb(rest),
        "drop" => return Ok(Some(LineCommand::Change(Change::DropRoot(rest)))),
        "put" => return Ok(Some(LineCommand::Change(parse_put(alloc, rest)?))),
        "root" => return Ok(parse_root(rest)),
        "diff" => return Ok(parse_diff(rest)),
        _ => return Ok(None),
    };
    Ok(Some(LineCommand::Look(look)))
}

/// Reads a blob from its bytes and its children, with one space between each two.
fn parse_put<'a>(alloc: Global, words: &'a str) -> Result<Change<'a>, AllocError> {
    let mut children = Vec::new(alloc);
    let Some((bytes, rest)) = words.split_once(' ') else {
        return Ok(Change::Put(Source::Hex(words), children));
    };
    for word in rest.split(' ') {
        children.push(word)?;
    }
    Ok(Change::Put(Source::Hex(bytes), children))
}

/// Reads a name and the word of its key, or returns None.
fn parse_root(words: &str) -> Option<LineCommand<'_>> {
    let (name, word) = words.split_once(' ')?;
    Some(LineCommand::Change(Change::SetRoot(name, word)))
}

/// Reads the words of two blobs, or returns None.
fn parse_diff(words: &str) -> Option<LineCommand<'_>> {
    let (first, second) = words.split_once(' ')?;
    let comparison = Comparison {
        first,
        second,
        is_exact: false,
    };
    Some(LineCommand::Look(Look::Diff(comparison, Format::Lines)))
}

/// Reads what a line asks. Returns None for a line that is no command. One space separates words; spaces
/// at the end count for nothing.
///
/// # Errors
///
/// - if memory is refused.
pub fn parse_line<'a>(alloc: Global, line: &'a str) -> Result<Option<LineCommand<'a>>, AllocError> {
    let words = line.trim_end();
    match words.split_once(' ') {
        Some((word, rest)) => parse_rest(alloc, word, rest),
        None => Ok(parse_word(words)),
    }
}
