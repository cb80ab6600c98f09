//! A loop that reads lines and writes an answer to each.

use std::alloc::Global;
use std::io;
use std::io::{BufRead, BufWriter, Read, Write};

/// The greatest length of a line in bytes, without its LF.
const LONGEST_LINE: usize = 65_536;

/// What the reader found as the next line.
#[derive(Clone, Copy)]
enum Line {
    /// No line: the input has ended.
    End,
    /// A line; the buffer holds it without its LF.
    Whole,
    /// A line above the greatest length.
    TooLong,
}

/// Reads the next line into the buffer. The last line may lack its LF. Of a line that is too long,
/// the buffer holds at most one byte above the greatest length.
fn next_line<R: BufRead>(reader: &mut R, line: &mut Vec<u8>) -> io::Result<Line> {
    line.clear();
    let most = LONGEST_LINE as u64 + 1;
    let count = (&mut *reader).take(most).read_until(b'\n', line)?;
    if count == 0 {
        return Ok(Line::End);
    }
    if line.last() == Some(&b'\n') {
        line.truncate(count - 1);
    } else if line.len() > LONGEST_LINE {
        reader.skip_until(b'\n')?;
        return Ok(Line::TooLong);
    }
    Ok(Line::Whole)
}

/// A program that answers lines.
pub trait LineAnswerer {
    /// Answers `line`, and writes the answer to `writer`. `line` is None if the line that was read
    /// isn't text or is too long. Fails if writing fails.
    fn answer<W: Write>(
        &mut self,
        alloc: Global,
        line: Option<&str>,
        writer: &mut W,
    ) -> io::Result<()>;
}

/// Reads the lines of the input one after another, has `answerer` write the answer to each, and
/// flushes it.
///
/// # Errors
///
/// - an error of reading or writing, or of creating a buffer: the call writes nothing more, not
///   even what a failed write left in the buffer.
pub fn serve<A: LineAnswerer, R: BufRead, W: Write + Drop>(
    alloc: Global,
    answerer: &mut A,
    reader: &mut R,
    writer: W,
) -> io::Result<()> {
    let mut buffered = BufWriter::new(alloc, writer)?;
    let outcome = answer_each(alloc, answerer, reader, &mut buffered);
    // A buffer writes what it holds when it is dropped, so this takes it apart first.
    let (_writer, _unwritten) = buffered.into_parts();
    outcome
}

/// Reads each line, has `answerer` write its answer to a buffered writer, and flushes that.
fn answer_each<A: LineAnswerer, R: BufRead, W: Write>(
    alloc: Global,
    answerer: &mut A,
    reader: &mut R,
    writer: &mut W,
) -> io::Result<()> {
    // The buffer never grows, so reading lines allocates nothing.
    let mut line = Vec::with_capacity(alloc, LONGEST_LINE + 1)?;
    for _ in 0..u64::MAX {
        let text = match next_line(reader, &mut line)? {
            Line::End => break,
            Line::TooLong => None,
            Line::Whole => str::from_utf8(line.as_slice()).ok(),
        };
        answerer.answer(alloc, text, writer)?;
        writer.flush()?;
    }
    Ok(())
}
