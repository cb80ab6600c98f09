//! The command that words spell, by what `clap` found in them.

ghost use Rattle.clap.specs.Words.{found_of};
ghost use Rattle.blobctl.specs.Spelled.{
  IsCacheCommand,
  IsCommand,
  IsComparison,
  IsFormat,
  IsListing,
  IsLook,
  IsNumber,
  IsSource,
  IsWordList,
  has,
  is_cache_command,
  is_command,
  is_look,
  is_plain,
};
ghost use Rattle.std.specs.Prelude.{IfOk, IfSome, IsSome, IsTrue, codes, ◌&&◌};

use crate::command::{CacheChange, Change, Command, Comparison, Format, Listing, Look, Source};
use clap::ArgMatches;
use std::alloc::{AllocError, Global};

/// Returns the values of an argument that may be given several times.
fn words_at<'a>(
    alloc: Global,
    matches: &ArgMatches<'a>,
    id: &str,
) -> Result<Vec<&'a str>, AllocError>
    ensures { IfOk result (λ words. IsWordList (found_of matches.now) id.now words.items) }
{
    match matches.get_strs(id) {
        Some(words) => Vec::from_slice(alloc, words),
        None => Ok(Vec::new(alloc)),
    }
}

/// Returns what `ls` lists.
fn listing<'a>(matches: &ArgMatches<'a>) -> Listing<'a>
    ensures { IsListing (found_of matches.now) result }
{
    match matches.get_str("ROOT") {
        Some(root) => Listing::Children(root),
        None if matches.get_flag("all") => Listing::Blobs,
        None => Listing::Roots,
    }
}

/// Returns how an answer is written.
fn format<'a>(matches: &ArgMatches<'a>) -> Format
    ensures { IsFormat (found_of matches.now) result }
{
    if matches.get_flag("json") {
        return Format::Json;
    }
    Format::Lines
}

/// Returns which roots `diff` compares, or None if a word is missing.
fn comparison<'a>(matches: &ArgMatches<'a>) -> Option<Comparison<'a>>
    ensures said { IfSome result (IsComparison (found_of matches.now)) }
    ensures whole { IsTrue (has (found_of matches.now) (codes "FIRST") && has (found_of matches.now) (codes "SECOND"))
        → IsSome result }
{
    Some(Comparison {
        first: matches.get_str("FIRST")?,
        second: matches.get_str("SECOND")?,
        is_exact: matches.get_flag("exact"),
    })
}

/// Returns where `put` finds the bytes of a blob.
fn source<'a>(matches: &ArgMatches<'a>) -> Source<'a>
    ensures { IsSource (found_of matches.now) result }
{
    match matches.get_str("PATH") {
        Some(path) if path != "-" => Source::Path(path),
        _ => Source::Input,
    }
}

/// Reads a command that shows what a file has, but for `copy`. Returns None if the name is none of
/// these, or a word is missing.
fn read_look<'a>(name: &str, matches: &ArgMatches<'a>) -> Option<Look<'a>>
    ensures said { IfSome result (IsLook name.now (found_of matches.now)) }
    ensures whole { IsTrue (is_look name.now (found_of matches.now)) → IsSome result }
{
    match name {
        "ls" => Some(Look::List(listing(matches), format(matches))),
        "log" => Some(Look::Log(matches.get_str("ROOT")?, format(matches))),
        "diff" => Some(Look::Diff(comparison(matches)?, format(matches))),
        "cat" => Some(Look::Cat(matches.get_str("KEY")?)),
        "tree" => Some(Look::Tree(matches.get_str("ROOT")?)),
        "dot" => Some(Look::Dot(matches.get_str("ROOT")?)),
        "stat" => Some(Look::Stat(format(matches))),
        "fsck" => Some(Look::Fsck(matches.get_str("NAME"))),
        "export-db" => Some(Look::ExportDb(matches.get_str("DB")?)),
        _ => None,
    }
}

/// Reads a command, but for `copy` and `put`. Returns None if the name is none of these, or a word is
/// missing.
fn read_plain<'a>(name: &str, matches: &ArgMatches<'a>) -> Option<Command<'a>>
    ensures said { IfSome result (IsCommand name.now (found_of matches.now)) }
    ensures whole { IsTrue (is_plain name.now (found_of matches.now)) → IsSome result }
{
    match name {
        "root" => Some(Command::Change(Change::SetRoot(
            matches.get_str("NAME")?,
            matches.get_str("KEY")?,
        ))),
        "drop" => Some(Command::Change(Change::DropRoot(matches.get_str("NAME")?))),
        "gc" => Some(Command::Collect(matches.get_one("keep").unwrap_or(1))),
        "import-old" => Some(Command::ImportOld(matches.get_str("OLD")?)),
        "serve" => Some(Command::Serve),
        _ => Some(Command::Look(read_look(name, matches)?)),
    }
}

/// Reads the command of the cache of this name. Returns None if it is the name of none, or a word is
/// missing.
pub fn read_cache<'a>(name: &str, inner: &ArgMatches<'a>) -> Option<Command<'a>>
    ensures said { IfSome result (IsCacheCommand name.now (found_of inner.now)) }
    ensures whole { IsTrue (is_cache_command name.now (found_of inner.now)) → IsSome result }
{
    let seconds = inner.get_one("wait").unwrap_or(0);
    match name {
        "get" => Some(Command::Look(Look::CacheGet(
            inner.get_str("DIGEST")?,
            inner.get_str("output"),
        ))),
        "put" => {
            let status = inner.get_one("status").unwrap_or(0);
            let put = CacheChange::Put(inner.get_str("DIGEST")?, source(inner), status);
            Some(Command::ChangeCache(put, seconds))
        }
        "stat" => Some(Command::Look(Look::CacheStat(format(inner)))),
        "trim" => {
            let trim = CacheChange::Trim(inner.get_str("SIZE")?);
            Some(Command::ChangeCache(trim, seconds))
        }
        _ => None,
    }
}

/// Reads the command of this name. Returns None if it is the name of none, or a word is missing.
pub fn read_command<'a>(
    alloc: Global,
    name: &str,
    matches: &ArgMatches<'a>,
) -> Result<Option<Command<'a>>, AllocError>
    ensures said { IfOk result (λ read. IfSome read (IsCommand name.now (found_of matches.now))) }
    ensures whole { IsTrue (is_command name.now (found_of matches.now)) → IfOk result (λ read. IsSome read) }
{
    match (name, matches.get_str("OTHER")) {
        ("copy", Some(other)) => {
            let roots = words_at(alloc, matches, "ROOT")?;
            Ok(Some(Command::Look(Look::Copy(other, roots))))
        }
        ("put", _) => {
            let children = words_at(alloc, matches, "child")?;
            Ok(Some(Command::Change(Change::Put(source(matches), children))))
        }
        _ => Ok(read_plain(name, matches)),
    }
}
