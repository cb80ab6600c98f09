//! The lines about texts that a storage keeps under names of roots.

ghost use Rattle.named_texts.specs.{Durable.SpellsDurableResult, Line.LacksSpace};
ghost use Rattle.std.specs.Prelude.{◌++◌, ◌∷◌};

use crate::command::is_name;

/// A command that a line spells. A name of a handle or of a root in it is 1 to 16 ASCII letters and
/// digits.
#[derive(Clone, Copy)]
pub enum DurableCommand<'a> {
    /// `save NAME ROOT`: pages out the name's cell, and makes ROOT stand for its key.
    Save(&'a str, &'a str),
    /// `open ROOT NEW`: makes a cell of the key that ROOT stands for; NEW names its handle.
    Open(&'a str, &'a str),
    /// `flush`: commits what was stored and saved.
    Flush,
    /// `stat`: counts the roots, and their blobs and bytes.
    Stat,
}

/// Returns the command that a line spells, or None if it spells none. One space separates words.
pub fn parse_durable(line: &str) -> Option<DurableCommand<'_>>
    ensures { SpellsDurableResult line.now result }
{
    match line {
        "flush" => return Some(DurableCommand::Flush),
        "stat" => return Some(DurableCommand::Stat),
        _ => {}
    }
    let (word, rest) = line.split_once(' ')?;
    match rest.split_once(' ') {
        None => None,
        Some((first, second)) => parse_word_and_two_names(word, first, second),
    }
}

/// Returns the command that a word and two names spell, or None if they spell none.
#[tactic(auto, using(crate::proofs::DurableLines::three_words))]
fn parse_word_and_two_names<'a>(
    word: &str,
    first: &'a str,
    second: &'a str,
) -> Option<DurableCommand<'a>>
    requires word { LacksSpace word.now }
    requires first { LacksSpace first.now }
    ensures { SpellsDurableResult (word.now ++ 32 ∷ (first.now ++ 32 ∷ second.now)) result }
{
    if !is_name(first) || !is_name(second) {
        return None;
    }
    match word {
        "save" => Some(DurableCommand::Save(first, second)),
        "open" => Some(DurableCommand::Open(first, second)),
        _ => None,
    }
}
