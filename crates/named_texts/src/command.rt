//! The lines about named texts, whatever storage is below.

ghost use Rattle.named_texts.specs.{Line.{IsName, LacksSpace, SpellsResult, word_of}, declared.command.Verb.Verb};
ghost use Rattle.std.specs.{
  Char.is_ascii_alphanumeric,
  List.list_all,
  Prelude.{IfNone, IfSome, IsTrue, ◌++◌, ◌↔◌, ◌∷◌, ◌≡◌, ◌≢◌},
};

/// What a line asks of the handle of one name.
#[derive(Clone, Copy)]
pub enum Verb {
    /// `unpin NAME`: unpins the handle.
    Unpin,
    /// `loose NAME`: turns the name's Pinned handle into a loose one, which still pins its cell.
    Loose,
    /// `count NAME`: counts the handles that pin its cell.
    Count,
    /// `key NAME`: shows its cell's key.
    Key,
    /// `out NAME`: says whether its cell is paged out.
    IsPagedOut,
}

/// A command that a line spells. A name in it is 1 to 16 ASCII letters and digits.
#[derive(Clone, Copy)]
pub enum Command<'a> {
    /// `new NAME TEXT`: inserts a new cell with the text, under a new name.
    New(&'a str, &'a str),
    /// `pin NAME NEW`: pins the name's cell, and shows its text; NEW names the pin.
    Pin(&'a str, &'a str),
    /// `clone NAME NEW`: NEW names one more handle of the same mode.
    Clone(&'a str, &'a str),
    /// `release NAME`: releases the handle, and frees the name.
    Release(&'a str),
    /// `unpin NAME`, `loose NAME`, `count NAME`, `key NAME` or `out NAME`.
    RunVerb(Verb, &'a str),
    /// `pending`: counts the entries of the page-out list.
    Pending,
    /// `pageout`: pages out the list.
    PageOut,
}

/// Returns the command that a line spells, or None if it spells none. One space separates words.
pub fn parse(line: &str) -> Option<Command<'_>>
    ensures { SpellsResult line.now result }
{
    match line {
        "pending" => return Some(Command::Pending),
        "pageout" => return Some(Command::PageOut),
        _ => {}
    }
    let (word, rest) = line.split_once(' ')?;
    match rest.split_once(' ') {
        None => parse_word_and_name(word, rest),
        Some((name, behind)) => parse_word_name_and_rest(word, name, behind),
    }
}

/// Returns the command that a word and a name spell, or None if they spell none.
#[tactic(auto, using(crate::proofs::SplitLines::two_words))]
fn parse_word_and_name<'a>(word: &str, name: &'a str) -> Option<Command<'a>>
    requires word { LacksSpace word.now }
    requires name { LacksSpace name.now }
    ensures { SpellsResult (word.now ++ 32 ∷ name.now) result }
{
    if !is_name(name) {
        return None;
    }
    match word {
        "new" => Some(Command::New(name, "")),
        "release" => Some(Command::Release(name)),
        _ => Some(Command::RunVerb(verb_of(word)?, name)),
    }
}

/// Returns the command that a word, a name and the rest of the line spell, or None if they spell
/// none. The rest is the text of `new`, and the second name of `pin` and `clone`.
#[tactic(auto, using(crate::proofs::SplitLines::more_words))]
fn parse_word_name_and_rest<'a>(word: &str, name: &'a str, behind: &'a str) -> Option<Command<'a>>
    requires word { LacksSpace word.now }
    requires name { LacksSpace name.now }
    ensures { SpellsResult (word.now ++ 32 ∷ (name.now ++ 32 ∷ behind.now)) result }
{
    if !is_name(name) {
        return None;
    }
    match word {
        "new" => Some(Command::New(name, behind)),
        _ if !is_name(behind) => None,
        "pin" => Some(Command::Pin(name, behind)),
        "clone" => Some(Command::Clone(name, behind)),
        _ => None,
    }
}

/// Returns the verb that a word spells, or None if it spells none.
fn verb_of(word: &str) -> Option<Verb>
    ensures some { IfSome result (λ verb. word.now ≡ word_of verb) }
    ensures none { IfNone result ((verb : Verb) → word.now ≢ word_of verb) }
{
    match word {
        "unpin" => Some(Verb::Unpin),
        "loose" => Some(Verb::Loose),
        "count" => Some(Verb::Count),
        "key" => Some(Verb::Key),
        "out" => Some(Verb::IsPagedOut),
        _ => None,
    }
}

/// Says whether a word is 1 to 16 ASCII letters and digits.
pub(crate) fn is_name(word: &str) -> bool
    ensures { IsTrue result ↔ IsName word.now }
{
    let fits = word.len() >= 1 && word.len() <= 16;
    fits && has_letters_and_digits_alone(word)
}

/// Says whether each byte of a word is an ASCII letter or digit.
fn has_letters_and_digits_alone(word: &str) -> bool
    ensures { result ≡ list_all is_ascii_alphanumeric word.now }
{
    word.bytes().all(|byte| byte.is_ascii_alphanumeric())
}
