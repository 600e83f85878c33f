//! The lines of the input, and the command that a line is.
ghost use Rattle.std.specs.Prelude.{◌≡◌, ◌++◌, ◌∷◌, ◌↔◌, ◌==◌, ℕ, List, MatchOption, All, IsTrue, false};
ghost use Rattle.names_core.specs.Line.{IsWord, Spells, lines_left, lines_of};
ghost use Rattle.names_core.specs.declared.line.Command.{Command};

use std::str;

/// A command with its words.
pub enum Command<'a> {
    /// Inserts a value at a key, in place of an old one.
    Put(&'a str, &'a str),
    /// Looks up the value of a key.
    Get(&'a str),
    /// Removes a key, with its value.
    Del(&'a str),
    /// Looks up the index of a key.
    Find(&'a str),
}

/// Returns the first line of the bytes, and what follows its line feed.
#[tactic(auto, using(std::proofs::lemmas::List::Splits::slice_split_at, std::proofs::lemmas::List::Splits::slice_split_none))]
pub fn first_line(bytes: &[u8]) -> (&[u8], Option<&[u8]>)
    ensures { lines_of bytes.now ≡ result.0.now ∷ lines_left result.1 }
{
    match cut_at(bytes, b'\n') {
        Some((line, rest)) => (line, Some(rest)),
        None => (bytes, None),
    }
}

// What comes before the first such byte, and what follows it.
fn cut_at(bytes: &[u8], byte: u8) -> Option<(&[u8], &[u8])>
    ensures { MatchOption result (All (λ b. (b == byte) ≡ false) bytes.now)
        (λ parts. (bytes.now ≡ parts.0.now ++ (byte ∷ parts.1.now)) × All (λ b. (b == byte) ≡ false) parts.0.now) }
{
    let at = bytes.iter().position(|b| *b == byte)?;
    Some((&bytes[..at], &bytes[at + 1..]))
}

/// Returns the command that a line is, or `None` if it is none.
pub fn parse(line: &[u8]) -> Option<Command<'_>>
    ensures { MatchOption result ((command : Command) → Spells line.now command → ⊥) (Spells line.now) }
{
    if let Some((key, value)) = words_after(line, b"put ") {
        return Some(Command::Put(key, value));
    }
    if let Some(key) = word_after(line, b"get ") {
        return Some(Command::Get(key));
    }
    if let Some(key) = word_after(line, b"del ") {
        return Some(Command::Del(key));
    }
    Some(Command::Find(word_after(line, b"find ")?))
}

// Returns the word after a prefix of the line, or `None` if something else follows.
#[tactic(auto, using(std::proofs::lemmas::List::append_cancel_left))]
fn word_after<'a>(line: &'a [u8], prefix: &[u8]) -> Option<&'a str>
    ensures { MatchOption result ((key : List ℕ) → line.now ≡ prefix.now ++ key → IsWord key → ⊥)
        (λ key. (line.now ≡ prefix.now ++ key.now) × IsWord key.now) }
{
    Some(word(after_prefix(line, prefix)?)?)
}

// Returns the two words after a prefix, which one space separates, or `None` if something else follows.
fn words_after<'a>(line: &'a [u8], prefix: &[u8]) -> Option<(&'a str, &'a str)>
    ensures { MatchOption result
        ((key value : List ℕ) → line.now ≡ prefix.now ++ (key ++ (32 ∷ value)) → IsWord key → IsWord value → ⊥)
        (λ pair. (line.now ≡ prefix.now ++ (pair.0.now ++ (32 ∷ pair.1.now)))
        × IsWord pair.0.now × IsWord pair.1.now) }
{
    let (key, value) = cut_at(after_prefix(line, prefix)?, b' ')?;
    Some((word(key)?, word(value)?))
}

fn after_prefix<'a>(line: &'a [u8], prefix: &[u8]) -> Option<&'a [u8]>
    ensures { MatchOption result ((rest : List ℕ) → line.now ≡ prefix.now ++ rest → ⊥)
        (λ rest. line.now ≡ prefix.now ++ rest.now) }
{
    line.strip_prefix(prefix)
}

#[tactic(auto, using(crate::proofs::Cuts::IsUtf8_word))]
fn word(bytes: &[u8]) -> Option<&str>
    ensures { MatchOption result (IsWord bytes.now → ⊥) (λ text. (text.now ≡ bytes.now) × IsWord bytes.now) }
{
    if !is_word(bytes) {
        return None;
    }
    str::from_utf8(bytes).ok()
}

fn is_word(bytes: &[u8]) -> bool
    ensures { IsTrue result ↔ IsWord bytes.now }
{
    !bytes.is_empty() && bytes.iter().all(|b| b.is_ascii_graphic())
}
