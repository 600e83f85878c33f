//! The reply to a line, and what the line does to the names.
ghost use Rattle.std.specs.Prelude.{◌≡◌, [], IfOk, flat_map, option_copied, option_map, string_bytes};
ghost use Rattle.json.specs.Print.{print};
ghost use Rattle.litemap_store.specs.Pairs.{value_at};
ghost use Rattle.names_core.specs.Reply.{IsAnswer, names_of};
ghost use Rattle.litemap_store.specs.Queries.{bytes_cmp};
ghost use Rattle.names_core.specs.Told.{Puts, Replies, json_answer, old_text, pair_text, value_text};

use crate::line::{Command, parse};
use json::Writer;
use litemap::LiteMap;
use litemap::store::{Store, StoreMut};
use std::alloc::{AllocError, Allocator, Global};

/// The names and their values, kept in a store.
pub type Names<S, A = Global> = LiteMap<String<A>, String<A>, S>;

/// The reply to a line.
pub enum Answer<A: Allocator = Global> {
    /// The line is done, and this is the reply.
    Done(String<A>),
    /// The line is bad, and this says so.
    Bad(String<A>),
}

/// Runs the line of this number, and returns the reply.
pub fn reply<A: Allocator + Copy, S: StoreMut<String<A>, String<A>>>(
    alloc: A,
    names: &mut Names<S, A>,
    number: usize,
    line: &[u8],
) -> Result<Answer<A>, AllocError>
    ensures { IfOk result (IsAnswer (names_of names.old) number line.now (names_of names.new)) }
{
    if line.is_empty() {
        return Ok(Answer::Done(String::new(alloc)));
    }
    if line == b"all".as_slice() {
        return Ok(Answer::Done(all(alloc, names)?));
    }
    if line == b"json".as_slice() {
        return Ok(Answer::Done(json(alloc, names)?));
    }
    match parse(line) {
        Some(command) => Ok(Answer::Done(obey(alloc, names, command)?)),
        None => Ok(Answer::Bad(format!(in alloc; "bad line {number}\n")?)),
    }
}

// Runs a command, and returns the text of the reply.
#[tactic(auto, using(crate::proofs::Bytes::in_bytes))]
fn obey<A: Allocator + Copy, S: StoreMut<String<A>, String<A>>>(
    alloc: A,
    names: &mut Names<S, A>,
    command: Command<'_>,
) -> Result<String<A>, AllocError>
    ensures { IfOk result
        (λ text. Replies (names_of names.old) command.entry (string_bytes text) (names_of names.new)) }
{
    match command {
        Command::Put(key, value) => put(alloc, names, key, value),
        Command::Get(key) => value_text(alloc, names.get(key)),
        Command::Del(key) => value_text(alloc, names.remove(key).as_ref()),
        Command::Find(key) => match names.find_index(key) {
            Ok(index) => format!(in alloc; "ok {index}\n"),
            Err(index) => format!(in alloc; "err {index}\n"),
        },
    }
}

// Inserts a value at a key, and returns the text of the reply.
fn put<A: Allocator + Copy, S: StoreMut<String<A>, String<A>>>(
    alloc: A,
    names: &mut Names<S, A>,
    key: &str,
    value: &str,
) -> Result<String<A>, AllocError>
    ensures { IfOk result
        (λ text. (string_bytes text ≡ old_text (value_at bytes_cmp (names_of names.old).entries key.now))
        × Puts (names_of names.old) key.now value.now (names_of names.new)) }
{
    let key = String::from_str(alloc, key)?;
    let value = String::from_str(alloc, value)?;
    match names.insert(key, value) {
        Ok(old) => old_text(alloc, old),
        Err(_) => Err(AllocError),
    }
}

fn old_text<A: Allocator + Copy>(alloc: A, old: Option<String<A>>) -> Result<String<A>, AllocError>
    ensures { IfOk result (λ text. string_bytes text ≡ old_text (option_map string_bytes old)) }
{
    match old {
        None => String::from_str(alloc, "new\n"),
        Some(old) => format!(in alloc; "old {old}\n"),
    }
}

fn value_text<A: Allocator + Copy>(
    alloc: A,
    value: Option<&String<A>>,
) -> Result<String<A>, AllocError>
    ensures { IfOk result
        (λ text. string_bytes text ≡ value_text (option_map string_bytes (option_copied value.entry))) }
{
    match value {
        Some(value) => format!(in alloc; "= {value}\n"),
        None => String::from_str(alloc, "none\n"),
    }
}

fn all<A: Allocator + Copy, S: Store<String<A>, String<A>>>(
    alloc: A,
    names: &Names<S, A>,
) -> Result<String<A>, AllocError>
    ensures { IfOk result (λ text. string_bytes text ≡ flat_map pair_text (names_of names.now).entries) }
{
    let mut text = String::new(alloc);
    for index in 0..names.len() {
        let (key, value) = names.get_indexed(index).unwrap();
        write!(text, "{key} {value}\n")?;
    }
    Ok(text)
}

// The map as JSON, on one line, written pair by pair: by the tree that `to_json` makes it would take forty times as long.
fn json<A: Allocator + Copy, S: Store<String<A>, String<A>>>(
    alloc: A,
    names: &Names<S, A>,
) -> Result<String<A>, AllocError>
    ensures { IfOk result (λ text. string_bytes text ≡ json_answer (names_of names.now).entries) }
{
    if names.is_empty() {
        return String::from_str(alloc, "[]\n");
    }
    let mut writer = Writer::new(Vec::new(alloc));
    writer.begin_object()?;
    for index in 0..names.len() {
        let (key, value) = names.get_indexed(index).unwrap();
        writer.key(key.as_str())?;
        writer.string(value.as_str())?;
    }
    writer.end_object()?;
    let mut text = written(writer);
    text.push_str("\n")?;
    Ok(text)
}

fn written<A: Allocator>(writer: Writer<A>) -> String<A>
    requires { writer.before ≡ [] }
    ensures { string_bytes result ≡ print writer.tokens }
{
    String::from_utf8(writer.into_inner()).unwrap()
}
