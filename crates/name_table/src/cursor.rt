//! A cursor over bytes.
ghost use Rattle.std.specs.Prelude.{◌≡◌, ◌∷◌, [], IfErr, IfOk};
ghost use Rattle.name_table.specs.{IsPast, Number, PartFault, TextFault, text_parts};

use crate::error::NameFault;
use crate::number::{MOST_BYTES, NUMBER_LIMIT, number_within};
use std::marker::Model;
use std::str;

/// A position in bytes: those that lie ahead, and how many lie before.
///
/// A number or a string is read there, and returned with the cursor after it. A contract sees it as a `Position`.
#[derive(Drop)]
pub struct Cursor<'a> {
    rest: &'a [u8],
    place: usize,
}

impl<'a> Model for Cursor<'a> {
    ghost use Rattle.std.specs.Prelude.{◌+◌, ◌^◌, ◌<◌, length};
    ghost use Rattle.name_table.specs.{Position};

    ghost Value = { Position };

    ghost view = { λ s. record { rest = s.rest.now; place = s.place } };

    ghost invariant = { λ s. s.place + length s.rest.now < 2 ^ 64 };
}

impl<'a> Cursor<'a> {
    /// Makes a cursor before all bytes.
    pub fn new(bytes: &'a [u8]) -> Self
        ensures rest { result.rest ≡ bytes.now }
        ensures place { result.place ≡ 0 }
    {
        Cursor {
            rest: bytes,
            place: 0,
        }
    }

    /// Returns the bytes that lie ahead.
    pub fn rest(&self) -> &'a [u8]
        ensures { result.now ≡ self.now.rest }
    {
        self.rest
    }

    /// Returns how many bytes lie before.
    pub fn place(&self) -> usize
        ensures { result ≡ self.now.place }
    {
        self.place
    }

    /// Returns the number that the bytes begin with, and the cursor after it. An error has the offset of the number.
    pub fn number(&self) -> Result<(usize, Self), NameFault>
        ensures ok { IfOk result (λ read. IsPast self.now read.1 (Number read.0 ∷ [])) }
        ensures error { IfErr result (λ error. PartFault (Number 0) self.now.rest self.now.place error) }
    {
        let at = self.place;
        let (number, rest) = number_within(self.rest, MOST_BYTES, at)?;
        if number < NUMBER_LIMIT {
            let place = at + (self.rest.len() - rest.len());
            Ok((number, Cursor { rest, place }))
        } else {
            Err(NameFault::NumberTooLarge { at })
        }
    }

    /// Returns the string that the bytes begin with, after its length, and the cursor after it. An error has the offset of the
    /// length or of the string.
    pub fn text(&self) -> Result<(&'a str, Self), NameFault>
        ensures ok { IfOk result (λ read. IsPast self.now read.1 (text_parts read.0.now)) }
        ensures error { IfErr result (λ error. TextFault self.now.rest self.now.place error) }
    {
        let (size, tail) = self.number()?;
        let from = tail.place;
        if size > tail.rest.len() {
            return Err(NameFault::Truncated { at: from });
        }
        let (text, rest) = tail.rest.split_at(size);
        let place = from + size;
        match str::from_utf8(text) {
            Ok(text) => Ok((text, Cursor { rest, place })),
            Err(_) => Err(NameFault::NotUtf8 { at: from }),
        }
    }
}
