//! A header list that is read from the fields of a message: if a name is repeated, the last field counts.
//!
//! A source of one's own says of each of its states which list it can still give, how long that is, which errors it may return
//! and whether it may end; then it writes `next_pair`. What `read_pairs` promises is about that list.
ghost use Rattle.std.specs.Prelude.{◌≡◌, ◌≢◌, ⊤};
ghost use Rattle.litemap.specs.Words.{All, IfErr, IfOk, OnOk, [], by_bytes, get, length, map, reverse, value_at};
ghost use Rattle.litemap_read.specs.ReadFault.{IfSource};

use crate::headers::Borrowed;
use litemap_read::{PairSource, ReadFault, read_pairs};
use std::alloc::Global;

/// A field of a message: a name and its value.
#[derive(Clone, Copy)]
pub struct Field<'a> {
    /// The name.
    pub name: &'a str,
    /// The value.
    pub value: &'a str,
}

/// A field has no name.
#[derive(Debug, Drop)]
pub struct Nameless;

// The fields of a message that are still to be read, in their order.
#[derive(Clone, Copy)]
struct Fields<'a> {
    rest: &'a [Field<'a>],
}

impl<'a> PairSource<&'a str, &'a str> for Fields<'a> {
    type Fault = Nameless;

    ghost gives = { λ s pairs. pairs ≡ map (λ f. (f.name, f.value)) s.rest.now };

    ghost left = { λ s. length s.rest.now };

    ghost allows = { λ s _. ¬ (All (λ f. f.name.now ≢ []) s.rest.now) };

    ghost ends = { λ s. All (λ f. f.name.now ≢ []) s.rest.now };

    ghost leads = { λ _ _. ⊤ };

    fn hint(&self) -> Option<usize> {
        Some(self.rest.len())
    }

    fn next_pair(&mut self) -> Result<Option<(&'a str, &'a str)>, Nameless> {
        let fields = self.rest;
        let Some(field) = fields.first() else {
            return Ok(None);
        };
        if field.name.is_empty() {
            return Err(Nameless);
        }
        self.rest = &fields[1..];
        Ok(Some((field.name, field.value)))
    }

    ghost leads_itself = { λ _. tt };

    ghost leads_on = { λ _ _ _ _ _. tt };
}

/// The headers of a message. Each field has to have a name.
pub fn read_headers<'a>(
    alloc: Global,
    fields: &'a [Field<'a>],
) -> Result<Borrowed<'a>, ReadFault<Nameless>>
    ensures last { IfOk result (λ headers. (name : _) → get by_bytes headers name
        ≡ value_at by_bytes (reverse (map (λ f. (f.name, f.value)) fields.now)) name) }
    ensures named { OnOk result (All (λ f. f.name.now ≢ []) fields.now) }
    ensures nameless { IfErr result
        (λ fault. IfSource fault (λ _. ¬ (All (λ f. f.name.now ≢ []) fields.now))) }
{
    read_pairs(alloc, &mut Fields { rest: fields })
}
