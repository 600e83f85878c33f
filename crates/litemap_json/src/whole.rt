//! Whole numbers of eight types, as items and as keys.
ghost use Rattle.std.specs.Prelude.{◌≡◌, ◌≢◌, ◌<◌, ◌==◌, IsTrue, length, option_and_then, slice_index, false, true, Some, Err, IfOk, IfSome, IsOk, OnOk, Ok, option_map, refl, string_bytes};
ghost use Rattle.std.specs.Fmt.{signed_decimal};
ghost use Rattle.std.specs.Int.{w8, w16, w32, w64};
ghost use Rattle.serde_json.specs.Find.{as_integer};
ghost use Rattle.serde_json.specs.Read.{number_from, number_of};
ghost use Rattle.serde_json.specs.View.{view};
ghost use Rattle.litemap_json.specs.Item.{Reads, in_range, kept, signed_fits, whole_item, whole_json, whole_key, whole_of, whole_of_text, whole_text};
ghost use Rattle.litemap_json.specs.Widths.{IsWhole, WholeType, signed, signed_is_whole, unsigned, unsigned_is_whole};
ghost use Rattle.litemap_json.specs.declared.item.ItemFault.TheVariants.{Memory};

use crate::item::{ItemFault, JsonItem, JsonKey};
use crate::next::next_number;
use crate::written::write_value;
use fast_float::Numeral;
use itoa::Buffer;
use json::{Reader, Writer};
use serde_json::{Number, Value};
use std::alloc::{AllocError, Global};
use std::num::TryFromIntError;

/// A type of whole numbers, each of which 64 bits hold.
pub trait Whole: Copy + Ord + TryFrom<i128, Error = TryFromIntError> {
    /// The number of a value, and which numbers the type has.
    ghost kind: { WholeType Self };

    /// Which numbers the type has, in words.
    const NAMED: &'static str;

    /// The number in 128 bits.
    fn wide(self) -> i128
        ensures is { result ≡ kind.number self }
        ensures fits { kind.fits (kind.number self) ≡ true };

    /// The type's value for a number, if it has one.
    final fn narrow(wide: i128) -> Option<Self>
        ensures { option_map kind.number result ≡ kept kind.fits (Some wide) }
    {
        Self::try_from(wide).ok()
    }

    /// 64 bits hold each, one number is one key, and a conversion gives the type's value for a number.
    ghost whole: { IsWhole kind Self.cmp Self.try_from_gives };
}

/// Only `write_to` may run out of memory: no other call takes any.
impl<T: Whole> JsonItem for T {
    ghost json = { λ x. whole_json (T.kind.number x) };

    ghost item = { whole_item T.kind.fits };

    #[tactic(auto, using(crate::proofs::Printed::some_held))]
    fn to_value(&self, _alloc: Global) -> Result<Value, AllocError>
        ensures tree { IfOk result (λ value. view value ≡ whole_json (T.kind.number self.now)) }
        ensures reads_back { OnOk result
            (whole_item T.kind.fits (whole_json (T.kind.number self.now)) ≡ Ok (whole_json (T.kind.number self.now))) }
        ensures succeeds { IsOk result }
    {
        let number = Number::from_i128(self.wide()).unwrap();
        Ok(Value::from(number))
    }

    fn from_value(_alloc: Global, value: &Value) -> Result<T, ItemFault>
        ensures answers { Reads Memory (λ x. whole_json (T.kind.number x)) (whole_item T.kind.fits (view value.now)) result }
        ensures no_memory { result ≢ Err Memory }
    {
        T::narrow(whole_number(value)?).ok_or(ItemFault::Range)
    }

    #[tactic(auto, using(crate::proofs::FirstItem::no_whole))]
    fn from_tokens(_alloc: Global, reader: &mut Reader<'_>, _depth: usize) -> Result<T, ItemFault> {
        match next_number(reader) {
            Ok(text) => fitting(text),
            Err(fault) => Err(fault),
        }
    }

    fn write_to(&self, alloc: Global, out: &mut Writer) -> Result<(), AllocError> {
        if let Ok(number) = u64::try_from(self.wide()) {
            return out.u64(number);
        }
        let value = self.to_value(alloc)?;
        write_value(alloc, &value, out)
    }

    fn wanted() -> &'static str {
        T::NAMED
    }
}

/// Only `key_text` may run out of memory: `from_key_text` takes none.
impl<T: Whole> JsonKey for T {
    ghost text = { λ x. Some (signed_decimal (T.kind.number x)) };

    ghost key = { whole_key T.kind.fits };

    fn key_text(&self, alloc: Global) -> Result<Option<String>, AllocError> {
        Ok(Some(decimal_text(alloc, self.wide())?))
    }

    #[tactic(auto, using(crate::proofs::Printed::held_by_128))]
    fn from_key_text(_alloc: Global, name: &str) -> Result<Option<T>, AllocError>
        ensures key { IfOk result (λ found.
            option_map (λ x. whole_json (T.kind.number x)) found ≡ whole_key T.kind.fits name.now) }
        ensures one_spelling { IfOk result (λ found.
            IfSome found (λ k. Some (signed_decimal (T.kind.number k)) ≡ Some name.now)) }
        ensures succeeds { IsOk result }
    {
        let Some(number) = printed(name) else {
            return Ok(None);
        };
        Ok(T::narrow(number))
    }

    fn key_number(&self) -> Option<i128> {
        Some(self.wide())
    }

    ghost one_tree = { T.whole.one_number };
}

impl Whole for u8 {
    ghost kind = { unsigned w8 };

    const NAMED: &'static str = "a whole number of 8 bits";

    fn wide(self) -> i128 {
        i128::from(self)
    }

    ghost whole = { unsigned_is_whole w8 refl };
}

impl Whole for u16 {
    ghost kind = { unsigned w16 };

    const NAMED: &'static str = "a whole number of 16 bits";

    fn wide(self) -> i128 {
        i128::from(self)
    }

    ghost whole = { unsigned_is_whole w16 refl };
}

impl Whole for u32 {
    ghost kind = { unsigned w32 };

    const NAMED: &'static str = "a whole number of 32 bits";

    fn wide(self) -> i128 {
        i128::from(self)
    }

    ghost whole = { unsigned_is_whole w32 refl };
}

impl Whole for u64 {
    ghost kind = { unsigned w64 };

    const NAMED: &'static str = "a whole number of 64 bits";

    fn wide(self) -> i128 {
        i128::from(self)
    }

    ghost whole = { unsigned_is_whole w64 refl };
}

impl Whole for i8 {
    ghost kind = { signed w8 };

    const NAMED: &'static str = "a whole number of 8 bits with a sign";

    fn wide(self) -> i128 {
        i128::from(self)
    }

    ghost whole = { signed_is_whole w8 refl };
}

impl Whole for i16 {
    ghost kind = { signed w16 };

    const NAMED: &'static str = "a whole number of 16 bits with a sign";

    fn wide(self) -> i128 {
        i128::from(self)
    }

    ghost whole = { signed_is_whole w16 refl };
}

impl Whole for i32 {
    ghost kind = { signed w32 };

    const NAMED: &'static str = "a whole number of 32 bits with a sign";

    fn wide(self) -> i128 {
        i128::from(self)
    }

    ghost whole = { signed_is_whole w32 refl };
}

impl Whole for i64 {
    ghost kind = { signed w64 };

    const NAMED: &'static str = "a whole number of 64 bits with a sign";

    fn wide(self) -> i128 {
        i128::from(self)
    }

    ghost whole = { signed_is_whole w64 refl };
}

fn whole_number(value: &Value) -> Result<i128, ItemFault>
    ensures { result ≡ whole_of (view value.now) }
{
    let Some(number) = value.as_number() else {
        return Err(ItemFault::Shape);
    };
    number.as_i128().ok_or(ItemFault::Float)
}

// Returns the type's value for the whole number that a number's text is.
fn fitting<T: Whole>(text: &str) -> Result<T, ItemFault>
    ensures { Reads Memory (λ x. whole_json (T.kind.number x)) (in_range T.kind.fits (whole_text text.now)) result }
{
    let Some(number) = whole_in(text) else {
        return Err(ItemFault::Float);
    };
    T::narrow(number).ok_or(ItemFault::Range)
}

// Returns the whole number that a number's text is, if 64 bits hold it.
fn whole_in(text: &str) -> Option<i128>
    ensures { result ≡ option_and_then as_integer (number_of text.now) }
{
    let bytes = text.as_bytes();
    if has_minus(bytes) {
        negative_in(&Numeral::scan(&bytes[1..]))
    } else {
        unsigned_in(&Numeral::scan(bytes))
    }
}

fn has_minus(bytes: &[u8]) -> bool
    ensures value { result ≡ (slice_index bytes.now 0 == 45) }
    ensures len { IsTrue result → 0 < length bytes.now }
{
    !bytes.is_empty() && bytes[0] == b'-'
}

#[tactic(auto, using(crate::proofs::FirstItem::no_whole_float))]
fn negative_in(numeral: &Numeral<'_>) -> Option<i128>
    ensures { result ≡ option_and_then as_integer (number_from true numeral.now) }
{
    match numeral.to_i64(true) {
        Some(number) if number < 0 => Some(i128::from(number)),
        _ => None,
    }
}

#[tactic(auto, using(crate::proofs::FirstItem::no_whole_float))]
fn unsigned_in(numeral: &Numeral<'_>) -> Option<i128>
    ensures { result ≡ option_and_then as_integer (number_from false numeral.now) }
{
    match numeral.to_u64() {
        Some(number) => Some(i128::from(number)),
        None => None,
    }
}

// Returns the decimal digits of an integer. One of 64 bits is printed as such, which takes less time.
fn decimal_text(alloc: Global, number: i128) -> Result<String, AllocError>
    ensures { IfOk result (λ text. string_bytes text ≡ signed_decimal number) }
{
    match u64::try_from(number) {
        Ok(small) => small.to_string(alloc),
        Err(_) => number.to_string(alloc),
    }
}

// Returns the integer that prints as this string: no plus sign, no leading zeros, `-` only before a negative one.
fn printed(text: &str) -> Option<i128>
    ensures { result ≡ kept (signed_fits 127) (whole_of_text text.now) }
{
    let Ok(number) = text.parse::<i128>() else {
        return None;
    };
    (Buffer::new().format(number) == text).then_some(number)
}
