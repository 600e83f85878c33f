//! A key's name while the names of a map are compared and written: an integer, or a string.
ghost use Rattle.std.specs.Prelude.{◌≡◌, ℕ, IfOk, List, Some, nat_eq, option_map, refl, string_bytes};
ghost use Rattle.std.specs.Cmp.{on_equiv, on_per, on_po, on_total, partial_equiv_from_equiv};
ghost use Rattle.std.specs.Cmp.Lexicographic.{nat_list_cmp_total, nat_list_eq_equiv, pointwise, slice_cmp, texts_po, texts_ties};
ghost use Rattle.std.specs.Ordering.{nat_cmp};
ghost use Rattle.litemap_json.specs.Written.{name_bytes};

use crate::decimal::{Decimal, cmp_digits};
use crate::item::JsonKey;
use itoa::Buffer;
use std::alloc::{AllocError, Global};
use std::cmp::Ordering;

/// A key's name while the names of a map are compared, by their bytes, and written.
pub(crate) trait Name: Ord + Drop {
    /// The bytes of a name.
    ghost bytes: { Self → List ℕ };

    /// Returns the name of a key, or `None` if it has none. It fails if memory runs out.
    fn of<K: JsonKey>(alloc: Global, key: &K) -> Result<Option<Self>, AllocError>
        ensures { IfOk result (λ name. option_map bytes name ≡ K.text key.now) };

    /// Returns the name as a string, which may stand in the buffer.
    fn as_str<'a>(&'a self, buffer: &'a mut Buffer) -> &'a str
        ensures { result.now ≡ bytes self.now };

    /// Names lie in the order of their bytes.
    ghost by_bytes: { Self.cmp ≡ (λ x y. slice_cmp nat_cmp (bytes x) (bytes y)) };
}

impl Name for String {
    ghost bytes = { string_bytes };

    fn of<K: JsonKey>(alloc: Global, key: &K) -> Result<Option<String>, AllocError> {
        key.key_text(alloc)
    }

    fn as_str<'a>(&'a self, _buffer: &'a mut Buffer) -> &'a str {
        String::as_str(self)
    }

    ghost by_bytes = { refl };
}

/// A name that takes no memory if it is that of an integer that 64 bits hold.
#[derive(Drop)]
pub(crate) enum AnyName {
    /// The decimal digits of an integer.
    Unsigned(Decimal),
    /// The decimal digits of an integer, after `-` if it is negative. `of` makes it of negative ones alone.
    Signed(i64),
    /// A string.
    Text(String),
}

impl Name for AnyName {
    ghost bytes = { name_bytes };

    fn of<K: JsonKey>(alloc: Global, key: &K) -> Result<Option<AnyName>, AllocError> {
        if let Some(number) = key.key_number() {
            if let Ok(number) = u64::try_from(number) {
                return Ok(Some(AnyName::Unsigned(Decimal::new(number))));
            }
            if let Ok(number) = i64::try_from(number) {
                return Ok(Some(AnyName::Signed(number)));
            }
        }
        Ok(key.key_text(alloc)?.map(|text| AnyName::Text(text)))
    }

    fn as_str<'a>(&'a self, buffer: &'a mut Buffer) -> &'a str {
        match self {
            AnyName::Unsigned(digits) => buffer.format(digits.number()),
            AnyName::Signed(number) => buffer.format(*number),
            AnyName::Text(text) => text.as_str(),
        }
    }

    ghost by_bytes = { refl };
}

impl PartialEq for AnyName {
    ghost eq = { λ x y. pointwise nat_eq (name_bytes x) (name_bytes y) };

    ghost laws = { on_per name_bytes (partial_equiv_from_equiv nat_list_eq_equiv) };

    fn eq(&self, other: &Self) -> bool {
        self.cmp(other).is_eq()
    }
}

impl Eq for AnyName {
    ghost laws = { on_equiv name_bytes nat_list_eq_equiv };
}

impl PartialOrd for AnyName {
    ghost partial_cmp = { λ x y. Some (slice_cmp nat_cmp (name_bytes x) (name_bytes y)) };

    ghost laws = { on_po name_bytes texts_po };

    fn partial_cmp(&self, other: &Self) -> Option<Ordering> {
        Some(self.cmp(other))
    }
}

impl Ord for AnyName {
    ghost cmp = { λ x y. slice_cmp nat_cmp (name_bytes x) (name_bytes y) };

    ghost total = { on_total name_bytes nat_list_cmp_total };

    ghost matches_partial_cmp = { λ x y. refl };

    ghost matches_eq = { λ x y. texts_ties (name_bytes x) (name_bytes y) };

    fn cmp(&self, other: &Self) -> Ordering {
        if let AnyName::Unsigned(a) = self {
            if let AnyName::Unsigned(b) = other {
                return a.compare(b);
            }
        }
        if let AnyName::Signed(a) = self {
            if let AnyName::Signed(b) = other {
                // Both begin with `-`, so the digits after it decide.
                if *a < 0 && *b < 0 {
                    return cmp_digits(a.unsigned_abs(), b.unsigned_abs());
                }
            }
        }
        // Any others are compared as strings.
        self.as_str(&mut Buffer::new())
            .cmp(other.as_str(&mut Buffer::new()))
    }
}
