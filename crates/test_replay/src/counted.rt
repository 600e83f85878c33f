//! Keys and values that count themselves. Keys also count their comparisons, and lie in one of several orders.
ghost use Rattle.std.specs.Prelude.{◌==◌, ◌≡◌};
ghost use Rattle.std.specs.Hash as fed;
ghost use Rattle.std.proofs.Common.{rules};
ghost use Rattle.std.specs.Ordering.{nat_cmp, on, as_partial_cmp};
ghost use Rattle.std.specs.Cmp.Rules.{comparing, hashing};
ghost use Rattle.std.specs.Cmp.{partial_order_from_own_ties};

use std::alloc::{AllocError, Global};
use std::cell::Cell;
use std::cmp::Ordering;
use std::fmt::{self, Debug, Formatter, Write};
use std::hash::{Hash, Hasher};
use std::rc::Rc;
use std::{mem, str};

/// What is counted of keys, or of values.
#[derive(Default, Drop)]
pub struct Tally {
    /// How often two were compared.
    pub compared: Cell<u32>,
    /// How many were cloned.
    pub cloned: Cell<u32>,
    /// How many are alive. Those that a type makes by itself are not among them.
    pub alive: Cell<u32>,
    /// A sum of the ranks that keys were called for, by their order.
    pub ranks: Cell<u64>,
}

/// What is counted.
#[derive(Drop)]
pub struct Seen {
    /// Of the keys.
    pub keys: Rc<Tally>,
    /// Of the values.
    pub values: Rc<Tally>,
}

impl Seen {
    /// Nothing yet.
    pub fn new(alloc: Global) -> Result<Self, AllocError> {
        let keys = Rc::new(alloc, Tally::default())?;
        let values = Rc::new(alloc, Tally::default())?;
        Ok(Seen { keys, values })
    }

    /// How many keys and values were cloned.
    pub fn cloned(&self) -> u32 {
        let (keys, values) = (&self.keys.cloned, &self.values.cloned);
        keys.get().wrapping_add(values.get())
    }
}

/// A sum of ranks by their order, with one more.
pub fn with_rank(sum: u64, rank: u64) -> u64 {
    sum.wrapping_add(rank).wrapping_add(1).wrapping_mul(31)
}

fn raise(number: &Cell<u32>) {
    number.set(number.get().wrapping_add(1));
}

fn lower(number: &Cell<u32>) {
    number.set(number.get().wrapping_sub(1));
}

/// How keys are written, and in which order they lie.
#[derive(Clone, Copy, Default)]
pub enum Order {
    /// Numbers.
    #[default]
    Number,
    /// Numbers, the greatest one first.
    Falling,
    /// Texts that are all equal.
    Same,
    /// Letters, whose case is ignored.
    Letter,
    /// Strings of up to eight bytes, by their bytes.
    Text,
    /// Such strings, by their lengths alone.
    Length,
}

impl Order {
    /// The order of a name, if there is one.
    pub fn of_name(name: &str) -> Option<Order> {
        Some(match name {
            "number" => Order::Number,
            "falling" => Order::Falling,
            "same" => Order::Same,
            "letter" => Order::Letter,
            "text" => Order::Text,
            "length" => Order::Length,
            _ => return None,
        })
    }

    // What a word tells: a number, or the bytes of a string from the highest one on.
    pub(crate) fn code(self, word: &str) -> Option<u64> {
        match self {
            Order::Number | Order::Falling => word.parse().ok(),
            Order::Same | Order::Letter | Order::Text | Order::Length => code_of_text(word),
        }
    }

    // Where a key stands among all keys.
    fn rank(self, code: u64) -> u64 {
        match self {
            Order::Number | Order::Text => code,
            Order::Falling => !code,
            Order::Same => 0,
            Order::Letter => code | LOWER_CASE,
            Order::Length => length_of_code(code),
        }
    }
}

// The bit that parts a small letter from a large one.
const LOWER_CASE: u64 = 1 << 61;

fn code_of_text(word: &str) -> Option<u64> {
    let mut bytes = [0u8; 8];
    for (place, byte) in word.bytes().enumerate() {
        *bytes.get_mut(place)? = byte;
    }
    (!word.is_empty()).then_some(u64::from_be_bytes(bytes))
}

// How many bytes come before the zeros.
fn length_of_code(code: u64) -> u64 {
    (71 - (code.trailing_zeros().min(64)) as u64) / 8
}

/// A key: it counts how often it is compared, by its rank among all keys, how often it is cloned, and how many there are.
#[derive(Default)]
pub struct Key {
    rank: u64,
    // What tells a key from equal ones.
    code: u64,
    order: Order,
    // Nothing of one that `default` makes, which is not counted: made with no allocator, a default owns nothing.
    tally: Option<Rc<Tally>>,
}

/// What counts as a key does. With no parameter here, no proof of `Tested` for stores with two parameters is made.
#[derive(Clone, Default, Drop, PartialEq, Eq, PartialOrd, Ord, Hash)]
pub struct Counted<T> {
    number: T,
}

/// A value: a number.
pub type Value = Counted<Key>;

impl Key {
    /// The key of a code.
    pub fn new(order: Order, code: u64, seen: &Seen) -> Result<Self, AllocError> {
        Key::counted(order, code, &seen.keys)
    }

    fn counted(order: Order, code: u64, tally: &Rc<Tally>) -> Result<Self, AllocError> {
        raise(&tally.alive);
        Ok(Key {
            rank: order.rank(code),
            code,
            order,
            tally: Some(tally.clone()?),
        })
    }

    fn note_compared(&self) {
        if let Some(tally) = &self.tally {
            raise(&tally.compared);
        }
    }

    /// How it is written.
    pub fn order(&self) -> Order {
        self.order
    }

    /// Where it stands among all keys, which is noted.
    pub fn rank(&self) -> u64
        ensures { result ≡ self.now.rank }
    {
        if let Some(tally) = &self.tally {
            tally.ranks.set(with_rank(tally.ranks.get(), self.rank));
        }
        self.rank
    }

    /// What tells the key from others, equal ones too.
    pub fn code(&self) -> u64 {
        self.code
    }
}

impl Counted<Key> {
    /// The value of a number.
    pub fn of_number(number: u64, seen: &Seen) -> Result<Self, AllocError> {
        let number = Key::counted(Order::Number, number, &seen.values)?;
        Ok(Counted { number })
    }

    /// The number.
    pub fn number(&self) -> u64 {
        self.number.rank
    }

    /// Writes another number, and returns the old one.
    pub fn write(&mut self, number: u64) -> u64 {
        mem::replace(&mut self.number.rank, number)
    }
}

impl AsRef<Counted<Key>> for Counted<Key> {
    fn as_ref(&self) -> &Counted<Key> {
        self
    }
}

impl AsRef<Key> for Key {
    fn as_ref(&self) -> &Key {
        self
    }
}

impl Drop for Key {
    fn drop(self) {
        let Key {
            rank: _,
            code: _,
            order: _,
            tally,
        } = self;
        if let Some(tally) = tally {
            lower(&tally.alive);
        }
    }
}

impl Clone for Key {
    ghost is_clone = { λ s t. t.rank ≡ s.rank };

    fn clone(&self) -> Result<Self, AllocError> {
        if let Some(tally) = &self.tally {
            raise(&tally.cloned);
            raise(&tally.alive);
        }
        Ok(Key {
            rank: self.rank,
            code: self.code,
            order: self.order,
            tally: self.tally.clone()?,
        })
    }
}

impl PartialEq for Key {
    ghost eq = { λ a b. a.rank == b.rank };

    ghost laws = { Prim.search (comparing, rules) };

    fn eq(&self, other: &Self) -> bool {
        self.note_compared();
        self.rank == other.rank
    }
}

impl Eq for Key {
    ghost laws = { Prim.search (comparing, rules) };
}

impl PartialOrd for Key {
    ghost partial_cmp = { as_partial_cmp (on (λ a. a.rank) nat_cmp) };

    ghost laws = { partial_order_from_own_ties (Prim.search (comparing, rules)) (Prim.search (comparing, rules)) };

    fn partial_cmp(&self, other: &Self) -> Option<Ordering> {
        Some(self.cmp(other))
    }
}

impl Ord for Key {
    ghost cmp = { on (λ a. a.rank) nat_cmp };

    ghost total = { Prim.search (comparing, rules) };

    ghost matches_partial_cmp = { Prim.search (comparing, rules) };

    ghost matches_eq = { Prim.search (comparing, rules) };

    fn cmp(&self, other: &Self) -> Ordering {
        self.note_compared();
        self.rank.cmp(&other.rank)
    }
}

impl Hash for Key {
    ghost hash_input = { λ a. fed.u64 a.rank };

    ghost respects_eq = { Prim.search (hashing, rules) };

    fn hash<H: Hasher>(&self, state: &mut H) {
        self.rank.hash(state);
    }
}

/// Printed as it is written.
impl Debug for Key {
    fn fmt<W: Write>(&self, f: &mut Formatter<W>) -> fmt::Result {
        write_code(f, self.order, self.code)
    }
}

/// Printed as its number.
impl Debug for Counted<Key> {
    fn fmt<W: Write>(&self, f: &mut Formatter<W>) -> fmt::Result {
        write!(f, "{}", self.number())
    }
}

/// Writes the word of a key.
pub(crate) fn write_code<W: Write>(f: &mut W, order: Order, code: u64) -> fmt::Result {
    if matches!(order, Order::Number | Order::Falling) {
        return write!(f, "{code}");
    }
    let bytes = code.to_be_bytes();
    f.write_str(str::from_utf8(&bytes).unwrap_or("?").trim_end_matches('\0'))
}
