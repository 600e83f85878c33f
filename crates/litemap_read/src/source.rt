//! Sources of pairs.
ghost use Rattle.std.specs.Prelude.{◌≡◌, ◌↔◌, ℕ, List};
ghost use Rattle.litemap_read.specs.Source.{GivesNext};
ghost use Rattle.litemap_read.specs.declared.source.ReadFault.TheVariants.{NoRoom};

use litemap::store;
use std::alloc::AllocError;
use std::error::Error;
use std::fmt::{self, Display, Formatter, Write};
use std::io;

/// A source of pairs, which gives them one by one, and may return an error in place of one. The Rust crate reads by serde's
/// `MapAccess` here.
///
/// A contract sees a source by the list of pairs that it can still give, by the errors that it may return, and by whether it
/// may end. Each call of `next_pair` returns the first pair and takes it off the list; or it returns `None`, only if the list
/// is empty and the source may end; or an error that it may return, and then the list stays. Which errors it may return, and
/// whether it may end, never changes.
pub trait PairSource<K, V> {
    /// The error. A source that never fails takes `NoFault`.
    type Fault;

    /// The list is one that it can still give. There is more than one only if a contract tells values apart that the source
    /// doesn't, such as strings with equal bytes at two addresses.
    ghost gives: { Self → List (K × V) → Type 0 };

    /// How many pairs it can still give.
    ghost left: { Self → ℕ };

    /// Which errors it may return.
    ghost allows: { Self → Self.Fault → Type 0 };

    /// Whether it may end: return `None` if it has no pairs left.
    ghost ends: { Self → Type 0 };

    /// What holds between a state of the source and each later one, beyond the list that gets shorter: `⊤` if that is all.
    ghost leads: { Self → Self → Type 0 };

    /// Returns how many pairs are still to come, if the source has an idea. It may be wrong.
    fn hint(&self) -> Option<usize>;

    /// Returns the next pair, `None` at the end, or an error.
    fn next_pair(&mut self) -> Result<Option<(K, V)>, Self::Fault>
        ensures next { GivesNext gives left allows ends self.old result self.new }
        ensures keeps_faults { (e : Self.Fault) → allows self.new e ↔ allows self.old e }
        ensures keeps_end { ends self.new ↔ ends self.old }
        ensures leads { leads self.old self.new };

    ghost leads_itself: { (s : Self) → leads s s };

    ghost leads_on: { (s : Self) (t : Self) (u : Self) → leads s t → leads t u → leads s u };
}

/// Why no map was read. The pairs read so far are dropped.
#[derive(Debug, PartialEq, Drop)]
pub enum ReadFault<E> {
    /// Memory ran out, or the store is full.
    NoRoom,
    /// The error of the source.
    Source(E),
}

/// Lets `?` turn an `AllocError` into `NoRoom`.
impl<E> From<AllocError> for ReadFault<E> {
    ghost from_gives = { λ _ error. error ≡ NoRoom };

    fn from(_: AllocError) -> Self {
        ReadFault::NoRoom
    }
}

/// Lets `?` do so with the error of a map's call, too. What was passed in is dropped.
impl<E, T: Drop> From<store::NoRoom<T>> for ReadFault<E> {
    ghost from_gives = { λ _ error. error ≡ NoRoom };

    fn from(_: store::NoRoom<T>) -> Self {
        ReadFault::NoRoom
    }
}

/// Lets `?` return it in a function that returns an `io::Result`. `NoRoom` becomes out of memory, an error of the source invalid
/// data. The source's own error is dropped: to show it, print it first.
impl<E: Drop> From<ReadFault<E>> for io::Error {
    ghost use Rattle.std.specs.Prelude.{◌≡◌};
    ghost use Rattle.std.specs.IoError.{error_kind};
    ghost use Rattle.litemap_read.specs.ReadFault.{fault_kind};

    ghost from_gives = { λ error e. error_kind e ≡ fault_kind error };

    fn from(error: ReadFault<E>) -> io::Error {
        match error {
            ReadFault::NoRoom => io::Error::from(AllocError),
            ReadFault::Source(_) => io::Error::new(
                io::ErrorKind::InvalidData,
                "the source of pairs returned an error",
            ),
        }
    }
}

impl<E: Display> Display for ReadFault<E> {
    fn fmt<W: Write>(&self, f: &mut Formatter<W>) -> fmt::Result {
        match self {
            ReadFault::NoRoom => f.write_str("there is not enough memory"),
            ReadFault::Source(error) => write!(f, "{error}"),
        }
    }
}

/// Lets `?` return it in a function that returns an `anyhow::Result`.
impl<E: Error> Error for ReadFault<E> {}
