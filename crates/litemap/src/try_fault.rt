ghost use Rattle.std.specs.Prelude.{◌≡◌, alloc_error};
ghost use Rattle.std.specs.IoError.{error_kind};
ghost use Rattle.std.specs.declared.io.ErrorKind.TheVariants.{OutOfMemory};

use std::alloc::AllocError;
use std::error::Error;
use std::fmt::{self, Debug, Display, Formatter, Write};
use std::io;

/// Why `try_find_or_insert`, `try_get_or_insert` or `or_try_insert_with` inserted nothing. The Rust crate returns the closure's
/// error alone, and aborts if memory runs out.
#[derive(Debug, PartialEq, Drop)]
pub enum TryFault<K, V, E> {
    /// The closure's error. The key is dropped.
    Closure(E),
    /// Memory ran out, or the store is full: the key passed in and the value that the closure returned come back.
    NoRoom {
        /// The key passed in.
        key: K,
        /// The value that the closure returned.
        value: V,
    },
}

/// Lets `?` turn both errors into an `AllocError` if the closure's is one. The key and the value are dropped.
impl<K: Drop, V: Drop> From<TryFault<K, V, AllocError>> for AllocError {
    ghost from_gives = { λ _ e. e ≡ alloc_error };

    fn from(_: TryFault<K, V, AllocError>) -> AllocError {
        AllocError
    }
}

/// The same for `?` in a function that returns an `io::Result`.
impl<K: Drop, V: Drop> From<TryFault<K, V, AllocError>> for io::Error {
    ghost from_gives = { λ _ e. error_kind e ≡ OutOfMemory };

    fn from(_: TryFault<K, V, AllocError>) -> io::Error {
        io::Error::from(AllocError)
    }
}

impl<K, V, E: Display> Display for TryFault<K, V, E> {
    fn fmt<W: Write>(&self, f: &mut Formatter<W>) -> fmt::Result {
        match self {
            TryFault::Closure(error) => write!(f, "{error}"),
            TryFault::NoRoom { key: _, value: _ } => f.write_str("there is not enough memory"),
        }
    }
}

/// Lets `?` return it in a function that returns an `anyhow::Result`.
impl<K: Debug + Drop, V: Debug + Drop, E: Error> Error for TryFault<K, V, E> {}
