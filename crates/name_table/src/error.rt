//! Why a name table can't be read, and why none is written.
ghost use Rattle.std.specs.Prelude.{◌≡◌};
ghost use Rattle.litemap_read.specs.declared.source.ReadFault.TheVariants.{Source};
ghost use Rattle.name_table.specs.declared.error.NameWriteFault.TheVariants.{NoRoom};

use litemap_read::ReadFault;
use std::alloc::AllocError;
use thiserror::Error;

/// Why a name table can't be read, and the offset of the first byte of the number or string that can't.
///
/// ```rust
/// let fault = read_names(alloc, b"\x01\x02de\x06Ger").err();
/// Ok(fault == Some(ReadFault::Source(NameFault::Truncated { at: 5 })))
/// ```
#[derive(Debug, PartialEq, Drop, Error)]
pub enum NameFault {
    /// The bytes end within the number or string, or before it.
    #[error("the bytes end within the number or string at byte {at}")]
    Truncated {
        /// Where the number or string begins.
        at: usize,
    },
    /// The string's bytes aren't UTF-8.
    #[error("the string at byte {at} is not UTF-8")]
    NotUtf8 {
        /// Where the string begins.
        at: usize,
    },
    /// The number takes more than five bytes, or isn't below 4,294,967,296.
    #[error("the number at byte {at} is too large")]
    NumberTooLarge {
        /// Where the number begins.
        at: usize,
    },
}

/// Why no name table, or no index of names, was written.
#[derive(Debug, PartialEq, Drop, Error)]
pub enum NameWriteFault {
    /// Memory ran out.
    #[error("there is not enough memory")]
    NoRoom,
    /// The number of pairs, or the length of a string in bytes, isn't below 4,294,967,296; of an index, the bytes of all entries.
    #[error("a number of the name table is too large")]
    TooLarge,
}

/// Lets `?` turn an `AllocError` into `NoRoom`.
impl From<AllocError> for NameWriteFault {
    ghost from_gives = { λ _ error. error ≡ NoRoom };

    fn from(_: AllocError) -> Self {
        NameWriteFault::NoRoom
    }
}

/// Lets `?` return it in a function that reads a map, which may also run out of memory.
impl From<NameFault> for ReadFault<NameFault> {
    ghost from_gives = { λ error result. result ≡ Source error };

    fn from(error: NameFault) -> Self {
        ReadFault::Source(error)
    }
}
