//! Why bytes can't be looked up in.
ghost use Rattle.std.specs.Prelude.{◌≡◌};
ghost use Rattle.name_index.specs.declared.error.NameIndexFault.TheVariants.{Format, NoRoom};

use name_table::NameFault;
use std::alloc::AllocError;
use thiserror::Error;

/// Why no `NameIndex` of a name table was made.
#[derive(Debug, PartialEq, Drop, Error)]
pub enum NameIndexFault {
    /// Memory ran out.
    #[error("there is not enough memory")]
    NoRoom,
    /// A number or a string can't be read: the bytes are no name table.
    #[error("{0}")]
    Format(NameFault),
    /// A key isn't above the one before it.
    #[error("the key of the entry at byte {at} is not above the one before it")]
    NotAscending {
        /// Where the first such entry begins.
        at: usize,
    },
    /// An entry begins at byte 4,294,967,296 or later.
    #[error("an entry of the name table begins at too high an offset")]
    TooFar,
}

/// Lets `?` turn an `AllocError` into `NoRoom`.
impl From<AllocError> for NameIndexFault {
    ghost from_gives = { λ _ error. error ≡ NoRoom };

    fn from(_: AllocError) -> Self {
        NameIndexFault::NoRoom
    }
}

/// Lets `?` turn an error of the format into `Format`.
impl From<NameFault> for NameIndexFault {
    ghost from_gives = { λ error result. result ≡ Format error };

    fn from(error: NameFault) -> Self {
        NameIndexFault::Format(error)
    }
}

/// Why bytes are no index of names.
#[derive(Debug, PartialEq, Drop, Error)]
pub enum IndexFault {
    /// The bytes end before the number or string does, or before it begins.
    #[error("the bytes end within the number or string at byte {at}")]
    Truncated {
        /// Where the number or string begins.
        at: usize,
    },
    /// The string's bytes aren't UTF-8.
    #[error("the string at byte {at} is not UTF-8")]
    NotUtf8 {
        /// Where the string begins.
        at: usize,
    },
    /// A key isn't above the one before it.
    #[error("the key of the entry {index} is not above the one before it")]
    NotAscending {
        /// Which entry it is.
        index: usize,
    },
    /// Entries overlap: those up to this one take more bytes than there are.
    #[error("the entries up to the entry {index} take more bytes than there are")]
    Overlapping {
        /// Which entry it is.
        index: usize,
    },
}
