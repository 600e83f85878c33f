//! Keys and values that are made of numbers, in the same order.
ghost use Rattle.std.specs.Prelude.{◌≡◌};
ghost use Rattle.std.specs.declared.cmp.Ordering.TheVariants.{Equal};
ghost use Rattle.std.proofs.Common.{rules};
ghost use Rattle.std.specs.Cmp.Rules.{comparing};

use std::alloc::{AllocError, Global};
use std::boxed::BoxedStr;

/// A key of 48 bytes: a number, by which it is compared, and two strings, which are the same in all.
#[derive(Clone, Drop, PartialEq, Eq, PartialOrd, Ord)]
pub struct Wide {
    number: u64,
    text: String,
    boxed: BoxedStr,
}

/// A key or a value that is made of a number.
pub trait Made: Ord + Clone + Drop {
    /// That of a number.
    fn of(alloc: Global, number: u32) -> Result<Self, AllocError>;

    /// The number that it is made of, or 0 if it has no bytes.
    fn number(&self) -> u64;

    // A clone compares equal to its original.
    ghost clones: { (x y : Self) → Self.is_clone x y → Self.cmp x y ≡ Equal };
}

impl Made for u32 {
    fn of(_alloc: Global, number: u32) -> Result<u32, AllocError> {
        Ok(number)
    }

    fn number(&self) -> u64 {
        *self as u64
    }

    ghost clones = { Prim.search (comparing, rules) };
}

impl Made for () {
    fn of(_alloc: Global, _number: u32) -> Result<(), AllocError> {
        Ok(())
    }

    fn number(&self) -> u64 {
        0
    }

    ghost clones = { Prim.search (comparing, rules) };
}

impl Made for Wide {
    fn of(alloc: Global, number: u32) -> Result<Wide, AllocError> {
        Ok(Wide {
            number: number as u64,
            text: String::from_str(alloc, "text")?,
            boxed: BoxedStr::from_str(alloc, "boxed")?,
        })
    }

    fn number(&self) -> u64 {
        self.number
    }

    ghost clones = { Prim.search (comparing, rules) };
}

impl<T: Made> Made for Box<T> {
    fn of(alloc: Global, number: u32) -> Result<Box<T>, AllocError> {
        Ok(Box::new(alloc, T::of(alloc, number)?)?)
    }

    fn number(&self) -> u64 {
        T::number(self)
    }

    ghost clones = { λ x y c. T.clones x.value y.value c };
}
