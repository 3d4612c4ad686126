// The 24-bit numbers that frames are composed under.
ghost use Rattle.std.specs.Prelude.{◌≡◌, ◌%◌, ◌^◌, ◌<◌, ◌≤◌, ◌++◌, Some, MatchResult, codes, decimal, ◌==◌};
ghost use Rattle.signature.specs.Numbers.{following, numeral};

use std::error::Error;
use std::fmt;

// A number by its octets, so that every value of the type is a number and every number has one.
#[derive(Clone, Copy, Debug, PartialEq)]
pub struct Number {
    pub high: u8,
    pub middle: u8,
    pub low: u8,
}

// A value that has more than 24 bits.
#[derive(Clone, Copy, Debug, PartialEq)]
pub struct TooLarge(pub u32);

impl TryFrom<u32> for Number {
    type Error = TooLarge;

    ghost try_from_gives = { λ value r. MatchResult r (λ n. numeral n ≡ value) (λ e. (e.0 ≡ value) × (2 ^ 24 ≤ value)) };

    fn try_from(value: u32) -> Result<Number, TooLarge> {
        if value <= 0xff_ffff {
            Ok(Number::lowest(value))
        } else {
            Err(TooLarge(value))
        }
    }
}

impl From<Number> for u32 {
    ghost from_gives = { λ n value. (value ≡ numeral n) × (value < 2 ^ 24) };

    fn from(number: Number) -> u32 {
        u32::from_be_bytes([0, number.high, number.middle, number.low])
    }
}

impl Number {
    // The number of restarts.
    pub fn zero() -> Number
        ensures { numeral result ≡ 0 }
    {
        Number {
            high: 0,
            middle: 0,
            low: 0,
        }
    }

    // The 24 lowest bits.
    pub fn lowest(value: u32) -> Number
        ensures { numeral result ≡ value % 2 ^ 24 }
    {
        let [_, high, middle, low] = value.to_be_bytes();
        Number { high, middle, low }
    }

    pub fn is_zero(self) -> bool
        ensures { result ≡ (numeral self == 0) }
    {
        u32::from(self) == 0
    }

    // The number that follows; 1 follows the largest.
    pub fn next(self) -> Number
        ensures { numeral result ≡ following (numeral self) }
    {
        let n = u32::from(self);
        if n < 0xff_ffff {
            Number::lowest(n + 1)
        } else {
            Number::lowest(1)
        }
    }
}

impl fmt::Display for TooLarge {
    ghost output = { λ x. Some (decimal x.0 ++ codes " has more than the 24 bits of a number") };

    fn fmt<W: fmt::Write>(&self, f: &mut fmt::Formatter<W>) -> fmt::Result {
        write!(f, "{} has more than the 24 bits of a number", self.0)
    }
}

impl Error for TooLarge {}
