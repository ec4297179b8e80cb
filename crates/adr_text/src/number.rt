ghost use Rattle.std.specs.Prelude.{◌≡◌};
ghost use Rattle.adr_text.specs.Fields.{whole_from};

use crate::fault::Fault;

/// What a JSON value is as a whole number.
#[derive(Clone, Copy, PartialEq, Eq)]
pub enum Whole {
    /// It fits 64 bits with a sign.
    In(i64),
    /// A whole number from 2^63 to 2^64 - 1.
    Beyond,
    /// Another number: one with a point or an exponent, `-0`, or a whole number beyond 64 bits.
    Fraction,
    /// No number.
    NoNumber,
}

impl Whole {
    /// The number, or why there is none: `OutOfRange`, `Fraction` or `BadShape`.
    pub fn to_i64(self) -> Result<i64, Fault>
        ensures { result ≡ whole_from self }
    {
        match self {
            Whole::In(n) => Ok(n),
            Whole::Beyond => Err(Fault::OutOfRange),
            Whole::Fraction => Err(Fault::Fraction),
            Whole::NoNumber => Err(Fault::BadShape),
        }
    }
}
