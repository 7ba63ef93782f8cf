// The refusals of document 01, in its order; each has its number there.
ghost use Rattle.std.specs.Prelude.{◌≡◌};
ghost use Rattle.rules.specs.Refusals.{number_of};

use std::error::Error;
use std::fmt;

#[derive(Clone, Copy, Debug, PartialEq, Eq)]
pub enum Refusal {
    // a CAN ID of 2^29 or more
    CanId = 1,
    // a received frame with no bytes
    NoBytes = 2,
    // a frame over 64 bytes
    FrameTooLong = 3,
    // a reserved bit is set
    ReservedBit = 4,
    // no session and no start bit
    NoSession = 5,
    // a residue other than 0 at the end bit
    Residue = 6,
    // a store of fewer bytes than 128 parts need
    StoreTooSmall = 7,
    // an extent over its limit
    ExtentTooLarge = 8,
    // an MTU that is neither 8 nor 64
    Mtu = 9,
    // a payload over its limit
    PayloadTooLong = 10,
    // an anonymous payload that does not fit one frame
    AnonymousTooLong = 11,
    // a field out of its limits, or a service transfer with no source
    Field = 12,
    // fewer free places than frames needed
    NoPlace = 13,
    // a queue capacity over its limit
    CapacityTooLarge = 14,
}

impl Refusal {
    // The number that document 01 gives the refusal.
    pub fn number(self) -> u8
        ensures { result ≡ number_of self }
    {
        self as u8
    }
}

impl fmt::Display for Refusal {
    fn fmt<W: fmt::Write>(&self, f: &mut fmt::Formatter<W>) -> fmt::Result {
        f.write_str(match self {
            Refusal::CanId => "a CAN ID that there is not",
            Refusal::NoBytes => "no bytes",
            Refusal::FrameTooLong => "a frame too long",
            Refusal::ReservedBit => "a reserved bit",
            Refusal::NoSession => "no session and no start bit",
            Refusal::Residue => "a residue other than 0",
            Refusal::StoreTooSmall => "a store too small",
            Refusal::ExtentTooLarge => "an extent too large",
            Refusal::Mtu => "an MTU that there is not",
            Refusal::PayloadTooLong => "a payload too long",
            Refusal::AnonymousTooLong => "an anonymous payload too long",
            Refusal::Field => "a field out of its limits",
            Refusal::NoPlace => "no free place",
            Refusal::CapacityTooLarge => "a capacity too large",
        })
    }
}

impl Error for Refusal {}
