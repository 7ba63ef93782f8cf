// Frames and their sizes, after data.rs, and the other limits of document 01's domain.
ghost use Rattle.std.specs.Prelude.{◌≡◌};
ghost use Rattle.rules.specs.declared.refusal.Refusal.TheVariants.{CanId as OverCanId};
ghost use Rattle.rules.specs.Limits.{greatest_can_id, tried_can_id, tried_mtu, size_of};

use crate::refusal::Refusal;
use crate::types::Limited;

// The greatest number of bytes in a frame.
pub const FRAME_CAPACITY: usize = 64;

// The greatest number of bytes in a payload.
pub const PAYLOAD_MAX: usize = 1024;

// The greatest extent of a subscription, in bytes.
pub const EXTENT_MAX: u16 = 1024;

// The greatest number of places in a queue.
pub const CAPACITY_MAX: usize = 256;

// A CAN ID of 29 bits.
#[derive(Clone, Copy, PartialEq, Eq)]
pub struct CanId(pub u32);

impl CanId {
    pub const MAX: u32 = 0x1fff_ffff;
}

impl Limited for CanId {
    ghost GREATEST = { greatest_can_id };

    const GREATEST: u32 = CanId::MAX;

    ghost OVER = { OverCanId };

    const OVER: Refusal = Refusal::CanId;

    ghost number = { λ kind. kind.0 };

    fn number(self) -> u32 {
        self.0
    }
}

impl TryFrom<u32> for CanId {
    type Error = Refusal;

    ghost try_from_gives = { λ value r. r ≡ tried_can_id value };

    fn try_from(value: u32) -> Result<Self, Refusal> {
        CanId(value).judged()
    }
}

// The greatest number of bytes that one frame carries: 8 for standard CAN, 64 for CAN FD.
#[derive(Clone, Copy, PartialEq, Eq)]
pub enum Mtu {
    Can8,
    CanFd64,
}

impl Mtu {
    pub fn as_bytes(self) -> usize
        ensures { result ≡ size_of self }
    {
        match self {
            Mtu::Can8 => 8,
            Mtu::CanFd64 => 64,
        }
    }
}

impl TryFrom<usize> for Mtu {
    type Error = Refusal;

    ghost try_from_gives = { λ bytes r. r ≡ tried_mtu bytes };

    fn try_from(bytes: usize) -> Result<Self, Refusal> {
        match bytes {
            8 => Ok(Mtu::Can8),
            64 => Ok(Mtu::CanFd64),
            _ => Err(Refusal::Mtu),
        }
    }
}
