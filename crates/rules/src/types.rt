// The kinds of number, after types.rs. Any number can stand in one; the constructor of its kind judges it, and a number over the greatest is refused.
ghost use Rattle.std.specs.Prelude.{◌≡◌, ℕ, nat_le, Result};
ghost use Rattle.rules.specs.declared.refusal.Refusal.{Refusal};
ghost use Rattle.rules.specs.declared.refusal.Refusal.TheVariants.{Field};
ghost use Rattle.rules.specs.Limits.{greatest_priority, greatest_subject, greatest_service, greatest_node, greatest_transfer_id, within, tried_priority, tried_subject, tried_service, tried_node, tried_transfer_id, truncated, is_reserved, incremented};

use crate::refusal::Refusal;

// A kind of number: its greatest, and how a greater one is refused. Each kind has the two impls written out: `rt ci` refuses impls by a macro of the repository's own.
pub trait Limited: Copy + Drop {
    ghost GREATEST: { ℕ };

    const GREATEST: u32;

    ghost OVER: { Refusal };

    const OVER: Refusal;

    ghost number: { Self → ℕ };

    // The number that stands here.
    fn number(self) -> u32
        ensures { result ≡ number self };

    // Whether the constructor takes the number that stands here.
    final fn is_valid(self) -> bool
        ensures { result ≡ nat_le (number self) GREATEST }
    {
        self.number() <= Self::GREATEST
    }

    // What the constructor says of the number that stands here.
    final fn judged(self) -> Result<Self, Refusal>
        ensures { result ≡ within OVER GREATEST (number self) self }
    {
        if Self::GREATEST < self.number() {
            return Err(Self::OVER);
        }
        Ok(self)
    }
}

#[derive(Clone, Copy, PartialEq, Eq)]
pub struct Priority(pub u8);

impl Priority {
    pub const MAX: u8 = 7;
}

impl Limited for Priority {
    ghost GREATEST = { greatest_priority };

    const GREATEST: u32 = Priority::MAX as u32;

    ghost OVER = { Field };

    const OVER: Refusal = Refusal::Field;

    ghost number = { λ kind. kind.0 };

    fn number(self) -> u32 {
        u32::from(self.0)
    }
}

impl TryFrom<u8> for Priority {
    type Error = Refusal;

    ghost try_from_gives = { λ value r. r ≡ tried_priority value };

    fn try_from(value: u8) -> Result<Self, Refusal> {
        Priority(value).judged()
    }
}

#[derive(Clone, Copy, PartialEq, Eq)]
pub struct SubjectId(pub u16);

impl SubjectId {
    pub const MAX: u16 = 8191;
}

impl Limited for SubjectId {
    ghost GREATEST = { greatest_subject };

    const GREATEST: u32 = SubjectId::MAX as u32;

    ghost OVER = { Field };

    const OVER: Refusal = Refusal::Field;

    ghost number = { λ kind. kind.0 };

    fn number(self) -> u32 {
        u32::from(self.0)
    }
}

impl TryFrom<u16> for SubjectId {
    type Error = Refusal;

    ghost try_from_gives = { λ value r. r ≡ tried_subject value };

    fn try_from(value: u16) -> Result<Self, Refusal> {
        SubjectId(value).judged()
    }
}

#[derive(Clone, Copy, PartialEq, Eq)]
pub struct ServiceId(pub u16);

impl ServiceId {
    pub const MAX: u16 = 511;
}

impl Limited for ServiceId {
    ghost GREATEST = { greatest_service };

    const GREATEST: u32 = ServiceId::MAX as u32;

    ghost OVER = { Field };

    const OVER: Refusal = Refusal::Field;

    ghost number = { λ kind. kind.0 };

    fn number(self) -> u32 {
        u32::from(self.0)
    }
}

impl TryFrom<u16> for ServiceId {
    type Error = Refusal;

    ghost try_from_gives = { λ value r. r ≡ tried_service value };

    fn try_from(value: u16) -> Result<Self, Refusal> {
        ServiceId(value).judged()
    }
}

#[derive(Clone, Copy, PartialEq, Eq)]
pub struct CanNodeId(pub u8);

impl CanNodeId {
    pub const MAX: u8 = 127;

    // The low seven bits of any number, as a node.
    pub fn from_truncating(value: u8) -> CanNodeId
        ensures { result ≡ truncated value }
    {
        CanNodeId(value & CanNodeId::MAX)
    }

    // Whether the node is one of the two highest, which are kept for diagnostic and debugging tools.
    pub fn is_diagnostic_reserved(self) -> bool
        ensures { result ≡ is_reserved self }
    {
        CanNodeId::MAX - 1 <= self.0
    }
}

impl Limited for CanNodeId {
    ghost GREATEST = { greatest_node };

    const GREATEST: u32 = CanNodeId::MAX as u32;

    ghost OVER = { Field };

    const OVER: Refusal = Refusal::Field;

    ghost number = { λ kind. kind.0 };

    fn number(self) -> u32 {
        u32::from(self.0)
    }
}

impl TryFrom<u8> for CanNodeId {
    type Error = Refusal;

    ghost try_from_gives = { λ value r. r ≡ tried_node value };

    fn try_from(value: u8) -> Result<Self, Refusal> {
        CanNodeId(value).judged()
    }
}

#[derive(Clone, Copy, PartialEq, Eq)]
pub struct CanTransferId(pub u8);

impl CanTransferId {
    pub const MAX: u8 = 31;

    // The transfer ID after this one: one more, and 0 after the greatest.
    pub fn increment(self) -> CanTransferId
        ensures { result ≡ incremented self }
    {
        CanTransferId(self.0.wrapping_add(1) & CanTransferId::MAX)
    }
}

impl Limited for CanTransferId {
    ghost GREATEST = { greatest_transfer_id };

    const GREATEST: u32 = CanTransferId::MAX as u32;

    ghost OVER = { Field };

    const OVER: Refusal = Refusal::Field;

    ghost number = { λ kind. kind.0 };

    fn number(self) -> u32 {
        u32::from(self.0)
    }
}

impl TryFrom<u8> for CanTransferId {
    type Error = Refusal;

    ghost try_from_gives = { λ value r. r ≡ tried_transfer_id value };

    fn try_from(value: u8) -> Result<Self, Refusal> {
        CanTransferId(value).judged()
    }
}
