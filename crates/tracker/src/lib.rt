// The transfer-ID tracker, after lib.rs: the 128 destinations' numbers, five bits each, in a row of 640 bits, twenty words of 32.
// No public function has a `requires`.
#![tactic(auto)]

ghost use Rattle.std.specs.Prelude.{◌≡◌, ◌+◌, ◌*◌, ◌<◌, ◌≤◌};
ghost use Rattle.rules.specs.Limits.{greatest_node, transfer_ids};
ghost use Rattle.rules.specs.Tracker.{fresh_numbers};
ghost use Rattle.tracker.specs.Five.{five_at, with_five};
ghost use Rattle.tracker.specs.Row.{row_of, asked};

use rules::refusal::Refusal;
use rules::types::{CanNodeId, CanTransferId, Limited};

#[repr(C)]
#[derive(Clone, Copy)]
pub struct CanTransferIdTracker {
    pub ids: [u32; 20],
}

// The tracker after asking it, and what it answered.
#[derive(Clone, Copy)]
pub struct Asked {
    pub tracker: CanTransferIdTracker,
    pub answer: Result<CanTransferId, Refusal>,
}

impl CanTransferIdTracker {
    // A tracker that gives 0 to each destination first.
    #[tactic(auto, unfolding(laws::specs::Digits::value_of, laws::specs::Digits::digits_of, crate::specs::Row::row_of))]
    pub fn new() -> Self
        ensures { result ≡ row_of fresh_numbers }
    {
        CanTransferIdTracker { ids: [0; 20] }
    }

    // Gives the destination's number and steps it by one modulo 32. Refuses a destination over the greatest node by 12; the tracker is then unchanged.
    pub fn next_transfer_id(self, destination: CanNodeId) -> Asked
        ensures { result ≡ asked self destination.0 }
    {
        match destination.judged() {
            Ok(node) => Place::of(node).ask(self),
            Err(refusal) => Asked {
                tracker: self,
                answer: Err(refusal),
            },
        }
    }
}

// Where a destination's five bits begin in the row: at this bit of this word. They are shifted and masked by hand, as document 01 has the row in words of 32 bits.
#[derive(Clone, Copy)]
struct Place {
    node: CanNodeId,
    at: usize,
    shift: u32,
    ghost known: { node.0 ≤ greatest_node },
    ghost within: { shift < 32 },
    ghost begins: { 5 * node.0 ≡ 32 * at + shift },
}

impl Place {
    fn of(node: CanNodeId) -> Self
        requires { node.0 ≤ greatest_node }
        ensures { result.node ≡ node }
    {
        let bit = (node.0 as u32) * 5;
        let at = (bit >> 5) as usize;
        let shift = bit & 31;
        Place { node, at, shift }
    }

    // Asks for the node. Its five bits straddle two words where they end past the first.
    fn ask(self, tracker: CanTransferIdTracker) -> Asked
        ensures { result ≡ asked tracker self.node.0 }
    {
        let end = self.shift + 5;
        if end <= 32 {
            return self.in_one(tracker);
        }
        self.in_two(tracker)
    }

    // Where they lie in one word.
    fn in_one(self, tracker: CanTransferIdTracker) -> Asked
        requires { self.shift + 5 ≤ 32 }
        ensures { result ≡ asked tracker self.node.0 }
    {
        let at = self.at;
        let mut ids = tracker.ids;
        let word = ids[at] as u64;
        let id = self.five(word);
        let next = self.with(word, id.increment());
        ids[at] = next as u32;
        Asked {
            tracker: CanTransferIdTracker { ids },
            answer: Ok(id),
        }
    }

    // Where they straddle a word and the next.
    fn in_two(self, tracker: CanTransferIdTracker) -> Asked
        requires { 32 < self.shift + 5 }
        ensures { result ≡ asked tracker self.node.0 }
    {
        let at = self.at;
        let mut ids = tracker.ids;
        let low = ids[at] as u64;
        let high = ids[at + 1] as u64;
        let pair = (high << 32) | low;
        let id = self.five(pair);
        let next = self.with(pair, id.increment());
        ids[at] = (next & 0xffff_ffff) as u32;
        ids[at + 1] = (next >> 32) as u32;
        Asked {
            tracker: CanTransferIdTracker { ids },
            answer: Ok(id),
        }
    }

    // The number in these five bits of a window that begins with the word.
    fn five(self, window: u64) -> CanTransferId
        ensures { result ≡ record { 0 = five_at window self.shift } }
    {
        let mask = CanTransferId::MAX as u64;
        let five = ((window >> self.shift) & mask) as u8;
        CanTransferId(five)
    }

    // The window with another number in these five bits: what is above them, the number, what is below them.
    #[tactic(auto, using(crate::proofs::Five::put64))]
    fn with(self, window: u64, id: CanTransferId) -> u64
        requires { id.0 < transfer_ids }
        ensures { result ≡ with_five window self.shift id.0 }
    {
        let ones = CanTransferId::MAX as u64;
        (window & !(ones << self.shift)) | ((id.0 as u64) << self.shift)
    }
}
