// The short way of the commonest frame: one in the middle of a transfer, which its source's session awaits and which fits the part whole. It is told and taken with no
// header, arrival or slot made of it. What it leaves is what the long way would.
ghost use Rattle.std.specs.Prelude.{◌≡◌, ◌+◌, ◌<◌, false, length, if◌then◌else◌, nat_le};
ghost use Rattle.rules.specs.declared.receive.Arrival.{Arrival};
ghost use Rattle.rules.specs.Limits.{nodes, greatest_frame};
ghost use Rattle.rules.specs.CanId.{parsed_can_id};
ghost use Rattle.rules.specs.Session.{stored};
ghost use Rattle.rules.specs.Answers.{nothing};
ghost use Rattle.wire.specs.Addressed.{comes_to};

use crate::subscription;
use crate::subscription::{Heard, Lent};
use rules::data::FRAME_CAPACITY;
use rules::subscription::Port;
use rules::tail::TailByte;
use rules::types::CanNodeId;
use slots::Progress;

impl Lent<'_> {
    ghost use Rattle.rx.specs.Lent.{frame_of, Stays, closing, due, due_from};

    // Takes the frame and answers nothing, as the long way does, or leaves all as it is and says so.
    pub(crate) fn joined(&mut self, heard: Heard<'_>) -> bool
        ensures stays { Stays self.old self.new }
        ensures left { closing nothing self.new ≡ (if result then due self.old (frame_of heard.entry) else closing nothing self.old) }
    {
        let Heard { marks, bytes } = heard;
        let len = bytes.len();
        if len == 0 {
            return false;
        }
        if FRAME_CAPACITY < len {
            return false;
        }
        let before = len - 1;
        let last = bytes[before];
        let tail = wire::rx::parse_tail_byte(last);
        if tail.start {
            return false;
        }
        if tail.end {
            return false;
        }
        let port = self.settings.port;
        if !comes_to(port, marks.id) {
            return false;
        }
        let node = CanNodeId::from_truncating((marks.id % 256) as u8);
        self.lay(node, tail, marks.loopback, &bytes[..before])
    }

    // A frame of this source, with this tail byte and loopback flag, whatever else its arrival says.
    fn lay(&mut self, node: CanNodeId, tail: TailByte, loopback: bool, bytes: &[u8]) -> bool
        requires { (node.0 < nodes) × (tail.start ≡ false) × (tail.end ≡ false) × (length bytes.now < greatest_frame) }
        ensures stays { Stays self.old self.new }
        ensures left { (a : Arrival) → a.tail ≡ tail → a.loopback ≡ loopback → closing nothing self.new ≡ (if result then due_from self.old node.0 a bytes.now else closing nothing self.old) }
    {
        // Each loan by itself, as in the long way: a part of the store is lent on while the slots are in use.
        let slots = &mut *self.slots;
        let store = &mut *self.store;
        if !slots::awaits(slots, node, tail, loopback) {
            return false;
        }
        let extent = self.settings.extent as usize;
        let start = subscription::start_of(node, self.settings.extent);
        let end = start + extent;
        let so_far = slots::so_far(slots, node);
        let total = so_far.total;
        if !into(&mut store[start..end], total as usize, bytes) {
            return false;
        }
        let crc = crc::digest_seven(so_far.crc, bytes);
        let further = total + bytes.len() as u32;
        slots::advance(
            slots,
            node,
            Progress {
                crc,
                total: further,
            },
        );
        true
    }
}

// Whether a CAN ID speaks to this port, from a source that is named.
fn comes_to(port: Port, id: u32) -> bool
    ensures { result ≡ comes_to port (parsed_can_id id) }
{
    match port {
        Port::Message(subject) => wire::rx::is_message_to(id, subject),
        Port::Request(asked) => wire::rx::is_service_to(id, true, asked.service, asked.node),
        Port::Response(asked) => wire::rx::is_service_to(id, false, asked.service, asked.node),
    }
}

// Lays the bytes behind the total that the part has; none where the part does not take them all. Says whether it did.
#[tactic(auto, using(session::proofs::Parts::lent_rest))]
fn into(part: &mut [u8], total: usize, bytes: &[u8]) -> bool
    ensures taken { result ≡ nat_le (total + length bytes.now) (length part.old) }
    ensures part_after { part.new ≡ (if result then stored total bytes.now part.old else part.old) }
{
    let end = part.len();
    if end < total {
        return false;
    }
    let room = end - total;
    if room < bytes.len() {
        return false;
    }
    blocks::copy_seven(bytes, &mut part[total..end]);
    true
}
