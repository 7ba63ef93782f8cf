// The frames of a transfer, put into a queue that has places for them. Parts of the payload go straight from where the last frame stopped.
ghost use Rattle.std.specs.Prelude.{◌≡◌, ◌+◌, ◌-◌, ◌<◌, ◌≤◌, true, [], ◌∷◌, length};
ghost use Rattle.rules.specs.Limits.{greatest_can_id, room_of};
ghost use Rattle.rules.specs.Crc.{crc_start};
ghost use Rattle.rules.specs.TailByte.{tail_byte};
ghost use Rattle.rules.specs.Plan.{stats_of};
ghost use Rattle.rules.specs.Transfer.{padded, with_crc, tailed, cut, frames_of};
ghost use Rattle.queue.specs.Queue.{free};
ghost use Rattle.tx.specs.Fits.{Last, Several, over};
ghost use Rattle.tx.specs.Send.{Puts};

use crate::breakdown;
use queue::{ArrayQueue, Place};
use rules::frame::Marks;
use rules::send::Outgoing;
use rules::tail::TailByte;
use rules::types::CanTransferId;

// All frames of a transfer that goes out.
pub(crate) fn transfer(
    queue: ArrayQueue,
    places: &mut [Place],
    marks: Marks,
    id: CanTransferId,
    outgoing: Outgoing,
    payload: &[u8],
) -> ArrayQueue
    requires { (outgoing.stats ≡ stats_of outgoing.mtu (length payload.now)) × (marks.id ≤ greatest_can_id) × (outgoing.stats.frames ≤ free queue places.old) }
    ensures { Puts marks (frames_of outgoing.mtu id.0 payload.now) queue places.old result places.new }
{
    let labels = Labels { marks };
    if payload.len() < outgoing.mtu.as_bytes() {
        return labels.alone(
            queue,
            places,
            id,
            outgoing.stats.last_frame_padding,
            payload,
        );
    }
    labels.several(queue, places, id, outgoing, payload)
}

// The marks that each frame of a transfer bears. Queue and places stay beside them: in one struct that is lent, each promise would have to keep the marks.
#[derive(Clone, Copy)]
struct Labels {
    marks: Marks,
    ghost known: { marks.id ≤ greatest_can_id },
}

impl Labels {
    // A transfer of one frame.
    fn alone(
        self,
        queue: ArrayQueue,
        places: &mut [Place],
        id: CanTransferId,
        padding: usize,
        payload: &[u8],
    ) -> ArrayQueue
        requires { (length payload.now + padding ≤ 63) × (0 < free queue places.old) }
        ensures { Puts self.marks (tailed (padded padding payload.now) (tail_byte true true true id.0) ∷ []) queue places.old result places.new }
    {
        let n = payload.len() + padding;
        let mut rest = [0u8; 64];
        blocks::copy(payload, &mut rest);
        let tail = TailByte {
            start: true,
            end: true,
            toggle: true,
            transfer_id: id,
        };
        self.one(queue, places, &rest[..n], tail)
    }

    // A transfer of several frames: those that are full of payload, then the rest. The CRC goes over the payload at once: long runs are cheaper than parts.
    fn several(
        self,
        queue: ArrayQueue,
        places: &mut [Place],
        id: CanTransferId,
        outgoing: Outgoing,
        payload: &[u8],
    ) -> ArrayQueue
        requires { Several (room_of outgoing.mtu) outgoing.stats.frames outgoing.stats.last_frame_padding (length payload.now) × (outgoing.stats.frames ≤ free queue places.old) }
        ensures { Puts self.marks (cut (room_of outgoing.mtu) id.0 true true (outgoing.stats.frames - 1) (with_crc crc_start (padded outgoing.stats.last_frame_padding payload.now))) queue places.old result places.new }
    {
        let room = outgoing.mtu.as_bytes() - 1;
        let padding = outgoing.stats.last_frame_padding;
        let crc = crc::digest_bytes(crc::INITIAL, payload);
        let mut q = queue;
        let mut left = payload;
        let mut tail = TailByte {
            start: true,
            end: false,
            toggle: true,
            transfer_id: id,
        };
        // Not `chunks_exact`: its remainder takes a division.
        while let Some((part, behind)) = left.split_at_checked(room) {
            q = self.one(q, places, part, tail);
            left = behind;
            tail.start = false;
            tail.toggle = !tail.toggle;
        }
        let n = left.len() + padding + 2;
        let mut rest = [0u8; 128];
        breakdown::close(&mut rest, crc, padding, left);
        self.last(q, places, room, tail, &rest[..n])
    }

    // The last frame, or the last two.
    fn last(
        self,
        queue: ArrayQueue,
        places: &mut [Place],
        room: usize,
        tail: TailByte,
        rest: &[u8],
    ) -> ArrayQueue
        requires { Last room (over room (length rest.now)) (length rest.now) × (over room (length rest.now) < free queue places.old) }
        ensures { Puts self.marks (cut room tail.transfer_id.0 tail.start tail.toggle (over room (length rest.now)) rest.now) queue places.old result places.new }
    {
        if rest.len() <= room {
            return self.one(queue, places, rest, TailByte { end: true, ..tail });
        }
        let (part, behind) = rest.split_at(room);
        let q = self.one(queue, places, part, TailByte { end: false, ..tail });
        let tail = TailByte {
            start: false,
            end: true,
            toggle: !tail.toggle,
            ..tail
        };
        self.one(q, places, behind, tail)
    }

    // One frame. In line: a call for each frame of a long transfer costs more.
    #[inline(always)]
    fn one(self, queue: ArrayQueue, places: &mut [Place], part: &[u8], tail: TailByte) -> ArrayQueue
        requires { (length part.now ≤ 63) × (0 < free queue places.old) }
        ensures { Puts self.marks (tailed part.now (tail_byte tail.start tail.end tail.toggle tail.transfer_id.0) ∷ []) queue places.old result places.new }
    {
        let tail = wire::breakdown::make_tail_byte(
            tail.start,
            tail.end,
            tail.toggle,
            tail.transfer_id,
        );
        queue.push_tailed(places, self.marks, part, tail).queue
    }
}
