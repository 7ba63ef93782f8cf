// The layout of a place, which is this crate's alone: the ID in bytes 0 to 3 and the stamp in bytes 4 to 7, low byte first; byte 8 is 1 for a loopback;
// byte 9 is the number of the frame's bytes, which stand from byte 12 on.
ghost use Rattle.std.specs.Prelude.{◌≡◌, cond, [], ◌++◌, ◌≤◌, ◌<◌, min, length, get_or, drop};
ghost use Rattle.laws.specs.Laid.{laid};
ghost use Rattle.rules.specs.Limits.{greatest_frame};
ghost use Rattle.rules.specs.Frames.{frame};
ghost use Rattle.rules.specs.Transfer.{tailed};
ghost use Rattle.queue.specs.Place.{head_length, head_of, frame_of, held};

use crate::{Held, Place};
use rules::data::FRAME_CAPACITY;
use rules::frame::Marks;

// The number of bytes in front of those of the frame.
const HEAD: usize = 12;

// The ID of a place's frame.
pub(crate) fn id_of(place: &Place) -> u32
    ensures { result ≡ (frame_of place.now).id }
{
    u32::from_le_bytes([place[0], place[1], place[2], place[3]])
}

// The stamp of a place's frame.
fn stamp_of(place: &Place) -> u32
    ensures { result ≡ (frame_of place.now).stamp }
{
    u32::from_le_bytes([place[4], place[5], place[6], place[7]])
}

// Writes all but the frame's bytes.
fn write_head(place: &mut Place, marks: Marks, count: u8)
    ensures { place.new ≡ head_of marks count ++ drop head_length place.old }
{
    place[..4].copy_from_slice(&marks.id.to_le_bytes());
    place[4..8].copy_from_slice(&marks.stamp.to_le_bytes());
    // These four by single stores: for a third copy the compiler tests for an overlap, and `begin` then has 42 instructions in the place of 24.
    place[8] = u8::from(marks.loopback);
    place[9] = count;
    place[10] = 0;
    place[11] = 0;
}

// Writes the head of a frame with so many bytes, and the first of them.
fn begin(place: &mut Place, marks: Marks, count: u8, bytes: &[u8])
    ensures { place.new ≡ head_of marks count ++ laid bytes.now (drop head_length place.old) }
{
    write_head(place, marks, count);
    blocks::copy(bytes, &mut place[HEAD..]);
}

// Writes the frame into the place.
pub(crate) fn fill(place: &mut Place, marks: Marks, bytes: &[u8])
    requires { length bytes.now ≤ greatest_frame }
    ensures { frame_of place.new ≡ frame marks bytes.now }
{
    begin(place, marks, bytes.len() as u8, bytes);
}

// Writes the frame of a part and its tail byte into the place.
pub(crate) fn fill_tailed(place: &mut Place, marks: Marks, part: &[u8], tail: u8)
    requires { length part.now < greatest_frame }
    ensures { frame_of place.new ≡ frame marks (tailed part.now tail) }
{
    let n = part.len();
    begin(place, marks, (n + 1) as u8, part);
    place[HEAD + n] = tail;
}

// The frame of a place; behind its bytes are zeros. No place says more bytes than a frame can have. The marks are read before the copy, which is faster.
pub(crate) fn held(place: &Place) -> Held
    ensures { result ≡ held (frame_of place.now) }
{
    let marks = Marks {
        stamp: stamp_of(place),
        id: id_of(place),
        loopback: place[8] != 0,
    };
    let length = usize::from(place[9]).min(FRAME_CAPACITY);
    let mut bytes = [0u8; FRAME_CAPACITY];
    blocks::copy(&place[HEAD..HEAD + length], &mut bytes);
    Held {
        marks,
        length,
        bytes,
    }
}
