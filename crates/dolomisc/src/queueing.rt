// The queue's doors.
ghost use Rattle.std.specs.Prelude.{◌≡◌, eqb, length};
ghost use Rattle.rules.specs.Frames.{frame};
ghost use Rattle.rules.specs.Queue.{pushed, returned, first, room_for};
ghost use Rattle.queue.specs.Place.{held_of};
ghost use Rattle.queue.specs.Queue.{made, contents, free, capacity_of};
ghost use Rattle.dolomisc.specs.Flat.{marks_from, told};
ghost use Rattle.dolomisc.specs.Doors.{queue_made, held_told, PlacedThrough, PoppedThrough};

use crate::answers::{self, Answer};
use crate::headers::FlatMarks;
use queue::{ArrayQueue, Held, Place};
use rules::data::FRAME_CAPACITY;

// A frame that was found, its bytes the first `length`; or none, and then every field but `what` is zero.
#[repr(C)]
#[derive(Clone, Copy)]
pub struct Frame {
    pub length: usize,
    pub marks: FlatMarks,
    pub what: u8,
    pub bytes: [u8; FRAME_CAPACITY],
}

// As ArrayQueue::new. After a refusal the queue is as it was.
#[unsafe(no_mangle)]
pub extern "C" fn dolomisc_queue_new(queue: &mut ArrayQueue, capacity: usize) -> Answer
    ensures value { result ≡ told (made capacity) }
    ensures queue_after { queue.new ≡ queue_made (made capacity) queue.old }
{
    let made = ArrayQueue::new(capacity);
    if let Ok(fresh) = made {
        *queue = fresh;
    }
    made.into()
}

// As ArrayQueue::len.
#[unsafe(no_mangle)]
pub extern "C" fn dolomisc_queue_len(queue: &ArrayQueue, places: &[Place]) -> usize
    ensures { result ≡ length (contents queue.now places.now) }
{
    queue.len(places)
}

// As ArrayQueue::is_empty.
#[unsafe(no_mangle)]
pub extern "C" fn dolomisc_queue_is_empty(queue: &ArrayQueue, places: &[Place]) -> bool
    ensures { result ≡ eqb (length (contents queue.now places.now)) 0 }
{
    queue.is_empty(places)
}

// As ArrayQueue::capacity.
#[unsafe(no_mangle)]
pub extern "C" fn dolomisc_queue_capacity(queue: &ArrayQueue) -> usize
    ensures { result ≡ capacity_of queue.now }
{
    queue.capacity()
}

// As ArrayQueue::try_reserve.
#[unsafe(no_mangle)]
pub extern "C" fn dolomisc_queue_try_reserve(
    queue: &ArrayQueue,
    places: &[Place],
    frames: usize,
) -> Answer
    ensures { result ≡ told (room_for (free queue.now places.now) frames) }
{
    queue.try_reserve(places, frames).into()
}

// As ArrayQueue::push_frame.
#[unsafe(no_mangle)]
pub extern "C" fn dolomisc_queue_push_frame(
    queue: &mut ArrayQueue,
    places: &mut [Place],
    marks: FlatMarks,
    bytes: &[u8],
) -> Answer
    ensures { PlacedThrough pushed queue.old places.old (frame (marks_from marks) bytes.now) result queue.new places.new }
{
    let pushed = queue.push_frame(places, marks.into(), bytes);
    *queue = pushed.queue;
    pushed.answer.into()
}

// As ArrayQueue::return_frame.
#[unsafe(no_mangle)]
pub extern "C" fn dolomisc_queue_return_frame(
    queue: &mut ArrayQueue,
    places: &mut [Place],
    marks: FlatMarks,
    bytes: &[u8],
) -> Answer
    ensures { PlacedThrough returned queue.old places.old (frame (marks_from marks) bytes.now) result queue.new places.new }
{
    let returned = queue.return_frame(places, marks.into(), bytes);
    *queue = returned.queue;
    returned.answer.into()
}

// As ArrayQueue::peek_frame.
#[unsafe(no_mangle)]
pub extern "C" fn dolomisc_queue_peek_frame(queue: &ArrayQueue, places: &[Place]) -> Frame
    ensures { result ≡ held_told (held_of (first (contents queue.now places.now))) }
{
    queue.peek_frame(places).into()
}

// As ArrayQueue::pop_frame.
#[unsafe(no_mangle)]
pub extern "C" fn dolomisc_queue_pop_frame(queue: &mut ArrayQueue, places: &[Place]) -> Frame
    ensures { PoppedThrough queue.old places.now result queue.new }
{
    let popped = queue.pop_frame(places);
    *queue = popped.queue;
    popped.held.into()
}

impl From<Option<Held>> for Frame {
    ghost from_gives = { λ held frame. frame ≡ held_told held };

    fn from(held: Option<Held>) -> Frame {
        match held {
            Some(found) => {
                let bytes = found.bytes;
                Frame {
                    length: found.length,
                    marks: found.marks.into(),
                    what: answers::DONE,
                    bytes,
                }
            }
            None => Frame {
                length: 0,
                marks: FlatMarks::default(),
                what: answers::NOTHING,
                bytes: [0; FRAME_CAPACITY],
            },
        }
    }
}
