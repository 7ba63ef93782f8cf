// A queue of CAN frames, smallest ID first, after queue/array_queue.rs: a ring in places that the caller lends with each call. A state whose head is outside
// the ring, that has more queued than its capacity, a capacity over the limit or fewer places lent than its capacity has nothing queued and no free place.
// No public function has a `requires`.
#![tactic(auto)]

ghost use Rattle.std.specs.Prelude.{◌≡◌, List, ℕ, ◌<◌, eqb, length};
ghost use Rattle.rules.specs.Limits.{greatest_capacity};
ghost use Rattle.rules.specs.Frames.{frame};
ghost use Rattle.rules.specs.Transfer.{tailed};
ghost use Rattle.rules.specs.Queue.{pushed, returned, first, room_for, placed};
ghost use Rattle.queue.specs.Place.{held_of};
ghost use Rattle.queue.specs.Ring.{one_back};
ghost use Rattle.queue.specs.Queue.{sound, contents, free, capacity_of, made, grown, Opens, Places, Pops};

use ring::Ring;
use rules::data::{CAPACITY_MAX, CanId, FRAME_CAPACITY};
use rules::frame::Marks;
use rules::refusal::Refusal;

mod place;
mod ring;

// The number of bytes of a place.
pub const PLACE: usize = 76;

// What the caller lends for each frame; the layout of its bytes is this crate's alone.
pub type Place = [u8; PLACE];

// The head of the queue is at index `head` of the lent places. Other frames are at increasing indices, which wrap around at `capacity`.
#[repr(C)]
#[derive(Clone, Copy)]
pub struct ArrayQueue {
    pub head: usize,
    // the number of frames in the queue
    pub length: usize,
    pub capacity: usize,
}

// The queue after a frame was to be placed, and the answer.
#[derive(Clone, Copy)]
pub struct Pushed {
    pub queue: ArrayQueue,
    pub answer: Result<(), Refusal>,
}

// A frame that is handed out, its bytes the first `length`; behind them are zeros.
#[derive(Clone, Copy)]
pub struct Held {
    pub marks: Marks,
    pub length: usize,
    pub bytes: [u8; FRAME_CAPACITY],
}

// The queue after its first frame left, and that frame, if there was one.
#[derive(Clone, Copy)]
pub struct Popped {
    pub queue: ArrayQueue,
    pub held: Option<Held>,
}

impl ArrayQueue {
    // An empty queue for so many frames. Refuses a capacity over its limit by 14.
    #[tactic(auto, using(crate::specs::Queue::fresh_is))]
    pub fn new(capacity: usize) -> Result<ArrayQueue, Refusal>
        ensures { result ≡ made capacity }
    {
        if CAPACITY_MAX < capacity {
            return Err(Refusal::CapacityTooLarge);
        }
        Ok(ArrayQueue {
            head: 0,
            length: 0,
            capacity,
        })
    }

    // The number of frames in the queue.
    #[tactic(auto, using(crate::proofs::State::contents_length, crate::proofs::State::contents_none))]
    pub fn len(self, places: &[Place]) -> usize
        ensures { result ≡ length (contents self places.now) }
    {
        if self.is_sound(places.len()) {
            return self.length;
        }
        0
    }

    // Whether there is no frame in the queue.
    pub fn is_empty(self, places: &[Place]) -> bool
        ensures { result ≡ eqb (length (contents self places.now)) 0 }
    {
        self.len(places) == 0
    }

    // The greatest number of frames that the queue can hold.
    #[tactic(auto, using(crate::specs::Queue::capacity_is))]
    pub fn capacity(self) -> usize
        ensures { result ≡ capacity_of self }
    {
        self.capacity
    }

    // Whether so many frames find a place. Refuses by 13.
    pub fn try_reserve(self, places: &[Place], frames: usize) -> Result<(), Refusal>
        ensures { result ≡ room_for (free self places.now) frames }
    {
        let room = self.free(places);
        if room < frames {
            return Err(Refusal::NoPlace);
        }
        Ok(())
    }

    // Puts the frame behind its equals. Refuses by 3, 1, 13; the queue and the lent places are then unchanged.
    pub fn push_frame(self, places: &mut [Place], marks: Marks, bytes: &[u8]) -> Pushed
        ensures { Places pushed self places.old (frame marks bytes.now) result places.new }
    {
        if let Err(refusal) = self.judge(places, marks, bytes.len()) {
            return self.refused(refusal);
        }
        let p = self.open_behind(places, marks.id);
        place::fill(&mut places[p], marks, bytes);
        self.placed(self.head)
    }

    // As push_frame, for a frame in two pieces: a part of a transfer, and the tail byte behind it.
    pub fn push_tailed(self, places: &mut [Place], marks: Marks, part: &[u8], tail: u8) -> Pushed
        ensures { Places pushed self places.old (frame marks (tailed part.now tail)) result places.new }
    {
        if let Err(refusal) = self.judge(places, marks, part.len() + 1) {
            return self.refused(refusal);
        }
        let p = self.open_behind(places, marks.id);
        place::fill_tailed(&mut places[p], marks, part, tail);
        self.placed(self.head)
    }

    // The frame that leaves next; none of an empty queue.
    #[tactic(auto, using(crate::proofs::State::with_frames, crate::proofs::Popping::at_head))]
    pub fn peek_frame(self, places: &[Place]) -> Option<Held>
        ensures { result ≡ held_of (first (contents self places.now)) }
    {
        if self.is_empty(places) {
            return None;
        }
        Some(place::held(&places[self.head]))
    }

    // Takes the frame that leaves next out of the queue; its place is free at once. An empty queue is unchanged.
    #[tactic(auto, using(crate::proofs::Popping::found_queued))]
    pub fn pop_frame(self, places: &[Place]) -> Popped
        ensures { Pops self places.now result }
    {
        let held = self.peek_frame(places);
        if held.is_none() {
            return Popped { queue: self, held };
        }
        let head = self.head;
        let cap = self.capacity;
        let ring = Ring { head, cap };
        let next = ring.slot(1);
        let left = self.length - 1;
        Popped {
            queue: ArrayQueue {
                head: next,
                length: left,
                ..self
            },
            held,
        }
    }

    // Puts the frame in front of its equals. Refuses by 3, 1, 13; the queue and the lent places are then unchanged.
    pub fn return_frame(self, places: &mut [Place], marks: Marks, bytes: &[u8]) -> Pushed
        ensures { Places returned self places.old (frame marks bytes.now) result places.new }
    {
        if let Err(refusal) = self.judge(places, marks, bytes.len()) {
            return self.refused(refusal);
        }
        let ring = Ring {
            head: self.head,
            cap: self.capacity,
        };
        let front = ring.before(self.head);
        let p = self.open_before(places, front, marks.id);
        place::fill(&mut places[p], marks, bytes);
        self.placed(front)
    }

    // Whether the state is one that calls here leave, and comes with its places.
    fn is_sound(self, places: usize) -> bool
        ensures { result ≡ sound self places }
    {
        if self.capacity <= self.head {
            return false;
        }
        if self.capacity < self.length {
            return false;
        }
        if CAPACITY_MAX < self.capacity {
            return false;
        }
        if places < self.capacity {
            return false;
        }
        true
    }

    // The number of free places.
    #[tactic(auto, using(crate::proofs::State::free_of, crate::proofs::State::free_none))]
    fn free(self, places: &[Place]) -> usize
        ensures { result ≡ free self places.now }
    {
        if self.is_sound(places.len()) {
            return self.capacity - self.length;
        }
        0
    }

    // Whether a frame with so many bytes is placed: refusals 3, 1, 13 in this order.
    fn judge(self, places: &[Place], marks: Marks, count: usize) -> Result<(), Refusal>
        ensures { (bytes : List ℕ) → length bytes ≡ count → result ≡ placed (free self places.now) (frame marks bytes) }
    {
        if FRAME_CAPACITY < count {
            return Err(Refusal::FrameTooLong);
        }
        CanId::try_from(marks.id)?;
        self.try_reserve(places, 1)
    }

    // Makes a place free behind the frames whose ID is not above this one, and returns its index.
    fn open_behind(self, places: &mut [Place], id: u32) -> usize
        requires { 0 < free self places.old }
        ensures { Opens pushed self self.head id places.old places.new result }
    {
        let head = self.head;
        let cap = self.capacity;
        let n = self.length;
        let ring = Ring { head, cap };
        let j = ring.make_room(places, n, id);
        ring.slot(j)
    }

    // Makes a place free in front of the frames whose ID is not below this one, in a ring that starts one place back, and returns its index.
    fn open_before(self, places: &mut [Place], head: usize, id: u32) -> usize
        requires { (0 < free self places.old) × (head ≡ one_back self.head self.capacity) }
        ensures { Opens returned self head id places.old places.new result }
    {
        let cap = self.capacity;
        let n = self.length;
        let ring = Ring { head, cap };
        let j = ring.draw_up(places, n, id);
        ring.slot(j)
    }

    // One more frame, in a ring that starts at head.
    fn placed(self, head: usize) -> Pushed
        requires { self.length < greatest_capacity }
        ensures { result ≡ record { queue = grown self head; answer = Ok tt } }
    {
        let queue = ArrayQueue {
            head,
            length: self.length + 1,
            ..self
        };
        Pushed {
            queue,
            answer: Ok(()),
        }
    }

    // No frame was placed.
    fn refused(self, refusal: Refusal) -> Pushed
        ensures { result ≡ record { queue = self; answer = Err refusal } }
    {
        Pushed {
            queue: self,
            answer: Err(refusal),
        }
    }
}
