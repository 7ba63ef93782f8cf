// The queue and the sender above it.
use crate::record::{Answer, Record};
use crate::{header, payload};
use queue::{ArrayQueue, Held, PLACE, Place, Pushed};
use rules::frame::Marks;
use rules::send::Transfer;
use rules::types::CanTransferId;
use tx::CanTransmitter;

// A queue, the places that it is lent with each call, and the sender. A method answers whether the answer of its call is the original's.
#[derive(Drop)]
pub(crate) struct Line {
    queue: ArrayQueue,
    places: [Place; 256],
    transmitter: CanTransmitter,
}

impl Line {
    pub fn new() -> Self {
        Line {
            queue: ArrayQueue {
                head: 0,
                length: 0,
                capacity: 0,
            },
            places: [[0; PLACE]; 256],
            transmitter: CanTransmitter::new(8),
        }
    }

    pub fn renew(&mut self, record: &Record) -> bool {
        let [capacity, mtu, ..] = record.words;
        let Ok(queue) = ArrayQueue::new(capacity as usize) else {
            return false;
        };
        self.queue = queue;
        self.transmitter = CanTransmitter::new(mtu as usize);
        record.tells(Answer::Done)
    }

    fn len(&self) -> usize {
        self.queue.len(&self.places)
    }

    fn is_placed(&mut self, pushed: Pushed, record: &Record) -> bool {
        self.queue = pushed.queue;
        record.tells_queued(pushed.answer.into(), self.len())
    }

    pub fn push(&mut self, record: &Record) -> bool {
        let pushed = self
            .queue
            .push_frame(&mut self.places, record.marks(), record.frame());
        self.is_placed(pushed, record)
    }

    pub fn put_back(&mut self, record: &Record) -> bool {
        let pushed = self
            .queue
            .return_frame(&mut self.places, record.marks(), record.frame());
        self.is_placed(pushed, record)
    }

    pub fn peek(&self, record: &Record) -> bool {
        let held = self.queue.peek_frame(&self.places);
        is_shown(held, record, self.len())
    }

    pub fn pop(&mut self, record: &Record) -> bool {
        let popped = self.queue.pop_frame(&self.places);
        self.queue = popped.queue;
        is_shown(popped.held, record, self.len())
    }

    pub fn reserve(&self, record: &Record) -> bool {
        let frames = record.words[0] as usize;
        record.tells(self.queue.try_reserve(&self.places, frames).into())
    }

    pub fn set_mtu(&mut self, record: &Record) -> bool {
        self.transmitter = self.transmitter.set_mtu(record.words[0] as usize);
        record.tells(Answer::Done)
    }

    pub fn send(&mut self, record: &Record) -> bool {
        let [length, seed] = halves(record.words[3]);
        let bytes = payload::of(seed);
        let payload = bytes.get(..length as usize).unwrap_or(&bytes);
        let sent = self
            .transmitter
            .push(self.queue, &mut self.places, transfer(record), payload);
        self.queue = sent.queue;
        self.transmitter = sent.transmitter;
        record.tells_queued(sent.answer.into(), self.len()) && self.is_counted(record)
    }

    fn is_counted(&self, record: &Record) -> bool {
        let [.., done, refused] = record.words;
        self.transmitter.transfer_count() == u64::from(done)
            && self.transmitter.error_count() == u64::from(refused)
    }
}

// The lower half of a word, and the upper.
fn halves(word: u32) -> [u16; 2] {
    let [a, b, c, d] = word.to_le_bytes();
    [u16::from_le_bytes([a, b]), u16::from_le_bytes([c, d])]
}

fn transfer(record: &Record) -> Transfer {
    let [stamp, word, port, ..] = record.words;
    let [low, high, id, _] = port.to_le_bytes();
    Transfer {
        header: header::made(word, u16::from_le_bytes([low, high])),
        transfer_id: CanTransferId(id),
        stamp,
        loopback: record.flag,
    }
}

// Whether a frame that was shown is the record's; none is all zeros.
fn is_shown(held: Option<Held>, record: &Record, queued: usize) -> bool {
    let none = Held {
        marks: Marks {
            stamp: 0,
            id: 0,
            loopback: false,
        },
        length: 0,
        bytes: [0; 64],
    };
    let (answer, frame) = match held {
        Some(frame) => (Answer::Done, frame),
        None => (Answer::Nothing, none),
    };
    record.tells_queued(answer, queued) && is_frame(frame, record)
}

fn is_frame(held: Held, record: &Record) -> bool {
    held.marks == record.marks() && held.length == record.length && held.bytes == record.data
}
