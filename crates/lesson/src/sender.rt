// A node that sends: its queue, and the places that the queue is lent with each call.
use queue::{ArrayQueue, Held, PLACE, Place};
use rules::header::{Header, MessageHeader};
use rules::refusal::Refusal;
use rules::send::Transfer;
use rules::types::{CanNodeId, CanTransferId, Priority, SubjectId};
use tx::CanTransmitter;

#[derive(Drop)]
pub(crate) struct Sender {
    queue: ArrayQueue,
    places: [Place; 16],
}

impl Sender {
    pub fn new() -> Self {
        let none = ArrayQueue {
            head: 0,
            length: 0,
            capacity: 0,
        };
        Sender {
            queue: ArrayQueue::new(16).unwrap_or(none),
            places: [[0; PLACE]; 16],
        }
    }

    // Puts the frames of a message into the queue.
    pub fn send(
        &mut self,
        mtu: usize,
        header: Header,
        id: u8,
        payload: &[u8],
    ) -> Result<(), Refusal> {
        let transfer = Transfer {
            header,
            transfer_id: CanTransferId(id),
            stamp: 0,
            loopback: false,
        };
        let transmitter = CanTransmitter::new(mtu);
        let sent = transmitter.push(self.queue, &mut self.places, transfer, payload);
        self.queue = sent.queue;
        sent.answer
    }

    // The frame that leaves next, if there is one.
    pub fn pop(&mut self) -> Option<Held> {
        let popped = self.queue.pop_frame(&self.places);
        self.queue = popped.queue;
        popped.held
    }
}

fn message(priority: u8, subject: u16, node: u8) -> Header {
    Header::Message(MessageHeader {
        priority: Priority(priority),
        subject: SubjectId(subject),
        source: Some(CanNodeId(node)),
    })
}

// A scan of a detector.
pub(crate) fn scan(node: u8) -> Header {
    message(4, 256, node)
}

// A heartbeat of the lamp.
pub(crate) fn heartbeat() -> Header {
    message(2, 7509, 7)
}
