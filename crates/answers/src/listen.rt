// The subscription.
use crate::header::Kind;
use crate::record::{Answer, Record};
use crate::{header, payload};
use rules::receive::{Delivery, Received};
use rules::refusal::Refusal;
use rules::subscription::{Port, ServicePort, Settings};
use rules::types::{CanNodeId, ServiceId, SubjectId};
use rx::subscription::Subscription;
use slots::Slots;

// A subscription, and the slots and the store that it is lent with each call: 1,024 bytes for each of 128 sources are enough for any extent. A method answers
// whether the answer of its call is the original's.
#[derive(Drop)]
pub(crate) struct Listener {
    subscription: Subscription,
    slots: Slots,
    store: [u8; 131072],
}

impl Listener {
    pub fn new() -> Self {
        Listener {
            subscription: Subscription {
                settings: Settings {
                    port: Port::Message(SubjectId(0)),
                    timeout: 0,
                    extent: 0,
                },
            },
            slots: [[0; 4]; 128],
            store: [0; 131072],
        }
    }

    pub fn subscribe(&mut self, record: &Record) -> bool {
        let [timeout, word, extent, ..] = record.words;
        match Subscription::new(port(word), timeout, extent as usize, &mut self.slots) {
            Ok(subscription) => {
                self.subscription = subscription;
                record.tells(Answer::Done)
            }
            Err(_) => false,
        }
    }

    pub fn accept(&mut self, record: &Record) -> bool {
        let frame = record.frame();
        let answer = self
            .subscription
            .accept(&mut self.slots, &mut self.store, record.marks(), frame);
        is_answer(answer, rx::payload(answer, frame, &self.store), record)
    }
}

// The port of a word.
fn port(word: u32) -> Port {
    let [kind, node, low, high] = word.to_le_bytes();
    let number = u16::from_le_bytes([low, high]);
    let service = ServicePort {
        service: ServiceId(number),
        node: CanNodeId(node),
    };
    match Kind::from(kind) {
        Kind::Message => Port::Message(SubjectId(number)),
        Kind::Request => Port::Request(service),
        Kind::Response => Port::Response(service),
    }
}

fn is_answer(answer: Result<Received, Refusal>, bytes: &[u8], record: &Record) -> bool {
    match answer {
        Ok(Received::Delivered(delivery)) => {
            record.tells(Answer::Delivered) && is_delivered(delivery, bytes, record)
        }
        Ok(Received::Nothing) => record.tells(Answer::Nothing),
        Ok(Received::NotOurs) => record.tells(Answer::NotOurs),
        Err(refusal) => record.tells(Answer::Refused(refusal.number())),
    }
}

fn is_delivered(delivery: Delivery, bytes: &[u8], record: &Record) -> bool {
    let [_, _, word, port, stamp, length, mix] = record.words;
    header::word(delivery.header) == word
        && port_word(delivery) == port
        && delivery.stamp == stamp
        && bytes.len() == length as usize
        && payload::mix(bytes) == mix
}

// Port, ID and flag of a delivery as a word.
fn port_word(delivery: Delivery) -> u32 {
    let [low, high] = header::port(delivery.header).to_le_bytes();
    u32::from_le_bytes([low, high, delivery.transfer_id.0, delivery.loopback as u8])
}
