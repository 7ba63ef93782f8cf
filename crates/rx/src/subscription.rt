// Subscriptions, after rx/subscription.rs: the transfer-ID filter and its timeout for each of 128 sources, whose slots and whose parts of the store the caller lends.
ghost use Rattle.std.specs.Prelude.{◌≡◌, ◌*◌, ◌^◌, ◌<◌, ◌≤◌, length};
ghost use Rattle.rules.specs.Limits.{nodes};
ghost use Rattle.rules.specs.Frames.{frame};
ghost use Rattle.rules.specs.Slot.{timed_out, admitted};
ghost use Rattle.rules.specs.Answers.{answer_of, answer_from, part_from};
ghost use Rattle.rules.specs.Receiver.{made, port_valid, service_valid, same_service, wants, reading, before_tail, source_in, by_source};
ghost use Rattle.rx.specs.Accept.{settings_made, words_made, Known, closes, accepted};

use rules::data::{EXTENT_MAX, FRAME_CAPACITY};
use rules::frame::Marks;
use rules::header::{Header, ServiceHeader};
use rules::receive::{Arrival, Delivery, Part, Received};
use rules::refusal::Refusal;
use rules::slots::Slot;
use rules::subscription::{Port, ServicePort, Settings};
use rules::types::{CanNodeId, CanTransferId, Limited};
use slots::Slots;

// The slots and the store are lent with each call, the same ones.
#[derive(Clone, Copy)]
pub struct Subscription {
    pub settings: Settings,
}

impl Subscription {
    // A subscription whose 128 slots have heard nothing yet. Refuses by 12, 8; the slots are then unchanged.
    #[tactic(auto, unfolding(slots::specs::Words::words_of))]
    pub fn new(
        port: Port,
        timeout: u32,
        extent: usize,
        slots: &mut Slots,
    ) -> Result<Subscription, Refusal>
        ensures subscribed { settings_made result ≡ made port timeout extent }
        ensures slots_after { slots.new ≡ words_made (made port timeout extent) slots.old }
    {
        if !port_valid(port) {
            return Err(Refusal::Field);
        }
        if extent > EXTENT_MAX as usize {
            return Err(Refusal::ExtentTooLarge);
        }
        *slots = [[0u32; 4]; 128];
        Ok(Subscription {
            settings: Settings {
                port,
                timeout,
                extent: extent as u16,
            },
        })
    }

    // Takes a received frame. Refuses by 7, 2, 3, 1, 4, and a frame of another kind, port or destination is not ours: slots and store are then unchanged, as they
    // are by a repeat. Otherwise the rules of the sender's slot decide, which write in that slot and in its part of the store alone.
    #[tactic(auto, using(crate::proofs::Judging::too_small), unfolding(crate::specs::Accept::accepted))]
    pub fn accept(
        self,
        slots: &mut Slots,
        store: &mut [u8],
        marks: Marks,
        bytes: &[u8],
    ) -> Result<Received, Refusal>
        ensures { closes (answer_of result) slots.new store.new ≡ accepted self.settings slots.old store.old (frame marks bytes.now) }
    {
        let settings = self.settings;
        if store.len() < 128 * (settings.extent as usize) {
            return Err(Refusal::StoreTooSmall);
        }
        let heard = Heard { marks, bytes };
        let mut lent = Lent {
            settings,
            slots,
            store,
        };
        if lent.joined(heard) {
            return Ok(Received::Nothing);
        }
        lent.judge(heard)
    }
}

// A received frame, as it came.
#[derive(Clone, Copy)]
pub(crate) struct Heard<'a> {
    pub(crate) marks: Marks,
    pub(crate) bytes: &'a [u8],
}

impl<'a> Heard<'a> {
    ghost use Rattle.rx.specs.Lent.{frame_of};

    // What the frame is to the subscription, whatever its slots.
    #[tactic(auto, unfolding(rules::specs::Receiver::reading))]
    fn read(self, port: Port) -> Result<Option<Arrival>, Refusal>
        ensures { result ≡ reading port (frame_of self.entry) }
    {
        let Heard { marks, bytes } = self;
        let Some(&last) = bytes.last() else {
            return Err(Refusal::NoBytes);
        };
        if FRAME_CAPACITY < bytes.len() {
            return Err(Refusal::FrameTooLong);
        }
        let header = wire::rx::parse_can_id(marks.id)?;
        if !wanted(port, header) {
            return Ok(None);
        }
        Ok(Some(Arrival {
            header,
            tail: wire::rx::parse_tail_byte(last),
            stamp: marks.stamp,
            loopback: marks.loopback,
        }))
    }

    // The frame's bytes without its tail byte, uncopied.
    fn before_tail(self) -> &'a [u8]
        ensures { result.now ≡ before_tail self.entry.bytes.now }
    {
        &self.bytes[..self.bytes.len().saturating_sub(1)]
    }
}

// What a subscription works with while it hears a frame: its settings, and the lent slots and store, which has a part for each source.
#[derive(Drop)]
pub(crate) struct Lent<'a> {
    pub(crate) settings: Settings,
    pub(crate) slots: &'a mut Slots,
    pub(crate) store: &'a mut [u8],
    ghost parts: { nodes * settings.extent ≤ length store.now },
}

impl Lent<'_> {
    ghost use Rattle.rx.specs.Lent.{frame_of, Stays, closing, due, due_from};

    // A frame of any kind.
    #[tactic(auto, using(crate::proofs::Judging::read_as, crate::proofs::Judging::ours_known), unfolding(crate::specs::Accept::accepted))]
    fn judge(&mut self, heard: Heard<'_>) -> Result<Received, Refusal>
        ensures stays { Stays self.old self.new }
        ensures left { closing (answer_of result) self.new ≡ due self.old (frame_of heard.entry) }
    {
        let Some(arrival) = heard.read(self.settings.port)? else {
            return Ok(Received::NotOurs);
        };
        self.accept_ours(arrival, heard.before_tail())
    }

    // A frame that is ours. An anonymous one is delivered uncut and touches no slot.
    fn accept_ours(&mut self, arrival: Arrival, bytes: &[u8]) -> Result<Received, Refusal>
        requires { Known (source_in arrival.header) }
        ensures stays { Stays self.old self.new }
        ensures left { closing (answer_of result) self.new ≡ by_source (source_in arrival.header) arrival bytes.now (λ answer. closing answer self.old) (due_from self.old) }
    {
        match source_in(arrival.header) {
            None => {
                let part = Part::OfFrame { len: bytes.len() };
                Ok(session::deliver(arrival, arrival.stamp, arrival.loopback, part))
            }
            Some(node) => {
                // The same node; the compiler sees from it that there is a slot, and leaves out that test.
                let own = CanNodeId::from_truncating(node.0);
                self.accept_from(own, arrival, bytes)
            }
        }
    }

    // A frame of a source that has a slot.
    #[tactic(auto, using(crate::proofs::Saved::written, crate::proofs::Parts::lent_out, crate::proofs::Parts::part_short, session::proofs::Within::within), unfolding(crate::specs::Accept::in_words))]
    fn accept_from(
        &mut self,
        node: CanNodeId,
        arrival: Arrival,
        bytes: &[u8],
    ) -> Result<Received, Refusal>
        requires { node.0 < nodes }
        ensures stays { Stays self.old self.new }
        ensures left { closing (answer_of result) self.new ≡ due_from self.old node.0 arrival bytes.now }
    {
        // Each loan by itself: a part of the store is lent on while the slots are in use.
        let slots = &mut *self.slots;
        let store = &mut *self.store;
        let transfer_id = arrival.tail.transfer_id;
        let slot = slots::load(slots, node);
        let Some(slot) = admit(self.settings.timeout, slot, transfer_id, arrival.stamp) else {
            return Ok(Received::Nothing);
        };
        let extent = self.settings.extent as usize;
        let start = start_of(node, self.settings.extent);
        let end = start + extent;
        let step = session::go_on(slot, &mut store[start..end], arrival, bytes);
        slots::save(slots, node, step.slot);
        lying_from(start, step.answer)
    }
}

fn port_valid(port: Port) -> bool
    ensures { result ≡ port_valid port }
{
    match port {
        Port::Message(subject) => subject.is_valid(),
        Port::Request(service) | Port::Response(service) => service_valid(service),
    }
}

fn service_valid(port: ServicePort) -> bool
    ensures { result ≡ service_valid port }
{
    port.service.is_valid() && port.node.is_valid()
}

// The kind and the port, and for services the destination.
fn wanted(port: Port, header: Header) -> bool
    ensures { result ≡ wants port header }
{
    match (port, header) {
        (Port::Message(subject), Header::Message(message)) => subject == message.subject,
        (Port::Request(service), Header::Request(request)) => same_service(service, request),
        (Port::Response(service), Header::Response(response)) => same_service(service, response),
        _ => false,
    }
}

fn same_service(port: ServicePort, header: ServiceHeader) -> bool
    ensures { result ≡ same_service port header }
{
    port.service == header.service && port.node == header.destination
}

fn source_in(header: Header) -> Option<CanNodeId>
    ensures { result ≡ source_in header }
{
    match header {
        Header::Message(message) => message.source,
        Header::Request(service) | Header::Response(service) => service.source,
    }
}

// The ID rule: a repeat, or go on, with a slot that was reset where the ID is a strange one.
#[tactic(auto, unfolding(rules::specs::Slot::admitted))]
fn admit(timeout: u32, slot: Slot, transfer_id: CanTransferId, stamp: u32) -> Option<Slot>
    ensures { result ≡ admitted timeout slot transfer_id stamp }
{
    if transfer_id == slot.expected {
        return Some(slot);
    }
    if transfer_id.increment() == slot.expected && !timed_out(timeout, slot.last_time, stamp) {
        return None;
    }
    Some(Slot {
        expected: transfer_id,
        session: None,
        ..slot
    })
}

// Whether the last time is too long ago, unknown, or not to be compared.
#[tactic(auto, using(crate::proofs::Ages::age_is))]
fn timed_out(timeout: u32, last_time: Option<u32>, stamp: u32) -> bool
    ensures { result ≡ timed_out timeout last_time stamp }
{
    match last_time {
        None => true,
        Some(last) => {
            let age = stamp.wrapping_sub(last);
            age >= 0x8000_0000 || age > timeout
        }
    }
}

// Where a source's part of the store starts.
pub(crate) fn start_of(source: CanNodeId, extent: u16) -> usize
    ensures { (result ≡ source.0 * extent) × (result < 2 ^ 24) }
{
    source.0 as usize * extent as usize
}

// The answer of a source whose part starts here. Case by case: by `..delivery` and `other => other` a frame of 7 bytes takes 237 instructions in the place of 201.
fn lying_from(start: usize, answer: Result<Received, Refusal>) -> Result<Received, Refusal>
    ensures { answer_of result ≡ answer_from start (answer_of answer) }
{
    match answer {
        Ok(Received::Delivered(delivery)) => {
            let header = delivery.header;
            let transfer_id = delivery.transfer_id;
            let part = delivery.part;
            Ok(Received::Delivered(Delivery {
                header,
                transfer_id,
                stamp: delivery.stamp,
                loopback: delivery.loopback,
                part: part_from(start, part),
            }))
        }
        Ok(Received::Nothing) => Ok(Received::Nothing),
        Ok(Received::NotOurs) => Ok(Received::NotOurs),
        Err(refusal) => Err(refusal),
    }
}

fn part_from(start: usize, part: Part) -> Part
    ensures { result ≡ part_from start part }
{
    match part {
        Part::OfFrame { len } => Part::OfFrame { len },
        Part::OfStore { len, .. } => Part::OfStore { start, len },
    }
}
