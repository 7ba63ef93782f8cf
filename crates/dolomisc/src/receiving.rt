// The receiver's doors.
ghost use Rattle.std.specs.Prelude.{◌≡◌, length};
ghost use Rattle.rules.specs.Frames.{frame};
ghost use Rattle.rules.specs.Receiver.{made};
ghost use Rattle.rx.specs.Accept.{words_made, accepted};
ghost use Rattle.dolomisc.specs.Flat.{marks_from, port_from};
ghost use Rattle.dolomisc.specs.Received.{settings_from, subscribed_told, receives, received_of, delivered_told, span_of, span_in, span_within, not_subscribed, nothing_named};

use crate::headers::{FlatHeader, FlatMarks};
use crate::{answers, headers};
use rules::receive::{Delivery, Part, Received};
use rules::refusal::Refusal;
use rules::subscription::Settings;
use rx::subscription::Subscription;
use slots::Slots;

// In which memory the bytes of a delivery lie, by C's numbers.
pub const IN_FRAME: u8 = 0;

pub const IN_STORE: u8 = 1;

// What making gives. The caller keeps it and hands it in with each frame.
#[repr(C)]
#[derive(Clone, Copy, Default)]
pub struct FlatSubscription {
    pub timeout: u32,
    pub port: u16,
    pub extent: u16,
    pub kind: u8,
    pub node: u8,
}

// A subscription, or why there is none; what stands in the place of one is of no kind.
#[repr(C)]
#[derive(Clone, Copy)]
pub struct FlatSubscribed {
    pub subscription: FlatSubscription,
    pub what: u8,
    pub refusal: u8,
}

// Bytes of the frame or of the store: from which on, and how many. By default none.
#[repr(C)]
#[derive(Clone, Copy, Default)]
pub struct Span {
    pub start: usize,
    pub length: usize,
    pub memory: u8,
}

// What a frame is answered. All fields but `what` and `refusal` are a delivery's, and zero where there is none.
#[repr(C)]
#[derive(Clone, Copy, Default)]
pub struct FlatReceived {
    pub span: Span,
    pub stamp: u32,
    pub header: FlatHeader,
    pub transfer_id: u8,
    pub loopback: u8,
    pub what: u8,
    pub refusal: u8,
}

// As Subscription::new. After a refusal the slots are as they were.
#[unsafe(no_mangle)]
pub extern "C" fn dolomisc_subscription_new(
    kind: u8,
    port: u16,
    node: u8,
    timeout: u32,
    extent: usize,
    slots: &mut Slots,
) -> FlatSubscribed
    ensures value { result ≡ subscribed_told kind port node (made (port_from kind port node) timeout extent) }
    ensures slots_after { slots.new ≡ words_made (made (port_from kind port node) timeout extent) slots.old }
{
    let asked = headers::port_from(kind, port, node);
    match Subscription::new(asked, timeout, extent, slots) {
        Ok(made) => {
            let settings = made.settings;
            FlatSubscribed {
                subscription: FlatSubscription {
                    timeout: settings.timeout,
                    port,
                    extent: settings.extent,
                    kind,
                    node,
                },
                what: answers::DONE,
                refusal: 0,
            }
        }
        Err(refusal) => not_subscribed(refusal),
    }
}

fn not_subscribed(refusal: Refusal) -> FlatSubscribed
    ensures { result ≡ not_subscribed refusal }
{
    FlatSubscribed {
        subscription: FlatSubscription {
            kind: 255,
            ..FlatSubscription::default()
        },
        what: answers::REFUSED,
        refusal: refusal.number(),
    }
}

// As Subscription::accept.
#[unsafe(no_mangle)]
pub extern "C" fn dolomisc_subscription_accept(
    subscription: FlatSubscription,
    slots: &mut Slots,
    store: &mut [u8],
    marks: FlatMarks,
    bytes: &[u8],
) -> FlatReceived
    ensures { receives result slots.new store.new ≡ received_of (accepted (settings_from subscription) slots.old store.old (frame (marks_from marks) bytes.now)) }
{
    let receiver = Subscription {
        settings: subscription.into(),
    };
    // Each arm returns by itself: for one answer that is joined from all, here or in a `From`, the compiler holds a dozen zeros ready on every way, and takes 225
    // instructions for a frame of 8 bytes, where it takes 194 so.
    match receiver.accept(slots, store, marks.into(), bytes) {
        Ok(Received::Delivered(delivery)) => {
            return delivery.into();
        }
        Ok(Received::Nothing) => {
            return nothing_named(answers::NOTHING, 0);
        }
        Ok(Received::NotOurs) => {
            return nothing_named(answers::NOT_OURS, 0);
        }
        Err(refusal) => {
            return nothing_named(answers::REFUSED, refusal.number());
        }
    }
}

impl From<FlatSubscription> for Settings {
    ghost from_gives = { λ flat settings. settings ≡ settings_from flat };

    fn from(flat: FlatSubscription) -> Settings {
        Settings {
            port: headers::port_from(flat.kind, flat.port, flat.node),
            timeout: flat.timeout,
            extent: flat.extent,
        }
    }
}

impl From<Delivery> for FlatReceived {
    ghost from_gives = { λ delivery told. told ≡ delivered_told delivery };

    fn from(delivery: Delivery) -> FlatReceived {
        FlatReceived {
            span: delivery.part.into(),
            stamp: delivery.stamp,
            header: delivery.header.into(),
            transfer_id: delivery.transfer_id.0,
            loopback: delivery.loopback as u8,
            what: answers::DELIVERED,
            refusal: 0,
        }
    }
}

impl From<Part> for Span {
    ghost from_gives = { λ part span. span ≡ span_of part };

    fn from(part: Part) -> Span {
        match part {
            Part::OfFrame { len } => Span {
                start: 0,
                length: len,
                memory: IN_FRAME,
            },
            Part::OfStore { start, len } => Span {
                start,
                length: len,
                memory: IN_STORE,
            },
        }
    }
}

// An answer that names no bytes.
fn nothing_named(what: u8, refusal: u8) -> FlatReceived
    ensures { result ≡ nothing_named what refusal }
{
    FlatReceived {
        what,
        refusal,
        ..FlatReceived::default()
    }
}

// As payload: where the bytes lie that an answer names; none where it names none, or more than there are.
#[unsafe(no_mangle)]
pub extern "C" fn dolomisc_payload(received: FlatReceived, frame: &[u8], store: &[u8]) -> Span
    ensures { result ≡ span_in received (length frame.now) (length store.now) }
{
    if received.what != answers::DELIVERED {
        return Span::default();
    }
    let span = received.span;
    if span.memory == IN_FRAME {
        return span_within(span, frame.len());
    }
    span_within(span, store.len())
}

fn span_within(span: Span, room: usize) -> Span
    ensures { result ≡ span_within span room }
{
    if room < span.start {
        return Span::default();
    }
    let behind = room - span.start;
    if behind < span.length {
        return Span::default();
    }
    span
}
