// The real receiver: frames of the sheet and of the document are fed to a subscription one by one, and each answer is shown by its number.
use crate::cases;
use crate::print::Sheet;
use rules::frame::Marks;
use rules::receive::{Delivery, Received};
use rules::refusal::Refusal;
use rules::subscription::{Port, ServicePort, Settings};
use rules::types::{CanNodeId, ServiceId, SubjectId};
use rx::subscription::Subscription;
use slots::Slots;
use std::fmt::Display;
use std::{fmt, io};

// The answer to a frame, a delivery's bytes left aside.
#[derive(Clone, Copy, PartialEq, Eq)]
enum Answer {
    Delivered,
    Nothing,
    NotOurs,
    Refused(Refusal),
}

impl From<Result<Received, Refusal>> for Answer {
    fn from(answer: Result<Received, Refusal>) -> Self {
        match answer {
            Ok(Received::Delivered(_)) => Answer::Delivered,
            Ok(Received::Nothing) => Answer::Nothing,
            Ok(Received::NotOurs) => Answer::NotOurs,
            Err(refusal) => Answer::Refused(refusal),
        }
    }
}

// A refusal is shown by its number, and the other answers by numbers that no refusal has.
impl Display for Answer {
    fn fmt<W: fmt::Write>(&self, f: &mut fmt::Formatter<W>) -> fmt::Result {
        match *self {
            Answer::Nothing => write!(f, "0"),
            Answer::Delivered => write!(f, "100"),
            Answer::NotOurs => write!(f, "200"),
            Answer::Refused(refusal) => write!(f, "{}", refusal.number()),
        }
    }
}

// A subscription, and the slots and the store that it is lent with each call.
#[derive(Drop)]
struct Listener<const STORE: usize> {
    subscription: Subscription,
    slots: Slots,
    store: [u8; STORE],
}

impl<const STORE: usize> Listener<STORE> {
    // A subscription that has heard nothing yet; one that keeps no bytes if it is refused.
    fn new(port: Port, timeout: u32, extent: usize) -> Self {
        let mut slots = [[0; 4]; 128];
        let deaf = Subscription {
            settings: Settings {
                port,
                timeout: 0,
                extent: 0,
            },
        };
        let subscription = Subscription::new(port, timeout, extent, &mut slots).unwrap_or(deaf);
        Listener {
            subscription,
            slots,
            store: [0; STORE],
        }
    }

    fn accept(&mut self, marks: Marks, frame: &[u8]) -> Result<Received, Refusal> {
        self.subscription
            .accept(&mut self.slots, &mut self.store, marks, frame)
    }

    fn hear(&mut self, marks: Marks, frame: &[u8]) -> Answer {
        self.accept(marks, frame).into()
    }

    // The answer to a frame of a scan from node 42.
    fn hear_scan(&mut self, stamp: u32, frame: &[u8]) -> Answer {
        self.hear(scan(stamp), frame)
    }

    // Whether a frame is answered by a delivery of these bytes.
    fn delivers(&mut self, id: u32, frame: &[u8], payload: &[u8]) -> bool {
        let answer = self.accept(marks(id, 7), frame);
        Answer::from(answer) == Answer::Delivered
            && rx::payload(answer, frame, &self.store) == payload
    }
}

// Scans, and the ID of one from node 42; the same under subject 257, with bit 23 set, too, and over the greatest, too.
const SCANS: Port = Port::Message(SubjectId(256));

const SCAN: u32 = 0x1061_002A;

const OTHER: u32 = 0x1061_012A;

const RESERVED: u32 = 0x10E1_012A;

const BEYOND: u32 = 0x30E1_012A;

// Scans under subject 256, two bytes of each kept: the 128 slots need a store of 256 bytes.
fn scans(timeout: u32) -> Listener<256> {
    Listener::new(SCANS, timeout, 2)
}

fn marks(id: u32, stamp: u32) -> Marks {
    Marks {
        stamp,
        id,
        loopback: false,
    }
}

// A frame of a scan from node 42.
fn scan(stamp: u32) -> Marks {
    marks(SCAN, stamp)
}

// Case 6: the two bytes are the CRC of an empty payload.
pub(crate) fn empty_payload(sheet: &mut Sheet<impl Print>) -> io::Result<()> {
    let mut scans = scans(32);
    let first = scans.hear_scan(0, b"\xFF\xA0");
    let last = scans.accept(scan(1), b"\xFF\x40");
    let shown = rx::payload(last, b"\xFF\x40", &scans.store);
    sheet.row("case 6, fresh slot, FF A0", first, Answer::Nothing)?;
    sheet.row("case 6, then FF 40", last.into(), Answer::Delivered)?;
    sheet.row("case 6, bytes delivered", shown.len(), 0)
}

// Case 7: one byte in all is too short for a CRC.
pub(crate) fn one_byte(sheet: &mut Sheet<impl Print>) -> io::Result<()> {
    let mut scans = scans(32);
    let first = scans.hear_scan(0, b"\xA0");
    sheet.row("case 7, fresh slot, A0", first, Answer::Nothing)?;
    let last = scans.hear_scan(1, b"\x07\x40");
    sheet.row(
        "case 7, then 07 40",
        last,
        Answer::Refused(Refusal::Residue),
    )
}

// Case 8: a fresh slot expects ID 0, and takes any other.
pub(crate) fn strange_id(sheet: &mut Sheet<impl Print>) -> io::Result<()> {
    let only = scans(32).hear_scan(0, b"\x07\xFF");
    let asked = "case 8, fresh slot, a single frame with ID 31";
    sheet.row(asked, only, Answer::Delivered)
}

// The answer to a single frame of stamp 0xFFFFFFF0 that comes again at stamp 0x10, an age of 32.
fn again(timeout: u32) -> Answer {
    let mut scans = scans(timeout);
    scans.hear_scan(0xFFFF_FFF0, b"\x07\xE0");
    scans.hear_scan(0x10, b"\x07\xE0")
}

pub(crate) fn repeat(sheet: &mut Sheet<impl Print>) -> io::Result<()> {
    let asked = "case 9, the same ID at age 32, timeout 32";
    sheet.row(asked, again(32), Answer::Nothing)?;
    let asked = "case 9, the same ID at age 32, timeout 31";
    sheet.row(asked, again(31), Answer::Delivered)
}

// Case 10: that ID 8 is taken for a repeat shows that ID 9 is expected.
pub(crate) fn never_seen(sheet: &mut Sheet<impl Print>) -> io::Result<()> {
    let mut scans = scans(32);
    let single = scans.hear_scan(0, b"\x07\xE3");
    sheet.row(
        "case 10, a single frame with ID 3",
        single,
        Answer::Delivered,
    )?;
    let middle = scans.hear_scan(1, b"\x07\x09");
    let asked = "case 10, then a middle frame with ID 9";
    sheet.row(asked, middle, Answer::Refused(Refusal::NoSession))?;
    let then = scans.hear_scan(2, b"\x07\xE8");
    let asked = "case 10, then a single frame with ID 8 in time";
    sheet.row(asked, then, Answer::Nothing)
}

// Case 11: a strange ID makes the slot forget ID 3, as in the Rust.
pub(crate) fn second_time(sheet: &mut Sheet<impl Print>) -> io::Result<()> {
    let mut scans = scans(32);
    scans.hear_scan(0, b"\x07\xE3");
    scans.hear_scan(1, b"\x07\x09");
    let then = scans.hear_scan(2, b"\x07\xE3");
    let asked = "case 11, as 10, but then the single frame with ID 3 again";
    sheet.row(asked, then, Answer::Delivered)
}

// The stamp of a delivery.
fn stamp(answer: Result<Received, Refusal>) -> Option<u32> {
    match answer {
        Ok(Received::Delivered(Delivery { stamp, .. })) => Some(stamp),
        _ => None,
    }
}

// Case 12: the first frame opens the session, though its toggle is not awaited and its byte does not join.
pub(crate) fn first_stamp(sheet: &mut Sheet<impl Print>) -> io::Result<()> {
    let mut scans = scans(32);
    let early = scans.hear_scan(1000, b"\xFF\x80");
    let asked = "case 12, stamp 1000, a start frame with toggle 0";
    sheet.row(asked, early, Answer::Nothing)?;
    let proper = scans.hear_scan(1001, b"\xFF\xA0");
    sheet.row(
        "case 12, stamp 1001, a proper start",
        proper,
        Answer::Nothing,
    )?;
    let last = scans.accept(scan(1002), b"\xFF\x40");
    sheet.row(
        "case 12, stamp 1002, the end",
        last.into(),
        Answer::Delivered,
    )?;
    let stamp = stamp(last).unwrap_or(0);
    sheet.row("case 12, stamp of the delivery", stamp, 1000)
}

// The specification's heartbeats; their uptime in seconds, which the payload begins with, is their transfer ID, too.
pub(crate) fn heartbeats(sheet: &mut Sheet<impl Print>) -> io::Result<()> {
    let mut beats = Listener::<896>::new(Port::Message(SubjectId(7509)), 32, 7);
    for (n, beat) in [(0, "first"), (1, "second"), (2, "third"), (3, "fourth")] {
        let payload = [n, 0, 0, 0, 0, 1, 0xA1];
        let frame = [n, 0, 0, 0, 0, 1, 0xA1, 0xE0 | n];
        let right = beats.delivers(0x107D_552A, &frame, &payload);
        sheet.holds(format_args!("heartbeat, {beat} payload delivered"), right)?;
    }
    Ok(())
}

// Service 430 at a node.
fn information(node: u8) -> ServicePort {
    ServicePort {
        service: ServiceId(430),
        node: CanNodeId(node),
    }
}

// The specification's node information request, at node 42.
pub(crate) fn request(sheet: &mut Sheet<impl Print>) -> io::Result<()> {
    let mut requests = Listener::<256>::new(Port::Request(information(42)), 32, 2);
    let right = requests.delivers(0x136B_957B, b"\xE1", b"");
    sheet.holds("request, empty payload delivered", right)
}

// The response at node 123. Its CRC has room in the store behind its payload, and is not shown.
pub(crate) fn response(sheet: &mut Sheet<impl Print>) -> io::Result<()> {
    let id = 0x126B_BDAA;
    let mut responses = Listener::<9216>::new(Port::Response(information(123)), 32, 72);
    let (first, last) = (&cases::RESPONSE[..10], cases::RESPONSE[10]);
    let silent = first
        .iter()
        .filter(|frame| responses.hear(marks(id, 7), frame) == Answer::Nothing)
        .count();
    let asked = "response, frames before the last answered by nothing";
    sheet.row(asked, silent, 10)?;
    let right = responses.delivers(id, last, &cases::NODE_INFORMATION);
    sheet.holds("response, payload delivered at the last frame", right)
}

// An anonymous frame, whatever its tail, is delivered uncut, where node 42 has its bytes cut to the extent.
pub(crate) fn anonymous(sheet: &mut Sheet<impl Print>) -> io::Result<()> {
    let mut scans = scans(32);
    let uncut = scans.delivers(0x1161_007D, b"1234\x00", b"1234");
    let asked = "anonymous, 4 bytes at extent 2, delivered uncut (1: yes)";
    sheet.holds(asked, uncut)?;
    let cut = scans.delivers(SCAN, b"1234\xE0", b"12");
    let asked = "from node 42, 4 bytes at extent 2, delivered cut (1: yes)";
    sheet.holds(asked, cut)
}

// Refusals in their order: each frame has the faults of the rows below it, too, as far as they go together.
pub(crate) fn refusals(sheet: &mut Sheet<impl Print>) -> io::Result<()> {
    let mut small = Listener::<255>::new(SCANS, 32, 2);
    let asked = "a store of 255 bytes at extent 2";
    sheet.row(
        asked,
        small.hear(marks(BEYOND, 0), b""),
        Answer::Refused(Refusal::StoreTooSmall),
    )?;
    let middle = b"\x07\x00";
    let frames: [(&str, u32, &[u8], Answer); 6] = [
        (
            "a frame of no bytes",
            BEYOND,
            b"",
            Answer::Refused(Refusal::NoBytes),
        ),
        (
            "a frame of 65 bytes",
            BEYOND,
            &[0; 65],
            Answer::Refused(Refusal::FrameTooLong),
        ),
        (
            "a CAN ID over 2^29",
            BEYOND,
            middle,
            Answer::Refused(Refusal::CanId),
        ),
        (
            "a CAN ID with bit 23",
            RESERVED,
            middle,
            Answer::Refused(Refusal::ReservedBit),
        ),
        ("a frame of subject 257", OTHER, middle, Answer::NotOurs),
        (
            "a middle frame with no session",
            SCAN,
            middle,
            Answer::Refused(Refusal::NoSession),
        ),
    ];
    for (asked, id, frame, wanted) in frames {
        let got = scans(32).hear(marks(id, 0), frame);
        sheet.row(asked, got, wanted)?;
    }
    Ok(())
}

// The refusal of a subscription that is made.
fn making(subject: u16, extent: usize) -> Option<Refusal> {
    let port = Port::Message(SubjectId(subject));
    Subscription::new(port, 32, extent, &mut [[0; 4]; 128]).err()
}

pub(crate) fn makings(sheet: &mut Sheet<impl Print>) -> io::Result<()> {
    let asked = "making, subject 8192, extent 1025";
    sheet.refuses(asked, making(8192, 1025), Refusal::Field)?;
    let asked = "making, subject 8191, extent 1025";
    sheet.refuses(asked, making(8191, 1025), Refusal::ExtentTooLarge)
}
