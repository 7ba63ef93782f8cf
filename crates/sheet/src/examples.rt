// Vectors from public documents.
use crate::cases;
use crate::print::{Hex, Sheet};
use rules::data::Mtu;
use rules::header::Header;
use rules::refusal::Refusal;
use rules::types::{CanNodeId, CanTransferId};
use std::fmt::Display;
use std::{fmt, io};
use tracker::CanTransferIdTracker;

// Check values of CRC-16/CCITT-FALSE, also catalogued as CRC-16/IBM-3740.
pub(crate) fn crc_vectors(sheet: &mut Sheet<impl Print>) -> io::Result<()> {
    sheet.row("no bytes", cases::crc_of(b""), Hex(0xFFFF))?;
    sheet.row("123456789", cases::crc_of(b"123456789"), Hex(0x29B1))?;
    sheet.row("A", cases::crc_of(b"A"), Hex(0xB915))
}

fn tail(start: bool, end: bool, toggle: bool, id: CanTransferId) -> Hex<2> {
    Hex(wire::breakdown::make_tail_byte(start, end, toggle, id) as u64)
}

// Four heartbeats, subject 7509, from node 42, priority 4, transfer IDs 0 to 3: single frames of seven bytes and a tail.
pub(crate) fn heartbeat(sheet: &mut Sheet<impl Print>) -> io::Result<()> {
    let header = cases::message(4, 7509, cases::node(42));
    let asked = "heartbeat, subject 7509, from 42";
    sheet.row(asked, cases::id_of(header, b""), Hex(0x107D_552A))?;
    let asked = "heartbeat, frames of 7 bytes at MTU 8";
    sheet.row(asked, cases::frames(7, Mtu::Can8), 1)?;
    let mut id = CanTransferId(0);
    let beats = [
        ("first", 0xE0),
        ("second", 0xE1),
        ("third", 0xE2),
        ("fourth", 0xE3),
    ];
    for (beat, wanted) in beats {
        let asked = format_args!("heartbeat, {beat} tail byte");
        sheet.row(asked, tail(true, true, true, id), Hex(wanted))?;
        id = id.increment();
    }
    Ok(())
}

// The destination and, behind it, the source that the CAN ID of a request says; none of any other.
fn between(id: u32) -> Option<u16> {
    let Ok(Header::Request(request)) = wire::rx::parse_can_id(id) else {
        return None;
    };
    Some(u16::from_be_bytes([request.destination.0, request.source?.0]))
}

// The node information request, service 430, from node 123 to node 42, priority 4, transfer ID 1, and its response's ID.
pub(crate) fn node_information(sheet: &mut Sheet<impl Print>) -> io::Result<()> {
    let request = Header::Request(cases::service(4, 430, 42, 123));
    let response = Header::Response(cases::service(4, 430, 123, 42));
    let asked = "node information request, from 123 to 42";
    sheet.row(asked, cases::id_of(request, b""), Hex(0x136B_957B))?;
    let only = tail(true, true, true, CanTransferId(1));
    sheet.row("its tail byte", only, Hex(0xE1))?;
    // a number for none too, as the row prints it; no two bytes make 64 ones
    let said = between(0x136B_957B).map_or(u64::MAX, u64::from);
    let asked = "its ID read, destination and source";
    sheet.row(asked, Hex::<4>(said), Hex(0x2A7B))?;
    let asked = "node information response, from 42 to 123";
    sheet.row(asked, cases::id_of(response, b""), Hex(0x126B_BDAA))
}

// The response's 69 bytes in eleven frames of MTU 8, the CRC split between the last two.
pub(crate) fn response_frames(sheet: &mut Sheet<impl Print>) -> io::Result<()> {
    let payload = cases::NODE_INFORMATION;
    let id = CanTransferId(1);
    sheet.row("response, bytes of payload", payload.len(), 69)?;
    let asked = "response, frames at MTU 8";
    sheet.row(asked, cases::frames(payload.len(), Mtu::Can8), 11)?;
    let asked = "response, transfer CRC";
    sheet.row(asked, cases::crc_of(&payload), Hex(0x9AE7))?;
    let tails = [
        ("first", tail(true, false, true, id), 0xA1),
        ("second", tail(false, false, false, id), 0x01),
        ("third", tail(false, false, true, id), 0x21),
        ("last", tail(false, true, true, id), 0x61),
    ];
    for (frame, got, wanted) in tails {
        let asked = format_args!("response, tail byte of its {frame} frame");
        sheet.row(asked, got, Hex(wanted))?;
    }
    Ok(())
}

// What a tracker answers: the number that it gives, or 100 more than that of the refusal.
#[derive(Clone, Copy, PartialEq, Eq)]
struct Given(Result<CanTransferId, Refusal>);

impl Display for Given {
    fn fmt<W: fmt::Write>(&self, f: &mut fmt::Formatter<W>) -> fmt::Result {
        match self.0 {
            Ok(id) => write!(f, "{}", id.0),
            Err(refusal) => write!(f, "{}", refusal.number().wrapping_add(100)),
        }
    }
}

// A tracker that is asked for one number after another.
#[derive(Drop)]
struct Asking {
    tracker: CanTransferIdTracker,
}

impl Asking {
    fn next(&mut self, destination: u8) -> Given {
        let asked = self.tracker.next_transfer_id(CanNodeId(destination));
        self.tracker = asked.tracker;
        Given(asked.answer)
    }
}

fn gives(id: u8) -> Given {
    Given(Ok(CanTransferId(id)))
}

// Destination 6 owns bits 30 to 34 of the row, which straddle two words. A row of ones has 31 for every destination.
pub(crate) fn transfer_ids(sheet: &mut Sheet<impl Print>) -> io::Result<()> {
    let mut fresh = Asking {
        tracker: CanTransferIdTracker::new(),
    };
    sheet.row("destination 6, asked first", fresh.next(6), gives(0))?;
    sheet.row("destination 6, asked again", fresh.next(6), gives(1))?;
    let mut ones = Asking {
        tracker: CanTransferIdTracker {
            ids: [u32::MAX; 20],
        },
    };
    sheet.row("destination 6 of a row of ones", ones.next(6), gives(31))?;
    sheet.row(
        "destination 6 of that row, asked again",
        ones.next(6),
        gives(0),
    )?;
    sheet.row(
        "destination 7 of that row, left alone",
        ones.next(7),
        gives(31),
    )?;
    let asked = "destination 128, refusal (100 + its number)";
    sheet.row(asked, ones.next(128), Given(Err(Refusal::Field)))
}
