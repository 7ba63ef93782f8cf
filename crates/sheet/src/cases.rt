// The bench sheet's cases.
use crate::print::{Hex, Sheet};
use rules::data::Mtu;
use rules::header::{Header, MessageHeader, ServiceHeader};
use rules::stats::FrameStats;
use rules::types::{CanNodeId, CanTransferId, Priority, ServiceId, SubjectId};
use std::io;

// The plan; none, no frames at all, for a payload over the limit.
// That is no `Option`, as the rows print its numbers; each true plan has a frame.
fn plan(payload_length: usize, mtu: Mtu) -> FrameStats {
    let none = FrameStats {
        frames: 0,
        last_frame_padding: 0,
    };
    wire::calculate_frame_stats(payload_length, mtu).unwrap_or(none)
}

pub(crate) fn frames(payload_length: usize, mtu: Mtu) -> usize {
    plan(payload_length, mtu).frames
}

fn padding(payload_length: usize, mtu: Mtu) -> usize {
    plan(payload_length, mtu).last_frame_padding
}

// The bytes of the last of several frames, 0 for a full one: payload, padding, two bytes of CRC and a tail byte each, less all full frames.
fn last(payload_length: usize, mtu: Mtu) -> usize {
    let plan = plan(payload_length, mtu);
    let content = payload_length.wrapping_add(plan.last_frame_padding);
    let all = content.wrapping_add(plan.frames).wrapping_add(2);
    all % mtu.as_bytes()
}

pub(crate) fn plan_at_64(sheet: &mut Sheet<impl Print>) -> io::Result<()> {
    let fd = Mtu::CanFd64;
    sheet.row("case 1, MTU 64, payload 9, padding", padding(9, fd), 2)?;
    sheet.row("case 1, MTU 64, payload 62, padding", padding(62, fd), 1)?;
    sheet.row("case 1, MTU 64, payload 63, frames", frames(63, fd), 1)?;
    sheet.row("case 1, MTU 64, payload 63, padding", padding(63, fd), 0)?;
    sheet.row("case 1, MTU 64, payload 64, frames", frames(64, fd), 2)?;
    let asked = "case 1, MTU 64, payload 64, bytes of the last frame";
    sheet.row(asked, last(64, fd), 4)
}

pub(crate) fn plan_at_8(sheet: &mut Sheet<impl Print>) -> io::Result<()> {
    let can = Mtu::Can8;
    sheet.row("case 2, MTU 8, payload 7, frames", frames(7, can), 1)?;
    sheet.row("case 2, MTU 8, payload 8, frames", frames(8, can), 2)?;
    sheet.row("case 2, MTU 8, payload 13, frames", frames(13, can), 3)?;
    let asked = "case 2, MTU 8, payload 13, bytes of the last frame";
    sheet.row(asked, last(13, can), 2)?;
    sheet.row(
        "case 2, MTU 8, payload 1024, frames",
        frames(1024, can),
        147,
    )
}

// Case 3: the payload, its padding and the tail byte make the frame of the sheet.
pub(crate) fn one_frame(sheet: &mut Sheet<impl Print>) -> io::Result<()> {
    let payload = [1u8, 2, 3, 4, 5, 6, 7, 8, 9];
    let mut frame = [0u8; 12];
    let copied = blocks::copy(&payload, &mut frame);
    let padded = copied.wrapping_add(padding(9, Mtu::CanFd64));
    let tail = wire::breakdown::make_tail_byte(true, true, true, CanTransferId(3));
    frame[11] = tail;
    let asked = "case 3, payload 01 to 09 at MTU 64, bytes before the tail";
    sheet.row(asked, padded, 11)?;
    let asked = "case 3, tail byte of a single frame with transfer ID 3";
    sheet.row(asked, Hex::<2>(tail as u64), Hex(0xE3))?;
    let right = frame == [1, 2, 3, 4, 5, 6, 7, 8, 9, 0, 0, 0xE3];
    sheet.holds("case 3, frame as the sheet has it (1: yes)", right)
}

// The CAN ID of a header; all ones, which is none, where it is refused.
// That is no `Option`, as the row prints the number; no ID has 64 ones.
pub(crate) fn id_of(header: Header, payload: &[u8]) -> Hex<8> {
    Hex(wire::tx::make_can_id(header, payload).map_or(u64::MAX, |id| u64::from(id.0)))
}

pub(crate) fn message(priority: u8, subject: u16, source: Option<CanNodeId>) -> Header {
    Header::Message(MessageHeader {
        priority: Priority(priority),
        subject: SubjectId(subject),
        source,
    })
}

// A node that sends.
pub(crate) fn node(number: u8) -> Option<CanNodeId> {
    Some(CanNodeId(number))
}

// A sender that has no number.
pub(crate) fn nobody() -> Option<CanNodeId> {
    None
}

pub(crate) fn service(priority: u8, service: u16, destination: u8, source: u8) -> ServiceHeader {
    ServiceHeader {
        priority: Priority(priority),
        service: ServiceId(service),
        destination: CanNodeId(destination),
        source: node(source),
    }
}

pub(crate) fn can_ids(sheet: &mut Sheet<impl Print>) -> io::Result<()> {
    let scan = message(4, 256, node(42));
    let info = service(1, 430, 5, 9);
    let asked = "case 4, message, priority 4, subject 256, from 42";
    sheet.row(asked, id_of(scan, b""), Hex(0x1061_002A))?;
    let asked = "case 4, request, priority 1, service 430, to 5, from 9";
    sheet.row(asked, id_of(Header::Request(info), b""), Hex(0x076B_8289))?;
    let asked = "case 4, its response form";
    sheet.row(asked, id_of(Header::Response(info), b""), Hex(0x066B_8289))
}

fn pseudo(payload: &[u8]) -> u8 {
    wire::tx::make_pseudo_id(payload).0
}

pub(crate) fn pseudo_sources(sheet: &mut Sheet<impl Print>) -> io::Result<()> {
    sheet.row("case 5, pseudo source of an empty payload", pseudo(b""), 85)?;
    for byte in [0x2A, 0x2B, 0xAB] {
        let asked = format_args!("case 5, pseudo source of {byte:02X}");
        sheet.row(asked, pseudo(&[byte]), 125)?;
    }
    Ok(())
}

pub(crate) fn crc_of(bytes: &[u8]) -> Hex<4> {
    Hex(crc::digest_bytes(crc::INITIAL, bytes) as u64)
}

pub(crate) fn check_value(sheet: &mut Sheet<impl Print>) -> io::Result<()> {
    let asked = "case 14, CRC of the characters 123456789";
    sheet.row(asked, crc_of(b"123456789"), Hex(0x29B1))
}

// The payload of the specification's node information response.
pub(crate) const NODE_INFORMATION: [u8; 69] = *b"\
    \x01\x00\x00\x00\x01\x00\x00\x00\x00\x00\x00\x00\x00\x00\x00\x00\x00\x00\x00\x00\x00\x00\x00\
    \x00\x00\x00\x00\x00\x00\x00\x24\x6F\x72\x67\x2E\x75\x61\x76\x63\x61\x6E\x2E\x70\x79\x75\x61\
    \x76\x63\x61\x6E\x2E\x64\x65\x6D\x6F\x2E\x62\x61\x73\x69\x63\x5F\x75\x73\x61\x67\x65\x00\x00";

// The eleven frames that it is sent in at MTU 8, the CRC split between the last two.
pub(crate) const RESPONSE: [&[u8]; 11] = [
    b"\x01\x00\x00\x00\x01\x00\x00\xA1",
    b"\x00\x00\x00\x00\x00\x00\x00\x01",
    b"\x00\x00\x00\x00\x00\x00\x00\x21",
    b"\x00\x00\x00\x00\x00\x00\x00\x01",
    b"\x00\x00\x24\x6F\x72\x67\x2E\x21",
    b"\x75\x61\x76\x63\x61\x6E\x2E\x01",
    b"\x70\x79\x75\x61\x76\x63\x61\x21",
    b"\x6E\x2E\x64\x65\x6D\x6F\x2E\x01",
    b"\x62\x61\x73\x69\x63\x5F\x75\x21",
    b"\x73\x61\x67\x65\x00\x00\x9A\x01",
    b"\xE7\x61",
];
