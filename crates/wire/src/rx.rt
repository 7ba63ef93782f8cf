// The CAN ID and the tail byte read, after rx.rs.
ghost use Rattle.std.specs.Prelude.{◌≡◌, ◌+◌, ◌≤◌, ◌<◌};
ghost use Rattle.rules.specs.CanId.{bits_at, is_set, source_of, message_header_of, service_header_of, said_by, parsed_can_id};
ghost use Rattle.rules.specs.TailByte.{parsed_tail};
ghost use Rattle.wire.specs.Addressed.{message_to, service_to};

use rules::data::CanId;
use rules::header::{Header, MessageHeader, ServiceHeader};
use rules::refusal::Refusal;
use rules::tail::TailByte;
use rules::types::{CanNodeId, CanTransferId, Limited, Priority, ServiceId, SubjectId};

// The header that a received CAN ID says. 2^29 or more: refusal 1; a reserved bit: refusal 4. Bits 21 and 22 are not looked at.
#[tactic(auto, unfolding(rules::specs::CanId::parsed_can_id))]
pub fn parse_can_id(id: u32) -> Result<Header, Refusal>
    ensures { result ≡ parsed_can_id id }
{
    CanId::try_from(id)?;
    parse_header(id)
}

fn parse_header(id: u32) -> Result<Header, Refusal>
    ensures { result ≡ said_by id }
{
    if bit_set(id, 23) {
        return Err(Refusal::ReservedBit);
    }
    if bit_set(id, 25) {
        if bit_set(id, 24) {
            return Ok(Header::Request(service_header(id)));
        }
        return Ok(Header::Response(service_header(id)));
    }
    if bit_set(id, 7) {
        return Err(Refusal::ReservedBit);
    }
    Ok(Header::Message(message_header(id)))
}

// Whether a CAN ID says a message to this subject, from a source that is named. No header is made.
#[tactic(auto, using(crate::proofs::Addressed::message_said))]
pub fn is_message_to(id: u32, subject: SubjectId) -> bool
    ensures { result ≡ message_to subject (parsed_can_id id) }
{
    if !CanId(id).is_valid() {
        return false;
    }
    if bit_set(id, 23) {
        return false;
    }
    let service = bit_set(id, 25);
    if service {
        return false;
    }
    let reserved = bit_set(id, 7);
    if reserved {
        return false;
    }
    let anonymous = bit_set(id, 24);
    if anonymous {
        return false;
    }
    let asked = field(id, 8, 13);
    subject.0 as u32 == asked
}

// Whether a CAN ID says a request, or else a response, of this service to this node. No header is made.
#[tactic(auto, using(crate::proofs::Addressed::service_said))]
pub fn is_service_to(id: u32, request: bool, service: ServiceId, node: CanNodeId) -> bool
    ensures { result ≡ service_to request service node (parsed_can_id id) }
{
    if !CanId(id).is_valid() {
        return false;
    }
    if bit_set(id, 23) {
        return false;
    }
    if !bit_set(id, 25) {
        return false;
    }
    let asks = bit_set(id, 24);
    if request != asks {
        return false;
    }
    let asked = field(id, 14, 9);
    if service.0 as u32 != asked {
        return false;
    }
    let destination = field(id, 7, 7);
    node.0 as u32 == destination
}

// The marks of a tail byte; every byte is one.
pub fn parse_tail_byte(byte: u8) -> TailByte
    ensures { result ≡ parsed_tail byte }
{
    TailByte {
        start: (byte >> 7) & 1 == 1,
        end: (byte >> 6) & 1 == 1,
        toggle: (byte >> 5) & 1 == 1,
        transfer_id: CanTransferId(byte & CanTransferId::MAX),
    }
}

// The field of count bits from bit at on.
fn field(id: u32, at: u32, count: u32) -> u32
    requires { at + count ≤ 31 }
    ensures { result ≡ bits_at id at count }
{
    (id >> at) & ((1 << count) - 1)
}

fn bit_set(id: u32, offset: u32) -> bool
    requires { offset < 31 }
    ensures { result ≡ is_set id offset }
{
    field(id, offset, 1) == 1
}

fn node(id: u32, at: u32) -> CanNodeId
    requires { at ≤ 24 }
    ensures { result ≡ record { 0 = bits_at id at 7 } }
{
    CanNodeId(field(id, at, 7) as u8)
}

fn priority(id: u32) -> Priority
    ensures { result ≡ record { 0 = bits_at id 26 3 } }
{
    Priority(field(id, 26, 3) as u8)
}

// An anonymous message names no source.
fn message_source(id: u32) -> Option<CanNodeId>
    ensures { result ≡ source_of id }
{
    (!bit_set(id, 24)).then_some(node(id, 0))
}

fn message_header(id: u32) -> MessageHeader
    ensures { result ≡ message_header_of id }
{
    MessageHeader {
        priority: priority(id),
        subject: SubjectId(field(id, 8, 13) as u16),
        source: message_source(id),
    }
}

fn service_header(id: u32) -> ServiceHeader
    ensures { result ≡ service_header_of id }
{
    ServiceHeader {
        priority: priority(id),
        service: ServiceId(field(id, 14, 9) as u16),
        destination: node(id, 7),
        source: Some(node(id, 0)),
    }
}
