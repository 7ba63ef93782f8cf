// The CAN ID made, after tx.rs.
ghost use Rattle.std.specs.Prelude.{◌≡◌, ◌≤◌};
ghost use Rattle.rules.specs.Limits.{greatest_priority, greatest_subject, greatest_service, greatest_node};
ghost use Rattle.rules.specs.CanId.{message_id, service_id, xor_all, pseudo_source, message_made, message_from, service_can_id, can_id_of};

use rules::data::CanId;
use rules::header::{Header, MessageHeader, ServiceHeader};
use rules::refusal::Refusal;
use rules::types::{CanNodeId, Limited, Priority, SubjectId};

// The CAN ID under which a transfer is sent. A field out of its limits, or a service transfer with no source: refusal 12.
#[tactic(auto, unfolding(rules::specs::CanId::can_id_of))]
pub fn make_can_id(header: Header, payload: &[u8]) -> Result<CanId, Refusal>
    ensures { result ≡ can_id_of header payload.now }
{
    match header {
        Header::Message(message) => message_from(message, payload),
        Header::Request(service) => service_from(service, true),
        Header::Response(service) => service_from(service, false),
    }
}

// The source field of an anonymous sender: a node that is not kept for tools, from the payload's bytes.
pub fn make_pseudo_id(payload: &[u8]) -> CanNodeId
    ensures { result ≡ record { 0 = pseudo_source payload.now } }
{
    let id = CanNodeId::from_truncating(xor_all(payload));
    if id.is_diagnostic_reserved() {
        return CanNodeId(CanNodeId::MAX - 2);
    }
    id
}

fn xor_all(payload: &[u8]) -> u8
    ensures { result ≡ xor_all 0x55 payload.now }
{
    payload.iter().fold(0x55, |bits, byte| bits ^ byte)
}

fn message_from(header: MessageHeader, payload: &[u8]) -> Result<CanId, Refusal>
    ensures { result ≡ message_from header.source header.priority.0 header.subject.0 payload.now }
{
    let priority = header.priority;
    let subject = header.subject;
    match header.source {
        Some(node) => message_can_id(priority, subject, node, false),
        None => message_can_id(priority, subject, make_pseudo_id(payload), true),
    }
}

fn message_can_id(
    priority: Priority,
    subject: SubjectId,
    source: CanNodeId,
    anonymous: bool,
) -> Result<CanId, Refusal>
    ensures { result ≡ message_made priority.0 subject.0 source.0 anonymous }
{
    let priority = priority.judged()?;
    let subject = subject.judged()?;
    let source = source.judged()?;
    Ok(CanId(message_bits(priority.0, subject.0, source.0, anonymous)))
}

fn service_from(header: ServiceHeader, request: bool) -> Result<CanId, Refusal>
    ensures { result ≡ service_can_id header request }
{
    let priority = header.priority.judged()?;
    let service = header.service.judged()?;
    let destination = header.destination.judged()?;
    let source = header.source.ok_or(Refusal::Field)?.judged()?;
    Ok(CanId(service_bits(priority.0, service.0, destination.0, source.0, request)))
}

// Bits 21 and 22 are set in every message that is sent.
fn message_bits(priority: u8, subject: u16, source: u8, anonymous: bool) -> u32
    requires { (priority ≤ greatest_priority) × (subject ≤ greatest_subject) × (source ≤ greatest_node) }
    ensures { result ≡ message_id priority subject source anonymous }
{
    ((priority as u32) << 26)
        | ((anonymous as u32) << 24)
        | (1 << 22)
        | (1 << 21)
        | ((subject as u32) << 8)
        | (source as u32)
}

// Bit 25 is set in every service transfer, bit 24 in a request.
fn service_bits(priority: u8, service: u16, destination: u8, source: u8, request: bool) -> u32
    requires { (priority ≤ greatest_priority) × (service ≤ greatest_service) × (destination ≤ greatest_node) × (source ≤ greatest_node) }
    ensures { result ≡ service_id priority service destination source request }
{
    ((priority as u32) << 26)
        | (1 << 25)
        | ((request as u32) << 24)
        | ((service as u32) << 14)
        | ((destination as u32) << 7)
        | (source as u32)
}
