// Headers and frames' marks in flat numbers. Any number can stand in them, and is judged behind the door.
ghost use Rattle.std.specs.Prelude.{◌≡◌};
ghost use Rattle.dolomisc.specs.Flat.{marks_from, marks_told, source_from, header_from, message_to, service_from, port_from, service_at, node_told, header_told, message_told, service_told};

use rules::frame::Marks;
use rules::header::{Header, MessageHeader, ServiceHeader};
use rules::subscription::{Port, ServicePort};
use rules::types::{CanNodeId, Priority, ServiceId, SubjectId};

// The kinds of transfer, by C's numbers.
pub const MESSAGE: u8 = 0;

pub const REQUEST: u8 = 1;

pub const RESPONSE: u8 = 2;

// In the place of a node: none.
pub const NO_NODE: u8 = 255;

// A subject that there is not. What is of no kind is for it, so that it is refused by 12 wherever it is judged, and is nobody's.
pub const NO_SUBJECT: u16 = 65535;

#[repr(C)]
#[derive(Clone, Copy, Default)]
pub struct FlatHeader {
    pub port: u16,
    pub kind: u8,
    pub priority: u8,
    pub source: u8,
    pub destination: u8,
}

#[repr(C)]
#[derive(Clone, Copy, Default)]
pub struct FlatMarks {
    pub stamp: u32,
    pub id: u32,
    pub loopback: u8,
}

impl From<FlatMarks> for Marks {
    ghost from_gives = { λ flat marks. marks ≡ marks_from flat };

    fn from(flat: FlatMarks) -> Marks {
        Marks {
            stamp: flat.stamp,
            id: flat.id,
            loopback: flat.loopback != 0,
        }
    }
}

impl From<Marks> for FlatMarks {
    ghost from_gives = { λ marks flat. flat ≡ marks_told marks };

    fn from(marks: Marks) -> FlatMarks {
        FlatMarks {
            stamp: marks.stamp,
            id: marks.id,
            loopback: marks.loopback as u8,
        }
    }
}

fn source_from(node: u8) -> Option<CanNodeId>
    ensures { result ≡ source_from node }
{
    (node != NO_NODE).then_some(CanNodeId(node))
}

impl From<FlatHeader> for Header {
    ghost from_gives = { λ flat header. header ≡ header_from flat };

    fn from(flat: FlatHeader) -> Header {
        match flat.kind {
            MESSAGE => Header::Message(message_to(flat.port, flat)),
            REQUEST => Header::Request(service_from(flat)),
            RESPONSE => Header::Response(service_from(flat)),
            _ => Header::Message(message_to(NO_SUBJECT, flat)),
        }
    }
}

fn message_to(subject: u16, flat: FlatHeader) -> MessageHeader
    ensures { result ≡ message_to subject flat }
{
    MessageHeader {
        priority: Priority(flat.priority),
        subject: SubjectId(subject),
        source: source_from(flat.source),
    }
}

fn service_from(flat: FlatHeader) -> ServiceHeader
    ensures { result ≡ service_from flat }
{
    ServiceHeader {
        priority: Priority(flat.priority),
        service: ServiceId(flat.port),
        source: source_from(flat.source),
        destination: CanNodeId(flat.destination),
    }
}

// What a subscription asks for.
pub(crate) fn port_from(kind: u8, port: u16, node: u8) -> Port
    ensures { result ≡ port_from kind port node }
{
    match kind {
        MESSAGE => Port::Message(SubjectId(port)),
        REQUEST => Port::Request(service_at(port, node)),
        RESPONSE => Port::Response(service_at(port, node)),
        _ => Port::Message(SubjectId(NO_SUBJECT)),
    }
}

fn service_at(port: u16, node: u8) -> ServicePort
    ensures { result ≡ service_at port node }
{
    ServicePort {
        service: ServiceId(port),
        node: CanNodeId(node),
    }
}

fn node_told(source: Option<CanNodeId>) -> u8
    ensures { result ≡ node_told source }
{
    source.map_or(NO_NODE, |node| node.0)
}

impl From<Header> for FlatHeader {
    ghost from_gives = { λ header flat. flat ≡ header_told header };

    fn from(header: Header) -> FlatHeader {
        match header {
            Header::Message(message) => message_told(message),
            Header::Request(request) => service_told(REQUEST, request),
            Header::Response(response) => service_told(RESPONSE, response),
        }
    }
}

fn message_told(header: MessageHeader) -> FlatHeader
    ensures { result ≡ message_told header }
{
    FlatHeader {
        port: header.subject.0,
        kind: MESSAGE,
        priority: header.priority.0,
        source: node_told(header.source),
        destination: NO_NODE,
    }
}

fn service_told(kind: u8, header: ServiceHeader) -> FlatHeader
    ensures { result ≡ service_told kind header }
{
    FlatHeader {
        port: header.service.0,
        kind,
        priority: header.priority.0,
        source: node_told(header.source),
        destination: header.destination.0,
    }
}
