// Headers as words: the kind, the priority, the source and the destination in four bytes, and the port in two.
use rules::header::{Header, MessageHeader, ServiceHeader};
use rules::types::{CanNodeId, Priority, ServiceId, SubjectId};

// 255 stands for no node.
const NO_NODE: u8 = 255;

fn source(node: u8) -> Option<CanNodeId> {
    (node != NO_NODE).then_some(CanNodeId(node))
}

fn source_number(source: Option<CanNodeId>) -> u8 {
    source.map_or(NO_NODE, |node| node.0)
}

// What is transferred, numbered as in the list.
#[derive(Clone, Copy)]
pub(crate) enum Kind {
    Message,
    Request,
    Response,
}

impl From<u8> for Kind {
    fn from(number: u8) -> Self {
        match number {
            0 => Kind::Message,
            1 => Kind::Request,
            // 2 in the list, which has no number above; those are read as 2 is
            _ => Kind::Response,
        }
    }
}

// The header of a word and a port.
pub(crate) fn made(word: u32, port: u16) -> Header {
    let [kind, priority, from, destination] = word.to_le_bytes();
    let priority = Priority(priority);
    let source = source(from);
    let message = MessageHeader {
        priority,
        subject: SubjectId(port),
        source,
    };
    let service = ServiceHeader {
        priority,
        service: ServiceId(port),
        source,
        destination: CanNodeId(destination),
    };
    match Kind::from(kind) {
        Kind::Message => Header::Message(message),
        Kind::Request => Header::Request(service),
        Kind::Response => Header::Response(service),
    }
}

// The word of a header.
pub(crate) fn word(header: Header) -> u32 {
    let (kind, priority, source, destination) = match header {
        Header::Message(message) => (Kind::Message, message.priority, message.source, NO_NODE),
        Header::Request(request) => (
            Kind::Request,
            request.priority,
            request.source,
            request.destination.0,
        ),
        Header::Response(response) => (
            Kind::Response,
            response.priority,
            response.source,
            response.destination.0,
        ),
    };
    u32::from_le_bytes([kind as u8, priority.0, source_number(source), destination])
}

// The port of a header.
pub(crate) fn port(header: Header) -> u16 {
    match header {
        Header::Message(message) => message.subject.0,
        Header::Request(service) | Header::Response(service) => service.service.0,
    }
}
