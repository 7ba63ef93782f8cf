// What a subscription asks for.
use crate::types::{CanNodeId, ServiceId, SubjectId};

// A service at this node, to which its transfers go.
#[derive(Clone, Copy)]
pub struct ServicePort {
    pub service: ServiceId,
    pub node: CanNodeId,
}

// The kind of transfer and its port. Any number can stand in it, and is judged at making.
#[derive(Clone, Copy)]
pub enum Port {
    Message(SubjectId),
    Request(ServicePort),
    Response(ServicePort),
}

#[derive(Clone, Copy)]
pub struct Settings {
    pub port: Port,
    // in microseconds: how long a transfer ID that comes again is taken for a repeat
    pub timeout: u32,
    // the greatest number of payload bytes that are kept of a transfer
    pub extent: u16,
}
