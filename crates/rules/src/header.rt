// Who sends a transfer, to which port, and how urgent it is.
use crate::types::{CanNodeId, Priority, ServiceId, SubjectId};

#[derive(Clone, Copy)]
pub struct MessageHeader {
    pub priority: Priority,
    pub subject: SubjectId,
    pub source: Option<CanNodeId>,
}

// A service transfer must have a source; one without is taken, and refused by 12.
#[derive(Clone, Copy)]
pub struct ServiceHeader {
    pub priority: Priority,
    pub service: ServiceId,
    // as far from the start as in a message's header, so that it is read from one place
    pub source: Option<CanNodeId>,
    pub destination: CanNodeId,
}

#[derive(Clone, Copy)]
pub enum Header {
    Message(MessageHeader),
    Request(ServiceHeader),
    Response(ServiceHeader),
}
