// A received frame, and what a receiver answers to it where it does not refuse it.
use crate::header::Header;
use crate::tail::TailByte;
use crate::types::CanTransferId;

// A frame whose CAN ID and tail byte are read; its bytes before the tail stand beside it in a slice.
#[derive(Clone, Copy)]
pub struct Arrival {
    pub header: Header,
    pub tail: TailByte,
    pub stamp: u32,
    pub loopback: bool,
}

// Where the bytes of a delivery lie: at the front of the frame, or in the store.
#[derive(Clone, Copy)]
pub enum Part {
    OfFrame { len: usize },
    OfStore { start: usize, len: usize },
}

#[derive(Clone, Copy)]
pub struct Delivery {
    // of the last frame
    pub header: Header,
    pub transfer_id: CanTransferId,
    // of the first frame
    pub stamp: u32,
    pub loopback: bool,
    pub part: Part,
}

#[derive(Clone, Copy)]
pub enum Received {
    Delivered(Delivery),
    Nothing,
    NotOurs,
}
