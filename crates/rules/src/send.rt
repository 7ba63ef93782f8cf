// A transfer to be sent.
use crate::data::{CanId, Mtu};
use crate::header::Header;
use crate::stats::FrameStats;
use crate::types::CanTransferId;

// A transfer; its payload stands beside it in a slice.
#[derive(Clone, Copy)]
pub struct Transfer {
    pub header: Header,
    pub transfer_id: CanTransferId,
    // borne by each of its frames
    pub stamp: u32,
    pub loopback: bool,
}

// How a transfer goes out: in frames of this size, under this ID, by this plan.
#[derive(Clone, Copy)]
pub struct Outgoing {
    pub mtu: Mtu,
    pub id: CanId,
    pub stats: FrameStats,
}
