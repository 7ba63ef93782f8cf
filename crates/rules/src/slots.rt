// What a subscription keeps of each source, after rx/subscription.rs, rx/session.rs and rx/buildup.rs.
use crate::types::CanTransferId;

// A transfer of several frames that is under way.
#[derive(Clone, Copy)]
pub struct Session {
    // of its first frame
    pub stamp: u32,
    pub loopback: bool,
    // what the next frame must have
    pub expect_start: bool,
    pub expect_toggle: bool,
    // over all bytes so far
    pub crc: u16,
    // the number of bytes so far, which stops at two over the extent
    pub total: u32,
}

#[derive(Clone, Copy)]
pub struct Slot {
    pub expected: CanTransferId,
    pub last_time: Option<u32>,
    pub session: Option<Session>,
}
