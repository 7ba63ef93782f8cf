// The tail byte's four fields.
use crate::types::CanTransferId;

#[derive(Clone, Copy)]
pub struct TailByte {
    pub start: bool,
    pub end: bool,
    pub toggle: bool,
    pub transfer_id: CanTransferId,
}
