// What a frame bears besides its bytes, which stand beside it in a slice.
#[derive(Clone, Copy, PartialEq, Eq)]
pub struct Marks {
    // in microseconds, of 32 bits
    pub stamp: u32,
    // the CAN ID; any number can stand here, and is judged where the frame is used
    pub id: u32,
    pub loopback: bool,
}
