// How a payload is cut into frames, after lib.rs.
#[derive(Clone, Copy)]
pub struct FrameStats {
    // all frames of the transfer
    pub frames: usize,
    // zeros behind the payload, which give the last frame a length that CAN FD has
    pub last_frame_padding: usize,
}
