// The wire: CAN IDs, tail bytes, frame lengths and the frame plan, after the original's files: lib.rs here, tx.rs, tx/breakdown.rs and rx.rs in modules
// of their names. No public function has a `requires`.
#![tactic(auto)]

ghost use Rattle.std.specs.Prelude.{◌≡◌, ◌+◌, ◌-◌, ◌/◌, ◌≤◌, ◌<◌, max};
ghost use Rattle.rules.specs.Limits.{greatest_payload, room_of};
ghost use Rattle.rules.specs.Plan.{next_length, crc_length, up_to, stats_of, planned};

use rules::data::{Mtu, PAYLOAD_MAX};
use rules::refusal::Refusal;
use rules::stats::FrameStats;

pub mod breakdown;
pub mod rx;
pub mod tx;

// The length that CAN FD has for a frame of each length from 0 to 64 bytes.
const FRAME_LENGTHS: [u8; 65] = [
    0, 1, 2, 3, 4, 5, 6, 7, 8, 12, 12, 12, 12, 16, 16, 16, 16, 20, 20, 20, 20, 24, 24, 24, 24, 32,
    32, 32, 32, 32, 32, 32, 32, 48, 48, 48, 48, 48, 48, 48, 48, 48, 48, 48, 48, 48, 48, 48, 48, 64,
    64, 64, 64, 64, 64, 64, 64, 64, 64, 64, 64, 64, 64, 64, 64,
];

// Raises a frame's length to one that a CAN FD data length code can say.
fn round_up_frame_length(length: usize) -> usize
    requires { length < 65 }
    ensures { result ≡ next_length length }
{
    FRAME_LENGTHS[length] as usize
}

// A transfer of one frame has no CRC.
fn crc_length(payload_length: usize, mtu: Mtu) -> usize
    ensures { result ≡ crc_length mtu payload_length }
{
    if payload_length < mtu.as_bytes() {
        0
    } else {
        2
    }
}

fn stats(payload_length: usize, mtu: Mtu) -> FrameStats
    requires { payload_length ≤ greatest_payload }
    ensures { result ≡ stats_of mtu payload_length }
{
    let size = mtu.as_bytes();
    let carried = payload_length + crc_length(payload_length, mtu);
    let tail_bytes = carried.div_ceil(size - 1).max(1);
    let total_length = carried + tail_bytes;
    let last_frame_length = total_length % size;
    FrameStats {
        frames: total_length.div_ceil(size),
        last_frame_padding: round_up_frame_length(last_frame_length) - last_frame_length,
    }
}

// How many frames a payload takes at this MTU, and the padding that gives the last a length that CAN FD has. A payload over the greatest: refusal 10.
pub fn calculate_frame_stats(payload_length: usize, mtu: Mtu) -> Result<FrameStats, Refusal>
    ensures { result ≡ planned mtu payload_length }
{
    if PAYLOAD_MAX < payload_length {
        return Err(Refusal::PayloadTooLong);
    }
    Ok(stats(payload_length, mtu))
}
