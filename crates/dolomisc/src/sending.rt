// The doors of the transmitter, of the tracker and of the frame plan.
ghost use Rattle.std.specs.Prelude.{◌≡◌, ◌-◌};
ghost use Rattle.rules.specs.Limits.{tried_mtu};
ghost use Rattle.rules.specs.Tracker.{fresh_numbers};
ghost use Rattle.tracker.specs.Row.{row_of, asked};
ghost use Rattle.dolomisc.specs.Doors.{transfer_from, verdict_through, SentThrough, given_told, plan_told, planned_for};

use crate::answers::{self, Answer};
use crate::headers::FlatHeader;
use queue::{ArrayQueue, Place};
use rules::data::Mtu;
use rules::refusal::Refusal;
use rules::send::Transfer;
use rules::stats::FrameStats;
use rules::types::{CanNodeId, CanTransferId};
use tracker::CanTransferIdTracker;
use tx::CanTransmitter;

#[repr(C)]
#[derive(Clone, Copy)]
pub struct FlatTransfer {
    pub header: FlatHeader,
    pub transfer_id: u8,
    pub loopback: u8,
    pub stamp: u32,
}

// A transfer ID, or why there is none.
#[repr(C)]
#[derive(Clone, Copy, Default)]
pub struct Given {
    pub what: u8,
    pub refusal: u8,
    pub transfer_id: u8,
}

// The plan of a payload, or why there is none.
#[repr(C)]
#[derive(Clone, Copy, Default)]
pub struct Plan {
    pub frames: usize,
    pub padding: usize,
    pub what: u8,
    pub refusal: u8,
}

// As CanTransmitter::new.
#[unsafe(no_mangle)]
pub extern "C" fn dolomisc_transmitter_new(transmitter: &mut CanTransmitter, mtu: usize)
    ensures { transmitter.new ≡ record { mtu = mtu; transfer_count = 0; error_count = 0 } }
{
    *transmitter = CanTransmitter::new(mtu);
}

// As CanTransmitter::set_mtu.
#[unsafe(no_mangle)]
pub extern "C" fn dolomisc_transmitter_set_mtu(transmitter: &mut CanTransmitter, mtu: usize)
    ensures { transmitter.new ≡ record { mtu = mtu; transfer_count = transmitter.old.transfer_count; error_count = transmitter.old.error_count } }
{
    *transmitter = transmitter.set_mtu(mtu);
}

// As CanTransmitter::mtu.
#[unsafe(no_mangle)]
pub extern "C" fn dolomisc_transmitter_mtu(transmitter: &CanTransmitter) -> usize
    ensures { result ≡ transmitter.now.mtu - 1 }
{
    transmitter.mtu()
}

// As CanTransmitter::transfer_count.
#[unsafe(no_mangle)]
pub extern "C" fn dolomisc_transmitter_transfer_count(transmitter: &CanTransmitter) -> u64
    ensures { result ≡ transmitter.now.transfer_count }
{
    transmitter.transfer_count()
}

// As CanTransmitter::error_count.
#[unsafe(no_mangle)]
pub extern "C" fn dolomisc_transmitter_error_count(transmitter: &CanTransmitter) -> u64
    ensures { result ≡ transmitter.now.error_count }
{
    transmitter.error_count()
}

// As CanTransmitter::push.
#[unsafe(no_mangle)]
pub extern "C" fn dolomisc_transmitter_push(
    transmitter: &mut CanTransmitter,
    queue: &mut ArrayQueue,
    places: &mut [Place],
    transfer: FlatTransfer,
    payload: &[u8],
) -> Answer
    ensures { SentThrough (verdict_through transmitter.old queue.old places.old transfer payload.now) transmitter.old queue.old places.old transfer payload.now result transmitter.new queue.new places.new }
{
    let sent = transmitter.push(*queue, places, transfer.into(), payload);
    *transmitter = sent.transmitter;
    *queue = sent.queue;
    sent.answer.into()
}

impl From<FlatTransfer> for Transfer {
    ghost from_gives = { λ flat transfer. transfer ≡ transfer_from flat };

    fn from(flat: FlatTransfer) -> Transfer {
        Transfer {
            header: flat.header.into(),
            transfer_id: CanTransferId(flat.transfer_id),
            stamp: flat.stamp,
            loopback: flat.loopback != 0,
        }
    }
}

// As CanTransferIdTracker::new.
#[unsafe(no_mangle)]
pub extern "C" fn dolomisc_tracker_new(tracker: &mut CanTransferIdTracker)
    ensures { tracker.new ≡ row_of fresh_numbers }
{
    *tracker = CanTransferIdTracker::new();
}

// As CanTransferIdTracker::next_transfer_id.
#[unsafe(no_mangle)]
pub extern "C" fn dolomisc_tracker_next_transfer_id(
    tracker: &mut CanTransferIdTracker,
    destination: u8,
) -> Given
    ensures value { result ≡ given_told (asked tracker.old destination).answer }
    ensures tracker_after { tracker.new ≡ (asked tracker.old destination).tracker }
{
    let asked = tracker.next_transfer_id(CanNodeId(destination));
    *tracker = asked.tracker;
    asked.answer.into()
}

impl From<Result<CanTransferId, Refusal>> for Given {
    ghost from_gives = { λ answer given. given ≡ given_told answer };

    fn from(answer: Result<CanTransferId, Refusal>) -> Given {
        match answer {
            Ok(id) => Given {
                what: answers::DONE,
                refusal: 0,
                transfer_id: id.0,
            },
            Err(refusal) => Given {
                what: answers::REFUSED,
                refusal: refusal.number(),
                ..Given::default()
            },
        }
    }
}

// As calculate_frame_stats: the frames that a payload of so many bytes takes, which is the number of free places that it needs. Refuses by 9, 10.
#[unsafe(no_mangle)]
pub extern "C" fn dolomisc_frame_stats(payload_length: usize, mtu: usize) -> Plan
    ensures { result ≡ planned_for payload_length (tried_mtu mtu) }
{
    Mtu::try_from(mtu)
        .and_then(|size| wire::calculate_frame_stats(payload_length, size))
        .into()
}

impl From<Result<FrameStats, Refusal>> for Plan {
    ghost from_gives = { λ planned plan. plan ≡ plan_told planned };

    fn from(planned: Result<FrameStats, Refusal>) -> Plan {
        match planned {
            Ok(stats) => Plan {
                frames: stats.frames,
                padding: stats.last_frame_padding,
                what: answers::DONE,
                refusal: 0,
            },
            Err(refusal) => Plan {
                what: answers::REFUSED,
                refusal: refusal.number(),
                ..Plan::default()
            },
        }
    }
}
