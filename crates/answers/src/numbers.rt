// Plans and the tracker.
use crate::record::{Answer, Record};
use rules::data::Mtu;
use rules::stats::FrameStats;
use rules::types::{CanNodeId, CanTransferId};
use tracker::CanTransferIdTracker;

// The plan of a payload, if there is one.
fn plan(length: usize, mtu: usize) -> Option<FrameStats> {
    let mtu = Mtu::try_from(mtu).ok()?;
    wire::calculate_frame_stats(length, mtu).ok()
}

pub(crate) fn is_plan(record: &Record) -> bool {
    let [length, mtu, _, _, frames, padding, _] = record.words;
    record.tells(Answer::Done)
        && plan(length as usize, mtu as usize).is_some_and(|stats| {
            stats.frames == frames as usize && stats.last_frame_padding == padding as usize
        })
}

// The tracker, and whether its answers are the original's.
#[derive(Clone, Copy)]
pub(crate) struct Numbers {
    tracker: CanTransferIdTracker,
}

impl Numbers {
    pub fn new() -> Self {
        Numbers {
            tracker: CanTransferIdTracker::new(),
        }
    }

    pub fn renew(&mut self, record: &Record) -> bool {
        let is_done = record.tells(Answer::Done);
        if is_done {
            *self = Numbers::new();
        }
        is_done
    }

    // The number that the tracker gives a destination, if it gives one.
    fn next(&mut self, destination: CanNodeId) -> Option<CanTransferId> {
        let asked = self.tracker.next_transfer_id(destination);
        self.tracker = asked.tracker;
        asked.answer.ok()
    }

    pub fn is_next(&mut self, record: &Record) -> bool {
        let [destination, _, _, _, wanted, ..] = record.words;
        let [node, ..] = destination.to_le_bytes();
        record.tells(Answer::Done)
            && self
                .next(CanNodeId(node))
                .is_some_and(|id| u32::from(id.0) == wanted)
    }
}
