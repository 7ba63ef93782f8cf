// Sending, after tx.rs: a transfer is judged, cut into frames, and put into the queue, all or none. The queue is known by its promises alone. No public
// function has a `requires`.
#![tactic(auto)]

ghost use Rattle.std.specs.Prelude.{◌≡◌, ◌-◌, Err, Ok};
ghost use Rattle.rules.specs.Sending.{counted};
ghost use Rattle.tx.specs.Send.{counts_of, with_counts, verdict, Sends};

use queue::{ArrayQueue, Place};
use rules::frame::Marks;
use rules::refusal::Refusal;
use rules::send::{Outgoing, Transfer};

mod breakdown;
mod judge;
mod put;

#[repr(C)]
#[derive(Clone, Copy)]
pub struct CanTransmitter {
    // the bytes of a frame, the tail byte with them; any number can stand here
    pub mtu: usize,
    // sends done and sends refused, which wrap to 0
    pub transfer_count: u64,
    pub error_count: u64,
}

// The transmitter and the queue after a send, and the answer.
#[derive(Clone, Copy)]
pub struct Sent {
    pub transmitter: CanTransmitter,
    pub queue: ArrayQueue,
    pub answer: Result<(), Refusal>,
}

impl CanTransmitter {
    // A transmitter that has sent nothing. An MTU that is neither 8 nor 64 is taken, and each send then refused by 9.
    pub fn new(mtu: usize) -> Self
        ensures { result ≡ record { mtu = mtu; transfer_count = 0; error_count = 0 } }
    {
        CanTransmitter {
            mtu,
            transfer_count: 0,
            error_count: 0,
        }
    }

    // Sets the MTU for the sends that follow.
    pub fn set_mtu(self, mtu: usize) -> Self
        ensures { result ≡ record { mtu = mtu; transfer_count = self.transfer_count; error_count = self.error_count } }
    {
        CanTransmitter { mtu, ..self }
    }

    // The bytes before a tail byte; 0 for an MTU of 0.
    pub fn mtu(self) -> usize
        ensures { result ≡ self.mtu - 1 }
    {
        self.mtu.saturating_sub(1)
    }

    pub fn transfer_count(self) -> u64
        ensures { result ≡ self.transfer_count }
    {
        self.transfer_count
    }

    pub fn error_count(self) -> u64
        ensures { result ≡ self.error_count }
    {
        self.error_count
    }

    // Puts all frames of a transfer into the queue, or none. Refuses by 9, 12, 10, 11, 13; the queue and the lent places are then unchanged. One of the two counts
    // steps by one.
    pub fn push(
        self,
        queue: ArrayQueue,
        places: &mut [Place],
        transfer: Transfer,
        payload: &[u8],
    ) -> Sent
        ensures { Sends (verdict self queue places.old transfer payload.now) self queue places.old transfer payload.now result places.new }
    {
        match self.verdict(queue, places, transfer, payload) {
            Err(refusal) => self.refused(queue, refusal),
            Ok(outgoing) => {
                let marks = Marks {
                    stamp: transfer.stamp,
                    id: outgoing.id.0,
                    loopback: transfer.loopback,
                };
                let filled = put::transfer(
                    queue,
                    places,
                    marks,
                    transfer.transfer_id,
                    outgoing,
                    payload,
                );
                self.done(filled, outgoing)
            }
        }
    }

    // How the transfer goes out, which has a place for each of its frames.
    fn verdict(
        self,
        queue: ArrayQueue,
        places: &[Place],
        transfer: Transfer,
        payload: &[u8],
    ) -> Result<Outgoing, Refusal>
        ensures { result ≡ verdict self queue places.now transfer payload.now }
    {
        let outgoing = judge::judge(self.mtu, transfer, payload)?;
        queue.try_reserve(places, outgoing.stats.frames)?;
        Ok(outgoing)
    }

    fn done(self, queue: ArrayQueue, outgoing: Outgoing) -> Sent
        ensures { result ≡ record { transmitter = with_counts self (counted (Ok outgoing) (counts_of self)); queue = queue; answer = Ok tt } }
    {
        Sent {
            transmitter: CanTransmitter {
                transfer_count: self.transfer_count.wrapping_add(1),
                ..self
            },
            queue,
            answer: Ok(()),
        }
    }

    fn refused(self, queue: ArrayQueue, refusal: Refusal) -> Sent
        ensures { result ≡ record { transmitter = with_counts self (counted (Err refusal) (counts_of self)); queue = queue; answer = Err refusal } }
    {
        Sent {
            transmitter: CanTransmitter {
                error_count: self.error_count.wrapping_add(1),
                ..self
            },
            queue,
            answer: Err(refusal),
        }
    }
}
