// A frame at its source's slot, after rx/session.rs and rx/buildup.rs: what the slot becomes, what its part of the store gets, and the answer. Where the slot and
// the part lie, and how many there are, is not known here. No public function has a `requires`.
#![tactic(auto)]

ghost use Rattle.std.specs.Prelude.{◌≡◌, ◌<◌, length, Ok, Err, Some, None};
ghost use Rattle.rules.specs.Slot.{with_session, settled};
ghost use Rattle.rules.specs.Session.{opened, session_for, awaits, complete};
ghost use Rattle.rules.specs.Source.{leaves, delivered_at, single, ended, continued, in_session, goes_on};
ghost use Rattle.rules.specs.Answers.{answer_of};
ghost use Rattle.session.specs.Turns.{turn_of, went_on};

use rules::receive::{Arrival, Delivery, Part, Received};
use rules::refusal::Refusal;
use rules::slots::{Session, Slot};

mod buildup;

// The greatest part: an extent is a number of 16 bits.
const PART_MAX: usize = 0xFFFF;

// The slot afterwards, and the answer; a delivery's bytes in the store are counted from the start of the part.
#[derive(Clone, Copy)]
pub struct Step {
    pub slot: Slot,
    pub answer: Result<Received, Refusal>,
}

// What a source has: its part of the store, which is lent, and its slot. An extent is a number of 16 bits, so that no part is longer.
#[derive(Drop)]
struct Cell<'a> {
    part: &'a mut [u8],
    slot: Slot,
    ghost small: { length part.now < 65536 },
}

// A frame that the ID rule let through. Refuses a part over PART_MAX by 8; slot and part are then unchanged.
pub fn go_on(slot: Slot, part: &mut [u8], arrival: Arrival, bytes: &[u8]) -> Step
    ensures { turn_of result part.new ≡ went_on slot part.old arrival bytes.now }
{
    if PART_MAX < part.len() {
        return Step {
            slot,
            answer: Err(Refusal::ExtentTooLarge),
        };
    }
    let mut cell = Cell { part, slot };
    cell.take(arrival, bytes)
}

// Arrival and bytes stay two parameters: in one struct they take more instructions (199 and 534 for 7 bytes at MTU 8 and 64 at MTU 64, and not 196 and 520).
impl Cell<'_> {
    // By `same_part` the lender knows that this is still the part that it lent.
    #[tactic(auto, unfolding(rules::specs::Source::goes_on))]
    fn take(&mut self, arrival: Arrival, bytes: &[u8]) -> Step
        ensures same_part { self.new.part.ghost_name ≡ self.old.part.ghost_name }
        ensures turn { turn_of result self.new.part.now ≡ goes_on self.old.slot self.old.part.now arrival bytes.now }
    {
        let tail = arrival.tail;
        if tail.start && tail.end {
            return self.whole(arrival, bytes);
        }
        match session_for(self.slot.session, arrival) {
            Some(session) => self.accept(arrival, bytes, session),
            None => Step {
                slot: self.slot,
                answer: Err(Refusal::NoSession),
            },
        }
    }

    // A transfer of one frame, whatever its toggle, its loopback flag or an open session.
    fn whole(&self, arrival: Arrival, bytes: &[u8]) -> Step
        ensures { turn_of result self.now.part.now ≡ single self.now.slot self.now.part.now arrival bytes.now }
    {
        let len = self.part.len().min(bytes.len());
        let delivery = deliver(
            arrival,
            arrival.stamp,
            arrival.loopback,
            Part::OfFrame { len },
        );
        Step {
            slot: settle(self.slot, arrival.stamp),
            answer: Ok(delivery),
        }
    }

    // A frame comes to a session.
    #[tactic(auto, unfolding(rules::specs::Source::in_session))]
    fn accept(&mut self, arrival: Arrival, bytes: &[u8], session: Session) -> Step
        ensures same_part { self.new.part.ghost_name ≡ self.old.part.ghost_name }
        ensures turn { turn_of result self.new.part.now ≡ in_session self.old.slot self.old.part.now arrival bytes.now session }
    {
        if !awaited(session, arrival) {
            return hold(self.slot, session);
        }
        buildup::store(self.part, session.total as usize, bytes);
        let joined = self.add(session, bytes);
        self.go_on_or_end(arrival, joined)
    }

    // The session and the part have the frame's bytes.
    #[tactic(auto, unfolding(rules::specs::Source::continued))]
    fn go_on_or_end(&self, arrival: Arrival, session: Session) -> Step
        ensures { turn_of result self.now.part.now ≡ continued self.now.slot self.now.part.now arrival session }
    {
        if arrival.tail.end {
            return self.end(arrival, session);
        }
        hold(self.slot, session)
    }

    // The end bit: what came before the CRC is delivered, up to the extent, or the session is dropped.
    #[tactic(auto, unfolding(rules::specs::Source::ended))]
    fn end(&self, arrival: Arrival, session: Session) -> Step
        ensures { turn_of result self.now.part.now ≡ ended self.now.slot self.now.part.now arrival session }
    {
        if session.crc != 0 || session.total < 2 {
            return drop_session(self.slot);
        }
        let len = self.part.len().min(session.total as usize - 2);
        let delivery = deliver(
            arrival,
            session.stamp,
            session.loopback,
            Part::OfStore { start: 0, len },
        );
        Step {
            slot: settle(self.slot, session.stamp),
            answer: Ok(delivery),
        }
    }
}

// The session that a frame comes to: the open one, or one that it opens if it is a start.
fn session_for(session: Option<Session>, arrival: Arrival) -> Option<Session>
    ensures { result ≡ session_for session arrival }
{
    session.or_else(|| arrival.tail.start.then_some(open(arrival)))
}

fn open(arrival: Arrival) -> Session
    ensures { result ≡ opened arrival }
{
    Session {
        stamp: arrival.stamp,
        loopback: arrival.loopback,
        expect_start: true,
        expect_toggle: true,
        crc: crc::INITIAL,
        total: 0,
    }
}

fn awaited(session: Session, arrival: Arrival) -> bool
    ensures { result ≡ awaits session arrival }
{
    session.loopback == arrival.loopback
        && session.expect_start == arrival.tail.start
        && session.expect_toggle == arrival.tail.toggle
}

// A residue other than 0: the expected ID and the last time are kept.
fn drop_session(slot: Slot) -> Step
    ensures { result ≡ record { slot = with_session slot None; answer = Err Refusal.Residue } }
{
    Step {
        slot: with_session(slot, None),
        answer: Err(Refusal::Residue),
    }
}

// Nothing to deliver yet.
fn hold(slot: Slot, session: Session) -> Step
    ensures { result ≡ record { slot = with_session slot (Some session); answer = Ok Received.Nothing } }
{
    Step {
        slot: with_session(slot, Some(session)),
        answer: Ok(Received::Nothing),
    }
}

// The slot with another session, or with none.
fn with_session(slot: Slot, session: Option<Session>) -> Slot
    ensures { result ≡ with_session slot session }
{
    Slot { session, ..slot }
}

// The slot after a delivery: its ID steps, and its session is dropped.
fn settle(slot: Slot, time: u32) -> Slot
    ensures { result ≡ settled slot time }
{
    Slot {
        expected: slot.expected.increment(),
        last_time: Some(time),
        session: None,
    }
}

// A delivery with the header and the transfer ID of this frame.
pub fn deliver(arrival: Arrival, stamp: u32, loopback: bool, part: Part) -> Received
    ensures { answer_of (Ok result) ≡ delivered_at arrival stamp loopback part }
{
    Received::Delivered(Delivery {
        header: arrival.header,
        transfer_id: arrival.tail.transfer_id,
        stamp,
        loopback,
        part,
    })
}
