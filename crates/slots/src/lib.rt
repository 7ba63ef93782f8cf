// A slot in the four words that the caller lends for it, and back. What each word and bit is for stands in specs/Words.antt, and is known here alone. No public
// function has a `requires`.
#![tactic(auto)]

ghost use Rattle.std.specs.Prelude.{◌≡◌, true, [], ◌<◌, ◌/◌, ◌%◌, ◌^◌, get_or, set};
ghost use Rattle.rules.specs.Slot.{fresh_slot};
ghost use Rattle.slots.specs.Words.{time_words, session_marks, session_words, words_of, flag_of, crc_in, last_time_in, session_in, slot_of};
ghost use Rattle.slots.specs.Middle.{session_awaits, slot_awaits, progress_in, words_on};

use rules::slots::{Session, Slot};
use rules::tail::TailByte;
use rules::types::{CanNodeId, CanTransferId};

// The memory of 128 slots.
pub type Slots = [[u32; 4]; 128];

// The last time, and its bit of the marks.
#[derive(Clone, Copy, Default)]
pub(crate) struct TimeWords {
    time: u32,
    mark: u32,
}

// The session's words, its bits of the marks among them.
#[derive(Clone, Copy, Default)]
pub(crate) struct SessionWords {
    stamp: u32,
    marks: u32,
    total: u32,
}

// How far a session is: its CRC and its byte total.
#[derive(Clone, Copy, Default)]
pub struct Progress {
    pub crc: u16,
    pub total: u32,
}

// The slot of a source; a fresh one for a node that has none.
#[tactic(auto, unfolding(crate::specs::Words::slot_of))]
pub fn load(slots: &[[u32; 4]], source: CanNodeId) -> Slot
    ensures { result ≡ slot_of (get_or slots.now source.0 []) }
{
    let own = slots.get(source.0 as usize).copied();
    unpack(own.unwrap_or([0; 4]))
}

// Writes the slot of a source; no other slot's words change, and none for a node that has no slot.
pub fn save(slots: &mut [[u32; 4]], source: CanNodeId, slot: Slot)
    ensures { slots.new ≡ set slots.old source.0 (words_of slot) }
{
    let i = source.0 as usize;
    // no `get_mut`, for whose item the library does not say what the slice ends as
    if i < slots.len() {
        slots[i] = pack(slot);
    }
}

// Whether the slot of a source expects the ID of this tail byte, with a session that has its start and awaits the toggle and the loopback flag. False for a node
// that has no slot. The bits are looked at where they lie, with no slot made of them.
#[tactic(auto, using(crate::proofs::Middle::by_marks, crate::proofs::Words::fresh_words), unfolding(crate::specs::Middle::slot_awaits, crate::specs::Words::slot_of))]
pub fn awaits(slots: &[[u32; 4]], source: CanNodeId, tail: TailByte, loopback: bool) -> bool
    ensures { result ≡ slot_awaits (slot_of (get_or slots.now source.0 [])) tail loopback }
{
    let Some(own) = slots.get(source.0 as usize) else {
        return false;
    };
    let marks = own[2];
    let transfer_id = tail.transfer_id;
    if transfer_id.0 as u32 != marks % 256 {
        return false;
    }
    marks_await(marks, loopback, tail.toggle)
}

// How far the session of a source is; whatever stands in its words where it has none, and nothing for a node that has no slot.
#[tactic(auto, unfolding(crate::specs::Middle::progress_in))]
pub fn so_far(slots: &[[u32; 4]], source: CanNodeId) -> Progress
    ensures { result ≡ progress_in (get_or slots.now source.0 []) }
{
    let Some(&[_, _, marks, total]) = slots.get(source.0 as usize) else {
        return Progress::default();
    };
    Progress {
        crc: crc_in(marks),
        total,
    }
}

// The session of a source is this far, has its start and awaits the other toggle. Nothing else of the slot changes, and no other slot's words; nothing at all
// where there is no session, or for a node that has no slot.
#[tactic(auto, using(crate::proofs::Middle::all_kept))]
pub fn advance(slots: &mut [[u32; 4]], source: CanNodeId, progress: Progress)
    ensures { slots.new ≡ set slots.old source.0 (words_on (get_or slots.old source.0 []) progress) }
{
    let i = source.0 as usize;
    let Some(&own) = slots.get(i) else {
        return;
    };
    if flag(own[2] / 512) {
        // By its index, as in `save`.
        slots[i] = words_on(own, progress);
    }
}

#[tactic(auto, unfolding(crate::specs::Words::words_of))]
fn pack(slot: Slot) -> [u32; 4]
    ensures { result ≡ words_of slot }
{
    let t = time_words(slot.last_time);
    let s = session_words(slot.session);
    let marks = s.marks + t.mark + slot.expected.0 as u32;
    [t.time, s.stamp, marks, s.total]
}

fn time_words(last_time: Option<u32>) -> TimeWords
    ensures { (result ≡ time_words last_time) × (result.mark < 257) }
{
    match last_time {
        None => TimeWords::default(),
        Some(time) => TimeWords { time, mark: 256 },
    }
}

fn session_words(session: Option<Session>) -> SessionWords
    ensures { (result ≡ session_words session) × (result.marks < 2 ^ 32) × (result.marks % 512 ≡ 0) }
{
    match session {
        None => SessionWords::default(),
        Some(s) => SessionWords {
            stamp: s.stamp,
            marks: session_marks(s),
            total: s.total,
        },
    }
}

fn session_marks(s: Session) -> u32
    ensures { (result ≡ session_marks s) × (result < 2 ^ 32) × (result % 512 ≡ 0) }
{
    ((s.crc as u32) << 16)
        | ((s.expect_toggle as u32) << 12)
        | ((s.expect_start as u32) << 11)
        | ((s.loopback as u32) << 10)
        | 512
}

#[tactic(auto, unfolding(crate::specs::Words::slot_of))]
fn unpack(words: [u32; 4]) -> Slot
    ensures { result ≡ slot_of words }
{
    let [time, stamp, marks, total] = words;
    Slot {
        expected: CanTransferId((marks % 256) as u8),
        last_time: last_time_in(time, marks),
        session: session_in(stamp, marks, total),
    }
}

// The CRC in a slot's marks.
fn crc_in(marks: u32) -> u16
    ensures { result ≡ crc_in marks }
{
    (marks / 65536 % 65536) as u16
}

fn last_time_in(time: u32, marks: u32) -> Option<u32>
    ensures { result ≡ last_time_in time marks }
{
    flag(marks / 256).then_some(time)
}

fn session_in(stamp: u32, marks: u32, total: u32) -> Option<Session>
    ensures { result ≡ session_in stamp marks total }
{
    flag(marks / 512).then_some(Session {
        stamp,
        loopback: flag(marks / 1024),
        expect_start: flag(marks / 2048),
        expect_toggle: flag(marks / 4096),
        crc: crc_in(marks),
        total,
    })
}

fn flag(n: u32) -> bool
    ensures { result ≡ flag_of n }
{
    n % 2 == 1
}

// Of the bits from the session's own on, each is as awaited: set, the loopback flag, no start, the toggle.
fn marks_await(marks: u32, loopback: bool, toggle: bool) -> bool
    ensures { result ≡ session_awaits (session_in 0 marks 0) loopback toggle }
{
    let bits = marks / 512 % 16;
    bits == 1 + 2 * (loopback as u32) + 8 * (toggle as u32)
}

#[tactic(auto, using(crate::proofs::Middle::kept, crate::proofs::Middle::words_on_lem))]
fn words_on(words: [u32; 4], progress: Progress) -> [u32; 4]
    requires { flag_of (get_or words 2 0 / 512) ≡ true }
    ensures { result ≡ words_on words progress }
{
    let [time, stamp, marks, _] = words;
    let kept = last_time_in(time, marks).unwrap_or(0);
    let toggle = 1 - marks / 4096 % 2;
    let loopback = marks / 1024 % 2;
    let next = progress.crc as u32 * 65536 + 4096 * toggle + 1024 * loopback + 512 + marks % 512;
    [kept, stamp, next, progress.total]
}
