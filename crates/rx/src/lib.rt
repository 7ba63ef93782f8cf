// Receiving, after the original's files: rx/subscription.rs in the module of its name, rx/session.rs and rx/buildup.rs in crate `session`, and in lib.rt the bytes
// that an answer names. The caller lends 128 slots and the store with each call. No public function has a `requires`.
#![tactic(auto)]

ghost use Rattle.std.specs.Prelude.{◌≡◌};
ghost use Rattle.rules.specs.Answers.{answer_of, leading, part_shown, shown};

use rules::receive::{Part, Received};
use rules::refusal::Refusal;

mod middle;
pub mod subscription;

// The bytes that an answer names, where they lie: a part of the frame that was answered, or of the store as that call left it. An empty part where the answer
// names none, or names more than there is.
pub fn payload<'a>(answer: Result<Received, Refusal>, frame: &'a [u8], store: &'a [u8]) -> &'a [u8]
    ensures { result.now ≡ shown (answer_of answer) frame.now store.now }
{
    match answer {
        Ok(Received::Delivered(delivery)) => part_shown(delivery.part, frame, store),
        _ => &frame[..0],
    }
}

fn part_shown<'a>(part: Part, frame: &'a [u8], store: &'a [u8]) -> &'a [u8]
    ensures { result.now ≡ part_shown part frame.now store.now }
{
    match part {
        Part::OfFrame { len } => leading_part(frame, len),
        Part::OfStore { start, len } => {
            leading_part(store.get(start..).unwrap_or(&store[..0]), len)
        }
    }
}

// The leading part of len bytes, uncopied; an empty one where there are not so many.
fn leading_part<'a>(bytes: &'a [u8], len: usize) -> &'a [u8]
    ensures { result.now ≡ leading len bytes.now }
{
    bytes.get(..len).unwrap_or(&bytes[..0])
}
