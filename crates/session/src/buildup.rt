// A frame's bytes join a transfer, after rx/buildup.rs.
ghost use Rattle.std.specs.Prelude.{◌≡◌, length};
ghost use Rattle.rules.specs.Session.{joined, stored};

use crate::Cell;
use rules::slots::Session;

// Lays the bytes behind the total that the part has, as far as the part reaches.
#[tactic(auto, using(crate::proofs::Parts::lent_rest, crate::proofs::Parts::stored_full))]
pub(crate) fn store(part: &mut [u8], total: usize, bytes: &[u8])
    ensures { part.new ≡ stored total bytes.now part.old }
{
    let end = part.len();
    if total < end {
        blocks::copy(bytes, &mut part[total..end]);
    }
}

impl Cell<'_> {
    // The session with a frame's bytes in it.
    #[tactic(auto, unfolding(rules::specs::Session::joined))]
    pub(crate) fn add(&self, session: Session, bytes: &[u8]) -> Session
        ensures { result ≡ joined (length self.now.part.now) session bytes.now }
    {
        let sum = session.total as usize + bytes.len();
        let total = sum.min(self.part.len() + 2);
        Session {
            expect_start: false,
            expect_toggle: !session.expect_toggle,
            crc: crc::digest_bytes(session.crc, bytes),
            total: total as u32,
            ..session
        }
    }
}
