// What a door answers: what happened, and the number of a refusal.
ghost use Rattle.std.specs.Prelude.{◌≡◌};
ghost use Rattle.dolomisc.specs.Flat.{told};

use rules::refusal::Refusal;

// What happened, by C's numbers. A refusal's number stands beside it, and is 0 where nothing is refused.
pub const DONE: u8 = 0;

pub const DELIVERED: u8 = 1;

pub const NOTHING: u8 = 2;

pub const NOT_OURS: u8 = 3;

pub const REFUSED: u8 = 4;

#[repr(C)]
#[derive(Clone, Copy)]
pub struct Answer {
    pub what: u8,
    pub refusal: u8,
}

impl<T: Drop> From<Result<T, Refusal>> for Answer {
    ghost from_gives = { λ done answer. answer ≡ told done };

    fn from(done: Result<T, Refusal>) -> Answer {
        match done {
            Ok(_) => Answer {
                what: DONE,
                refusal: 0,
            },
            Err(refusal) => Answer {
                what: REFUSED,
                refusal: refusal.number(),
            },
        }
    }
}
