// The ring of the lent places: where the k-th frame stands, and how a gap for one more is made.
ghost use Rattle.std.specs.Prelude.{◌≡◌, ℕ, suc, ◌≤◌, ◌<◌, length};
ghost use Rattle.rules.specs.Limits.{greatest_capacity};
ghost use Rattle.rules.specs.Queue.{pushed, returned};
ghost use Rattle.queue.specs.Ring.{slot_of, one_back, at};
ghost use Rattle.queue.specs.Room.{Opened};

use crate::{Place, place};

// The first `cap` of the lent places, counted from `head` on; behind the last of them comes the first again.
#[derive(Clone, Copy)]
pub(crate) struct Ring {
    pub(crate) head: usize,
    pub(crate) cap: usize,
    ghost inside: { head < cap },
    ghost small: { cap ≤ greatest_capacity },
}

impl Ring {
    // The index of the k-th place.
    #[tactic(auto, unfolding(crate::specs::Ring::slot_of))]
    pub(crate) fn slot(self, k: usize) -> usize
        requires { k ≤ self.cap }
        ensures { (result ≡ slot_of self.head self.cap k) × (result < self.cap) }
    {
        let p = self.head + k;
        if p < self.cap {
            return p;
        }
        p - self.cap
    }

    // The index of the place behind that at p.
    fn after(self, p: usize) -> usize
        requires { p < self.cap }
        ensures { (result ≡ slot_of p self.cap 1) × (result < self.cap) }
    {
        Ring {
            head: p,
            cap: self.cap,
        }
        .slot(1)
    }

    // The index of the place before that at p.
    #[tactic(auto, unfolding(crate::specs::Ring::slot_of))]
    pub(crate) fn before(self, p: usize) -> usize
        requires { p < self.cap }
        ensures { (result ≡ one_back p self.cap) × (result < self.cap) }
    {
        if p == 0 {
            return self.cap - 1;
        }
        p - 1
    }

    // Moves the frames whose ID is above id one place further, from the last on, and returns which place is free then.
    pub(crate) fn make_room(self, places: &mut [Place], n: usize, id: u32) -> usize
        requires { (n < self.cap) × (self.cap ≤ length places.old) }
        ensures { Opened pushed self.head self.cap n id places.old (at self.head self.cap places.old) places.new result }
    {
        let mut p = self.slot(n);
        for j in (0..n).rev() {
            let q = self.before(p);
            if place::id_of(&places[q]) <= id {
                return j + 1;
            }
            places[p] = places[q];
            p = q;
        }
        0
    }

    // Moves the frames whose ID is below id one place nearer to the head, where a place is free, from the first on, and returns which place is free then.
    pub(crate) fn draw_up(self, places: &mut [Place], n: usize, id: u32) -> usize
        requires { (n < self.cap) × (self.cap ≤ length places.old) }
        ensures { Opened returned self.head self.cap n id places.old (λ (k : ℕ). at self.head self.cap places.old (suc k)) places.new result }
    {
        let mut p = self.head;
        for j in 0..n {
            let q = self.after(p);
            if id <= place::id_of(&places[q]) {
                return j;
            }
            places[p] = places[q];
            p = q;
        }
        n
    }
}
