// How many answers were the original's, call by call.
use crate::call::Call;
use std::fmt::Display;
use std::io;

#[derive(Clone, Copy, Default)]
struct Count {
    right: u64,
    wrong: u64,
}

impl Count {
    fn add(&mut self, is_right: bool) {
        let counted = if is_right {
            &mut self.right
        } else {
            &mut self.wrong
        };
        *counted = counted.wrapping_add(1);
    }

    fn show<N: Display + Drop>(self, rt: &impl Print, name: N) -> io::Result<()> {
        let Count { right, wrong } = self;
        println!(rt; "{name}: {right} as the original answers, {wrong} otherwise")
    }
}

// A count for each call, by its number, and one for all.
#[derive(Clone, Copy, Default)]
pub(crate) struct Tally {
    calls: [Count; 14],
    all: Count,
}

impl Tally {
    pub fn count(&mut self, call: Option<Call>, is_right: bool) {
        if let Some(call) = call {
            self.calls[call as usize].add(is_right);
        }
        self.all.add(is_right);
    }

    pub fn show(&self, rt: &impl Print) -> io::Result<()> {
        for call in Call::ALL {
            self.calls[call as usize].show(rt, call)?;
        }
        self.all.show(rt, "in all")
    }
}
