// Replays a fixed list of calls with the answers of the original, canadensis_can 0.6.0, on the real code, and counts the answers that are the same and the
// others. The list is standard input; `tools/original answers` writes it.
#![tactic(auto)]

mod call;
mod header;
mod line;
mod listen;
mod numbers;
mod payload;
mod record;
mod tally;

use call::Call;
use line::Line;
use listen::Listener;
use numbers::Numbers;
use record::Record;
use std::io;
use std::io::Read;
use tally::Tally;

// What the calls change.
#[derive(Drop)]
struct Desk {
    numbers: Numbers,
    line: Line,
    listener: Listener,
}

impl Desk {
    fn new() -> Self {
        Desk {
            numbers: Numbers::new(),
            line: Line::new(),
            listener: Listener::new(),
        }
    }

    // Makes a call, and answers whether its answer is the original's; a call that there is not has none.
    fn replay(&mut self, record: &Record) -> bool {
        let Some(call) = record.call else {
            return false;
        };
        match call {
            Call::Plan => numbers::is_plan(record),
            Call::FreshTracker => self.numbers.renew(record),
            Call::NextTransferId => self.numbers.is_next(record),
            Call::FreshQueue => self.line.renew(record),
            Call::PushFrame => self.line.push(record),
            Call::ReturnFrame => self.line.put_back(record),
            Call::Peek => self.line.peek(record),
            Call::Pop => self.line.pop(record),
            Call::Reserve => self.line.reserve(record),
            Call::SetMtu => self.line.set_mtu(record),
            Call::Send => self.line.send(record),
            Call::Subscribe => self.listener.subscribe(record),
            Call::Accept => self.listener.accept(record),
        }
    }
}

// Replays all records, and counts.
fn replay_all(list: &mut impl Read) -> io::Result<Tally> {
    let mut desk = Desk::new();
    let mut tally = Tally::default();
    for _ in 0..record::count(list)? {
        let record = Record::next(list)?;
        tally.count(record.row, desk.replay(&record));
    }
    Ok(tally)
}

fn main(rt: HostRuntime) -> io::Result<()> {
    replay_all(&mut rt.reader())?.show(&rt)
}
