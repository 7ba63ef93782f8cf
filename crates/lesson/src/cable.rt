// The cable: what a sender's queue hands out arrives at the display, or does not, or not as it was.
use crate::sender::Sender;
use crate::show::{Answer, Frame};
use queue::Held;
use rules::frame::Marks;
use rules::header::Header;
use rules::receive::Received;
use rules::refusal::Refusal;
use rules::subscription::{Port, Settings};
use rules::types::SubjectId;
use rx::subscription::Subscription;
use slots::Slots;
use std::io;

// The display, with its slots and its store, 32 bytes for each of 128 sources; what it has answered so far; and where all that is told.
#[derive(Drop)]
pub(crate) struct Desk<'a, P: Print> {
    rt: &'a P,
    display: Subscription,
    slots: Slots,
    store: [u8; 4096],
    pub delivered: u64,
    pub refused: u64,
}

// Scans under subject 256, 32 bytes of each kept; an ID that comes again within two seconds is a repeat.
fn subscribe(slots: &mut Slots) -> Subscription {
    let port = Port::Message(SubjectId(256));
    Subscription::new(port, 2_000_000, 32, slots).unwrap_or(Subscription {
        settings: Settings {
            port,
            timeout: 0,
            extent: 0,
        },
    })
}

// A frame as it is on the cable at a time of its own.
fn frame(at: u32, held: &Held) -> Frame {
    let marks = Marks {
        stamp: at,
        id: held.marks.id,
        loopback: false,
    };
    let bytes = held.bytes.get(..held.length).unwrap_or(&held.bytes);
    Frame { marks, bytes }
}

impl<'a, P: Print> Desk<'a, P> {
    pub fn new(rt: &'a P) -> Self {
        let mut slots = [[0; 4]; 128];
        Desk {
            rt,
            display: subscribe(&mut slots),
            slots,
            store: [0; 4096],
            delivered: 0,
            refused: 0,
        }
    }

    pub fn tell(&self, lines: &[&str]) -> io::Result<()> {
        for line in lines {
            self.rt.println(*line)?;
        }
        Ok(())
    }

    // A node puts a message into its queue.
    pub fn send(
        &self,
        sender: &mut Sender,
        mtu: usize,
        header: Header,
        id: u8,
        payload: &[u8],
    ) -> io::Result<()> {
        match sender.send(mtu, header, id, payload) {
            Ok(()) => Ok(()),
            Err(_) => self.tell(&["    the send was refused"]),
        }
    }

    // A frame arrives at the display.
    pub fn arrive(&mut self, at: u32, held: &Option<Held>) -> io::Result<()> {
        let Some(held) = held else {
            return Ok(());
        };
        let frame = frame(at, held);
        println!(self.rt; "{frame}")?;
        let answer = self.accept(frame);
        self.show(answer, frame)
    }

    fn accept(&mut self, frame: Frame) -> Result<Received, Refusal> {
        let Frame { marks, bytes } = frame;
        let answer = self
            .display
            .accept(&mut self.slots, &mut self.store, marks, bytes);
        match answer {
            Ok(Received::Delivered(_)) => self.delivered = self.delivered.wrapping_add(1),
            Ok(Received::Nothing | Received::NotOurs) => {}
            Err(_) => self.refused = self.refused.wrapping_add(1),
        }
        answer
    }

    // What the display says to the frame, and the bytes that it hands over.
    fn show(&self, answer: Result<Received, Refusal>, frame: Frame) -> io::Result<()> {
        let payload = rx::payload(answer, frame.bytes, &self.store);
        println!(self.rt; "    {}", Answer { answer, payload })
    }

    // A frame that does not arrive.
    pub fn lose(&self, at: u32, held: &Option<Held>) -> io::Result<()> {
        let Some(held) = held else {
            return Ok(());
        };
        println!(self.rt; "{}", frame(at, held))?;
        self.tell(&["    lost on the cable"])
    }
}

// A frame of which one bit is turned round on the way.
pub(crate) fn garbled(mut held: Option<Held>) -> Option<Held> {
    if let Some(frame) = &mut held {
        frame.bytes[0] ^= 0x10;
    }
    held
}
