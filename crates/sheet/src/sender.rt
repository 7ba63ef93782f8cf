// The real sender over the real queue: what is sent is popped, and compared frame by frame with what the sheet or the document has.
use crate::cases;
use crate::print::Sheet;
use queue::{ArrayQueue, Held, PLACE, Place};
use rules::frame::Marks;
use rules::header::Header;
use rules::refusal::Refusal;
use rules::send::Transfer;
use rules::types::CanTransferId;
use std::fmt::Display;
use std::io;
use tx::CanTransmitter;

// A queue, and the places that it is lent with each call.
#[derive(Drop)]
struct Line<const PLACES: usize> {
    queue: ArrayQueue,
    places: [Place; PLACES],
}

impl<const PLACES: usize> Line<PLACES> {
    // An empty queue; one of no places if that many are refused.
    fn new() -> Self {
        let none = ArrayQueue {
            head: 0,
            length: 0,
            capacity: 0,
        };
        Line {
            queue: ArrayQueue::new(PLACES).unwrap_or(none),
            places: [[0; PLACE]; PLACES],
        }
    }

    // Sends a transfer at this MTU, and answers the refusal where it is refused.
    fn send(&mut self, mtu: usize, header: Header, id: u8, payload: &[u8]) -> Option<Refusal> {
        let transfer = Transfer {
            header,
            transfer_id: CanTransferId(id),
            stamp: 7,
            loopback: false,
        };
        let transmitter = CanTransmitter::new(mtu);
        let sent = transmitter.push(self.queue, &mut self.places, transfer, payload);
        self.queue = sent.queue;
        sent.answer.err()
    }

    fn push(&mut self, marks: Marks, bytes: &[u8]) {
        self.queue = self.queue.push_frame(&mut self.places, marks, bytes).queue;
    }

    fn put_back(&mut self, marks: Marks, bytes: &[u8]) {
        self.queue = self
            .queue
            .return_frame(&mut self.places, marks, bytes)
            .queue;
    }

    fn pop(&mut self) -> Option<Held> {
        let popped = self.queue.pop_frame(&self.places);
        self.queue = popped.queue;
        popped.held
    }

    // The stamp of the frame that leaves next; 0 where there is none.
    // That is no `Option`, as the row prints the number; no frame of the case has the stamp 0.
    fn pop_stamp(&mut self) -> u32 {
        self.pop().map_or(0, |frame| frame.marks.stamp)
    }

    fn len(&self) -> usize {
        self.queue.len(&self.places)
    }

    // The number of frames that a payload is sent in.
    fn frames_of(&mut self, mtu: usize, payload: &[u8]) -> usize {
        self.send(mtu, cases::message(4, 256, cases::node(42)), 0, payload);
        self.len()
    }

    // Pops a frame, and shows whether it is the one.
    fn next<A: Display + Drop>(
        &mut self,
        sheet: &mut Sheet<impl Print>,
        asked: A,
        id: u32,
        bytes: &[u8],
    ) -> io::Result<()> {
        sheet.holds(asked, is_frame(self.pop(), id, bytes))
    }
}

// Whether a frame was found that has this ID and these bytes; behind its bytes a frame is handed out with zeros.
fn is_frame(held: Option<Held>, id: u32, bytes: &[u8]) -> bool {
    let mut wanted = [0; 64];
    let length = blocks::copy(bytes, &mut wanted);
    held.is_some_and(|frame| {
        frame.marks.id == id && frame.length == length && frame.bytes == wanted
    })
}

// Cases 1 and 2: how many frames the sender queues.
pub(crate) fn lengths(sheet: &mut Sheet<impl Print>) -> io::Result<()> {
    let asked = "case 1, payload 63 at MTU 64, frames queued";
    sheet.row(asked, Line::<16>::new().frames_of(64, &[0; 63]), 1)?;
    let asked = "case 1, payload 64 at MTU 64, frames queued";
    sheet.row(asked, Line::<16>::new().frames_of(64, &[0; 64]), 2)?;
    let asked = "case 2, payload 8 at MTU 8, frames queued";
    sheet.row(asked, Line::<16>::new().frames_of(8, &[0; 8]), 2)?;
    let asked = "case 2, payload 1024 at MTU 8, frames queued";
    sheet.row(asked, Line::<256>::new().frames_of(8, &[0; 1024]), 147)
}

// Case 2: thirteen zeros at MTU 8, the CRC split; case 5: an anonymous payload 2A under node 125.
pub(crate) fn split_crc(sheet: &mut Sheet<impl Print>) -> io::Result<()> {
    let scan = 0x1061_002A;
    let mut line = Line::<16>::new();
    line.send(8, cases::message(4, 256, cases::node(42)), 0, &[0; 13]);
    line.send(8, cases::message(4, 256, cases::nobody()), 0, b"\x2A");
    let asked = "case 2, thirteen zeros, frame 1";
    line.next(sheet, asked, scan, b"\x00\x00\x00\x00\x00\x00\x00\xA0")?;
    let asked = "case 2, thirteen zeros, frame 2, the CRC's high byte in it";
    line.next(sheet, asked, scan, b"\x00\x00\x00\x00\x00\x00\x28\x00")?;
    let asked = "case 2, thirteen zeros, frame 3, the CRC's low byte in it";
    line.next(sheet, asked, scan, b"\x0C\x60")?;
    let asked = "case 5, anonymous payload 2A, under node 125";
    line.next(sheet, asked, 0x1161_007D, b"\x2A\xE0")
}

// Case 3 and heartbeats of the specification, as frames (1: as it should be).
pub(crate) fn single_frames(sheet: &mut Sheet<impl Print>) -> io::Result<()> {
    let mut line = Line::<16>::new();
    let scan = cases::message(4, 256, cases::node(42));
    let beat = cases::message(4, 7509, cases::node(42));
    line.send(64, scan, 3, b"\x01\x02\x03\x04\x05\x06\x07\x08\x09");
    line.send(8, beat, 0, b"\x00\x00\x00\x00\x00\x01\xA1");
    line.send(8, beat, 1, b"\x01\x00\x00\x00\x00\x01\xA1");
    let frames: [(&str, u32, &[u8]); 3] = [
        (
            "case 3, the frame that was sent",
            0x1061_002A,
            b"\x01\x02\x03\x04\x05\x06\x07\x08\x09\x00\x00\xE3",
        ),
        (
            "heartbeat, first frame",
            0x107D_552A,
            b"\x00\x00\x00\x00\x00\x01\xA1\xE0",
        ),
        (
            "heartbeat, second frame",
            0x107D_552A,
            b"\x01\x00\x00\x00\x00\x01\xA1\xE1",
        ),
    ];
    for (asked, id, frame) in frames {
        line.next(sheet, asked, id, frame)?;
    }
    sheet.row("frames left", line.len(), 0)
}

// The specification's node information response, eleven frames, the CRC split between the last two, and its request.
pub(crate) fn node_information(sheet: &mut Sheet<impl Print>) -> io::Result<()> {
    let mut line = Line::<16>::new();
    let request = Header::Request(cases::service(4, 430, 42, 123));
    let response = Header::Response(cases::service(4, 430, 123, 42));
    line.send(8, request, 1, b"");
    line.send(8, response, 1, &cases::NODE_INFORMATION);
    for (n, frame) in (1u8..).zip(cases::RESPONSE) {
        line.next(
            sheet,
            format_args!("response, frame {n}"),
            0x126B_BDAA,
            frame,
        )?;
    }
    line.next(
        sheet,
        "request, which has the higher ID",
        0x136B_957B,
        b"\xE1",
    )?;
    sheet.row("frames left", line.len(), 0)
}

// Case 13: IDs 5, 5 pushed, a 5 returned: the returned one, of stamp 3, comes out first.
pub(crate) fn returned_first(sheet: &mut Sheet<impl Print>) -> io::Result<()> {
    let mut line = Line::<16>::new();
    let first = Marks {
        stamp: 1,
        id: 5,
        loopback: false,
    };
    line.push(first, b"");
    line.push(Marks { stamp: 2, ..first }, b"");
    let third = Marks {
        stamp: 3,
        loopback: true,
        ..first
    };
    line.put_back(third, b"");
    sheet.row("case 13, stamp of the first out", line.pop_stamp(), 3)?;
    sheet.row("case 13, stamp of the second out", line.pop_stamp(), 1)
}

// The refusal of a send into an empty queue of 16 places.
fn refusal(mtu: usize, header: Header, payload: &[u8]) -> Option<Refusal> {
    Line::<16>::new().send(mtu, header, 0, payload)
}

// Refusals of a send, each by its number.
pub(crate) fn refusals(sheet: &mut Sheet<impl Print>) -> io::Result<()> {
    let scan = cases::message(4, 256, cases::node(42));
    let nobody = cases::message(4, 256, cases::nobody());
    let urgent = cases::message(8, 256, cases::node(42));
    let asked = "a send at MTU 16, refusal";
    sheet.refuses(asked, refusal(16, scan, b""), Refusal::Mtu)?;
    let asked = "a send at priority 8, refusal";
    sheet.refuses(asked, refusal(8, urgent, b""), Refusal::Field)?;
    let asked = "a send of 1025 bytes, refusal";
    let got = refusal(8, scan, &[0; 1025]);
    sheet.refuses(asked, got, Refusal::PayloadTooLong)?;
    let asked = "an anonymous send of 8 bytes at MTU 8, refusal";
    let got = refusal(8, nobody, b"12345678");
    sheet.refuses(asked, got, Refusal::AnonymousTooLong)?;
    let asked = "a send of 1024 bytes at MTU 8 to 16 places, refusal";
    let got = refusal(8, scan, &[0; 1024]);
    sheet.refuses(asked, got, Refusal::NoPlace)
}
