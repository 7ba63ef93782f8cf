// How the lesson prints what it shows.
use rules::frame::Marks;
use rules::header::Header;
use rules::receive::{Delivery, Received};
use rules::refusal::Refusal;
use rules::types::CanNodeId;
use std::fmt;
use std::fmt::Display;

// Bytes in hexadecimal, as candump writes them.
#[derive(Clone, Copy)]
struct Bytes<'a>(&'a [u8]);

impl Display for Bytes<'_> {
    fn fmt<W: fmt::Write>(&self, f: &mut fmt::Formatter<W>) -> fmt::Result {
        for byte in self.0 {
            write!(f, "{byte:02X}")?;
        }
        Ok(())
    }
}

// A stamp in seconds, of six places.
#[derive(Clone, Copy)]
struct Seconds(u32);

impl Display for Seconds {
    fn fmt<W: fmt::Write>(&self, f: &mut fmt::Formatter<W>) -> fmt::Result {
        write!(f, "{}.{:06}", self.0 / 1_000_000, self.0 % 1_000_000)
    }
}

// A frame as candump logs it; one of more than 8 bytes is of CAN FD.
#[derive(Clone, Copy)]
pub(crate) struct Frame<'a> {
    pub marks: Marks,
    pub bytes: &'a [u8],
}

impl Display for Frame<'_> {
    fn fmt<W: fmt::Write>(&self, f: &mut fmt::Formatter<W>) -> fmt::Result {
        let stamp = Seconds(self.marks.stamp);
        let id = self.marks.id;
        let mark = if self.bytes.len() > 8 { "##1" } else { "#" };
        write!(f, "({stamp}) can0 {id:08X}{mark}{}", Bytes(self.bytes))
    }
}

// Who sends.
#[derive(Clone, Copy)]
struct Who(Option<CanNodeId>);

impl Display for Who {
    fn fmt<W: fmt::Write>(&self, f: &mut fmt::Formatter<W>) -> fmt::Result {
        match self.0 {
            Some(node) => write!(f, "node {}", node.0),
            None => write!(f, "nobody"),
        }
    }
}

// Who sent a transfer, and under what.
#[derive(Clone, Copy)]
struct Origin(Header);

impl Display for Origin {
    fn fmt<W: fmt::Write>(&self, f: &mut fmt::Formatter<W>) -> fmt::Result {
        match self.0 {
            Header::Message(message) => {
                let subject = message.subject.0;
                write!(f, "{}, subject {subject}", Who(message.source))
            }
            Header::Request(request) => write!(f, "{}, a request", Who(request.source)),
            Header::Response(response) => write!(f, "{}, a response", Who(response.source)),
        }
    }
}

// A transfer, and its bytes.
#[derive(Clone, Copy)]
struct Handed<'a> {
    delivery: Delivery,
    payload: &'a [u8],
}

impl Display for Handed<'_> {
    fn fmt<W: fmt::Write>(&self, f: &mut fmt::Formatter<W>) -> fmt::Result {
        let from = Origin(self.delivery.header);
        let id = self.delivery.transfer_id.0;
        let begun = Seconds(self.delivery.stamp);
        let count = self.payload.len();
        let bytes = Bytes(self.payload);
        write!(
            f,
            "{from}, transfer {id}, begun at {begun}, {count} bytes: {bytes}"
        )
    }
}

// What the display says to a frame, and the bytes that it hands over.
#[derive(Clone, Copy)]
pub(crate) struct Answer<'a> {
    pub answer: Result<Received, Refusal>,
    pub payload: &'a [u8],
}

impl Display for Answer<'_> {
    fn fmt<W: fmt::Write>(&self, f: &mut fmt::Formatter<W>) -> fmt::Result {
        let payload = self.payload;
        match self.answer {
            Ok(Received::Delivered(delivery)) => {
                let handed = Handed { delivery, payload };
                write!(f, "DELIVERED: {handed}")
            }
            Ok(Received::Nothing) => write!(f, "nothing"),
            Ok(Received::NotOurs) => write!(f, "not ours"),
            Err(refusal) => write!(f, "refused by {}, {refusal}", refusal.number()),
        }
    }
}
