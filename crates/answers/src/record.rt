// The records of the list, read one by one from standard input. Their format stands at the head of oracle/compare/src/answers.rs.
use crate::call::Call;
use rules::frame::Marks;
use rules::refusal::Refusal;
use std::io;
use std::io::{ErrorKind, Read};

// What is answered, a refusal by its number.
#[derive(Clone, Copy, PartialEq, Eq)]
pub(crate) enum Answer {
    Done,
    Delivered,
    Nothing,
    NotOurs,
    // as the list has it: any number, of which `Refusal::number` gives ours
    Refused(u8),
}

impl Answer {
    // The answer that stands in two bytes, if there is such a one.
    fn read(what: u8, refusal: u8) -> Option<Self> {
        match (what, refusal) {
            (0, 0) => Some(Answer::Done),
            (1, 0) => Some(Answer::Delivered),
            (2, 0) => Some(Answer::Nothing),
            (3, 0) => Some(Answer::NotOurs),
            (4, number) => Some(Answer::Refused(number)),
            _ => None,
        }
    }
}

impl From<Result<(), Refusal>> for Answer {
    fn from(answer: Result<(), Refusal>) -> Self {
        match answer {
            Ok(()) => Answer::Done,
            Err(refusal) => Answer::Refused(refusal.number()),
        }
    }
}

// A call with the original's answer; what the words say depends on the call.
#[derive(Clone, Copy)]
pub(crate) struct Record {
    // none where the list has ended
    pub call: Option<Call>,
    // the call in whose row the answer counts: numbers come round at sixteen there
    pub row: Option<Call>,
    answer: Option<Answer>,
    pub flag: bool,
    pub words: [u32; 7],
    pub length: usize,
    // zeros behind its bytes
    pub data: [u8; 64],
}

impl Record {
    // The next record; where the list has ended, one of a call that there is not.
    pub fn next(list: &mut impl Read) -> io::Result<Self> {
        let head: [u8; 40] = next_bytes(list)?;
        let mut words = [0; 7];
        let (chunks, _) = head[4..].as_chunks();
        for (word, bytes) in words.iter_mut().zip(chunks) {
            *word = u32::from_le_bytes(*bytes);
        }
        let length = u16::from_le_bytes([head[36], head[37]]) as usize;
        Ok(Record {
            call: Call::try_from(head[0]).ok(),
            row: Call::try_from(head[0] % 16).ok(),
            answer: Answer::read(head[1], head[2]),
            flag: head[3] == 1,
            words,
            length,
            data: next_data(list, length)?,
        })
    }

    // Whether this is the answer that it tells.
    pub fn tells(&self, answer: Answer) -> bool {
        self.answer == Some(answer)
    }

    // Whether it tells this answer, and so many frames queued after.
    pub fn tells_queued(&self, answer: Answer, queued: usize) -> bool {
        self.tells(answer) && queued == self.words[4] as usize
    }

    // The marks of the frame of a record that has one.
    pub fn marks(&self) -> Marks {
        let [stamp, id, ..] = self.words;
        Marks {
            stamp,
            id,
            loopback: self.flag,
        }
    }

    // Its bytes.
    pub fn frame(&self) -> &[u8] {
        self.data.get(..self.length).unwrap_or(&self.data)
    }
}

// Fills the buffer; where the list has ended, what is left of it stays as it is.
fn fill(list: &mut impl Read, buffer: &mut [u8]) -> io::Result<()> {
    match list.read_exact(buffer) {
        Err(error) if error.kind() == ErrorKind::UnexpectedEof => Ok(()),
        result => result,
    }
}

// So many bytes of the list; where it has ended, zeros.
fn next_bytes<const N: usize>(list: &mut impl Read) -> io::Result<[u8; N]> {
    let mut bytes = [0; N];
    fill(list, &mut bytes)?;
    Ok(bytes)
}

// The data behind a head; none where its length is over the greatest.
fn next_data(list: &mut impl Read, length: usize) -> io::Result<[u8; 64]> {
    let mut data = [0; 64];
    if let Some(front) = data.get_mut(..length) {
        fill(list, front)?;
    }
    Ok(data)
}

// How many records the list has; none of a list of another format.
pub(crate) fn count(list: &mut impl Read) -> io::Result<u32> {
    let count = u32::from_le_bytes(next_bytes(list)?);
    let format = u32::from_le_bytes(next_bytes(list)?);
    Ok(if format == 1 { count } else { 0 })
}
