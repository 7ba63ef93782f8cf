// What is printed, and how many rows were right.
use rules::refusal::Refusal;
use std::fmt::Display;
use std::{fmt, io};

// The sheet as it is printed: where to, and how many of its rows were as they should be.
#[derive(Drop)]
pub(crate) struct Sheet<'a, P: Print> {
    rt: &'a P,
    right: u64,
    wrong: u64,
}

// A number of so many hexadecimal digits.
#[derive(Clone, Copy, PartialEq, Eq)]
pub(crate) struct Hex<const DIGITS: usize>(pub u64);

impl<const DIGITS: usize> Display for Hex<DIGITS> {
    fn fmt<W: fmt::Write>(&self, f: &mut fmt::Formatter<W>) -> fmt::Result {
        let n = self.0;
        write!(f, "{n:0DIGITS$x}")
    }
}

// The refusal of what was asked, by its number; 0 for none.
#[derive(Clone, Copy, PartialEq, Eq)]
struct Refused(Option<Refusal>);

impl Display for Refused {
    fn fmt<W: fmt::Write>(&self, f: &mut fmt::Formatter<W>) -> fmt::Result {
        write!(f, "{}", self.0.map_or(0, Refusal::number))
    }
}

impl<'a, P: Print> Sheet<'a, P> {
    pub fn new(rt: &'a P) -> Self {
        Sheet {
            rt,
            right: 0,
            wrong: 0,
        }
    }

    pub fn line(&self, text: &str) -> io::Result<()> {
        self.rt.println(text)
    }

    // A row: what was asked, what the code gives, and whether that is what was wanted.
    pub fn row<A: Display + Drop, N: Display + PartialEq + Copy>(
        &mut self,
        asked: A,
        got: N,
        wanted: N,
    ) -> io::Result<()> {
        if got == wanted {
            self.right = self.right.wrapping_add(1);
            return println!(self.rt; "  {asked}: {got}");
        }
        self.wrong = self.wrong.wrapping_add(1);
        println!(self.rt; "  {asked}: {got}  WRONG, it should be {wanted}")
    }

    // A row that asks for a yes, which is printed as 1.
    pub fn holds<A: Display + Drop>(&mut self, asked: A, got: bool) -> io::Result<()> {
        self.row(asked, got as u8, 1)
    }

    // A row that asks for a refusal, which is printed by its number.
    pub fn refuses<A: Display + Drop>(
        &mut self,
        asked: A,
        got: Option<Refusal>,
        wanted: Refusal,
    ) -> io::Result<()> {
        self.row(asked, Refused(got), Refused(Some(wanted)))
    }

    pub fn total(&self) -> io::Result<()> {
        let right = self.right;
        let wrong = self.wrong;
        println!(self.rt; "{right} rows right, {wrong} wrong")
    }
}
