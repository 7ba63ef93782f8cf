// The calls that the list has.
use std::fmt;
use std::fmt::Display;

// Each is numbered as in the list.
#[derive(Clone, Copy, PartialEq, Eq)]
pub(crate) enum Call {
    Plan = 1,
    FreshTracker,
    NextTransferId,
    FreshQueue,
    PushFrame,
    ReturnFrame,
    Peek,
    Pop,
    Reserve,
    SetMtu,
    Send,
    Subscribe,
    Accept,
}

// A number that no call has.
#[derive(Clone, Copy)]
pub(crate) struct UnknownCall;

impl Call {
    // In the order of their numbers, which begin at 1.
    pub const ALL: [Call; 13] = [
        Call::Plan,
        Call::FreshTracker,
        Call::NextTransferId,
        Call::FreshQueue,
        Call::PushFrame,
        Call::ReturnFrame,
        Call::Peek,
        Call::Pop,
        Call::Reserve,
        Call::SetMtu,
        Call::Send,
        Call::Subscribe,
        Call::Accept,
    ];
}

impl TryFrom<u8> for Call {
    type Error = UnknownCall;

    fn try_from(number: u8) -> Result<Self, UnknownCall> {
        let place = usize::from(number).wrapping_sub(1);
        Call::ALL.get(place).copied().ok_or(UnknownCall)
    }
}

impl Display for Call {
    fn fmt<W: fmt::Write>(&self, f: &mut fmt::Formatter<W>) -> fmt::Result {
        f.write_str(match *self {
            Call::Plan => "plan",
            Call::FreshTracker => "fresh tracker",
            Call::NextTransferId => "next transfer ID",
            Call::FreshQueue => "fresh queue",
            Call::PushFrame => "push a frame",
            Call::ReturnFrame => "return a frame",
            Call::Peek => "peek",
            Call::Pop => "pop",
            Call::Reserve => "reserve",
            Call::SetMtu => "set the MTU",
            Call::Send => "send",
            Call::Subscribe => "subscription",
            Call::Accept => "accept",
        })
    }
}
