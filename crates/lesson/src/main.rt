// The lesson of the lost term. A class once recorded zeros for a term: one dark scan went through twice on the cable, the display took the second for the sample,
// and dark less dark is zero. Here it happens again on a desk: a detector, a lamp and a second detector share a bad cable with a display.
#![tactic(auto)]

mod cable;
mod sender;
mod show;

use cable::Desk;
use sender::{Sender, heartbeat, scan};
use std::io;

fn main(rt: HostRuntime) -> io::Result<()> {
    let mut desk = Desk::new(&rt);
    desk.tell(&[
        "THE LESSON OF THE LOST TERM",
        "On one cable: a detector (node 42) and a second one (node 43), which send scans",
        "under subject 256, and a lamp (node 7). The display keeps 32 bytes of each scan.",
        "Each frame is shown as candump logs it; below it is what the display answers.",
    ])?;
    dark_scan(&mut desk)?;
    lost_frame(&mut desk)?;
    garbled_frame(&mut desk)?;
    two_detectors(&mut desk)?;
    over_fd(&mut desk)?;
    end(&rt, desk.delivered, desk.refused)
}

// The dark scan comes, and comes again.
fn dark_scan(desk: &mut Desk<impl Print>) -> io::Result<()> {
    let mut sender = Sender::new();
    let payload = b"\x0A\x0B\x0A\x09\x0A\x0C\x0A\x0A\x0B\x0A\x0A\x09\x0A\x0B\x0A\x0A";
    desk.send(&mut sender, 8, scan(42), 0, payload)?;
    let a = sender.pop();
    desk.send(
        &mut sender,
        8,
        heartbeat(),
        0,
        b"\x3C\x00\x00\x00\x00\x00\x00",
    )?;
    let lamp = sender.pop();
    let b = sender.pop();
    let c = sender.pop();
    desk.tell(&[
        "",
        "1. The detector sends a dark scan: 16 bytes, three frames. When the first is out",
        "   the lamp has its heartbeat ready. It is more urgent, and cuts in.",
    ])?;
    desk.arrive(1_000_000, &a)?;
    desk.arrive(1_000_200, &lamp)?;
    desk.arrive(1_000_400, &b)?;
    desk.arrive(1_000_600, &c)?;
    desk.tell(&[
        "",
        "2. The cable lets the dark scan through a second time. A display that took it for",
        "   the sample would draw dark less dark: zeros, for a term.",
    ])?;
    desk.arrive(1_100_000, &a)?;
    desk.arrive(1_100_200, &b)?;
    desk.arrive(1_100_400, &c)
}

// The first frame of a sample does not arrive.
fn lost_frame(desk: &mut Desk<impl Print>) -> io::Result<()> {
    let mut sender = Sender::new();
    let payload = b"\x50\x61\x72\x83\x94\xA5\xB6\xC7\xC7\xB6\xA5\x94\x83\x72\x61\x50";
    desk.send(&mut sender, 8, scan(42), 1, payload)?;
    desk.tell(&["", "3. A sample, of which the cable loses the first frame."])?;
    desk.lose(2_000_000, &sender.pop())?;
    desk.arrive(2_000_200, &sender.pop())?;
    desk.arrive(2_000_400, &sender.pop())
}

// A bit of a sample is turned round.
fn garbled_frame(desk: &mut Desk<impl Print>) -> io::Result<()> {
    let mut sender = Sender::new();
    let payload = b"\x51\x62\x73\x84\x95\xA6\xB7\xC8\xC8\xB7\xA6\x95\x84\x73\x62\x51";
    desk.send(&mut sender, 8, scan(42), 2, payload)?;
    desk.tell(&[
        "",
        "4. The next sample, of which the cable turns round one bit in the second frame.",
    ])?;
    desk.arrive(3_000_000, &sender.pop())?;
    desk.arrive(3_000_200, &cable::garbled(sender.pop()))?;
    desk.arrive(3_000_400, &sender.pop())
}

// Two detectors talk at once.
fn two_detectors(desk: &mut Desk<impl Print>) -> io::Result<()> {
    let mut first = Sender::new();
    let mut second = Sender::new();
    let payload = b"\x52\x63\x74\x85\x96\xA7\xB8\xC9";
    desk.send(&mut first, 8, scan(42), 3, payload)?;
    let payload = b"\x11\x22\x33\x44\x55\x66\x77\x88\x99";
    desk.send(&mut second, 8, scan(43), 0, payload)?;
    desk.tell(&[
        "",
        "5. The third sample arrives. The second detector talks between its frames.",
    ])?;
    desk.arrive(4_000_000, &first.pop())?;
    desk.arrive(4_000_100, &second.pop())?;
    desk.arrive(4_000_200, &first.pop())?;
    desk.arrive(4_000_300, &second.pop())
}

// The same over CAN FD: a scan in one frame, and one that is longer than what the display keeps.
fn over_fd(desk: &mut Desk<impl Print>) -> io::Result<()> {
    let mut sender = Sender::new();
    let dark = b"\x0B\x0A\x0A\x0C\x0A\x09\x0A\x0B\x0A";
    desk.send(&mut sender, 64, scan(42), 4, dark)?;
    desk.send(&mut sender, 64, scan(42), 5, &[0x5A; 100])?;
    desk.tell(&[
        "",
        "6. The cable is changed for CAN FD: frames of up to 64 bytes. A dark scan of 9 bytes",
        "   fits one frame, with two zeros behind it; a sample of 100 is cut to 32.",
    ])?;
    desk.arrive(5_000_000, &sender.pop())?;
    desk.arrive(6_000_000, &sender.pop())?;
    desk.arrive(6_000_200, &sender.pop())
}

fn end(rt: &impl Print, delivered: u64, refused: u64) -> io::Result<()> {
    println!(rt)?;
    println!(rt;
        "Seven scans were sent, and {delivered} were delivered, each once: both dark scans, two samples of the"
    )?;
    rt.println(
        "detector and one of the second. The dark scan that came twice was handed over once.",
    )?;
    println!(rt;
        "Lost: the sample without its first frame and the garbled one; of them {refused} frames were"
    )?;
    rt.println("refused, and nothing was handed over. Nothing else was harmed.")
}
