// The bench sheet on the real code: runs its cases, the published CRC vectors and the worked examples of the Cyphal Specification, and prints for each what
// the code gives. A row that is not as the sheet or the document says is marked WRONG, and counted.
#![tactic(auto)]

mod cases;
mod examples;
mod print;
mod receiver;
mod sender;

use print::Sheet;
use std::io;

fn main(rt: HostRuntime) -> io::Result<()> {
    let mut sheet = Sheet::new(&rt);
    sheet.line("The bench sheet, on the real code")?;
    cases::plan_at_64(&mut sheet)?;
    cases::plan_at_8(&mut sheet)?;
    cases::one_frame(&mut sheet)?;
    cases::can_ids(&mut sheet)?;
    cases::pseudo_sources(&mut sheet)?;
    cases::check_value(&mut sheet)?;
    sheet.line("Published vectors of CRC-16/CCITT-FALSE")?;
    examples::crc_vectors(&mut sheet)?;
    sheet.line("Worked examples of the Cyphal Specification")?;
    examples::heartbeat(&mut sheet)?;
    examples::node_information(&mut sheet)?;
    examples::response_frames(&mut sheet)?;
    sheet.line("The real sender over the real queue (1: as it should be)")?;
    sender::lengths(&mut sheet)?;
    sender::split_crc(&mut sheet)?;
    sender::single_frames(&mut sheet)?;
    sender::node_information(&mut sheet)?;
    sender::returned_first(&mut sheet)?;
    sender::refusals(&mut sheet)?;
    received(&mut sheet)?;
    sheet.line("The tracker")?;
    examples::transfer_ids(&mut sheet)?;
    sheet.total()
}

// The sheet's cases, the refusals and the specification's frames at the real receiver.
fn received(sheet: &mut Sheet<impl Print>) -> io::Result<()> {
    sheet.line(
        "The real receiver (0: nothing, 100: delivered, 200: not ours, others: the refusal)",
    )?;
    receiver::empty_payload(sheet)?;
    receiver::one_byte(sheet)?;
    receiver::strange_id(sheet)?;
    receiver::repeat(sheet)?;
    receiver::never_seen(sheet)?;
    receiver::second_time(sheet)?;
    receiver::first_stamp(sheet)?;
    receiver::refusals(sheet)?;
    receiver::makings(sheet)?;
    receiver::anonymous(sheet)?;
    sheet.line(
        "Worked examples of the Cyphal Specification at the real receiver (1: as it should be)",
    )?;
    receiver::heartbeats(sheet)?;
    receiver::request(sheet)?;
    receiver::response(sheet)
}
