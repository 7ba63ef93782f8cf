// The tail byte made, after tx/breakdown.rs.
ghost use Rattle.std.specs.Prelude.{◌≡◌};
ghost use Rattle.rules.specs.TailByte.{tail_byte};

use rules::types::CanTransferId;

// The tail byte with these marks; of a transfer ID over the greatest, its low five bits.
pub fn make_tail_byte(start: bool, end: bool, toggle: bool, transfer_id: CanTransferId) -> u8
    ensures { result ≡ tail_byte start end toggle transfer_id.0 }
{
    let id = transfer_id.0 & CanTransferId::MAX;
    ((start as u8) << 7) | ((end as u8) << 6) | ((toggle as u8) << 5) | id
}
