// Whether a transfer goes out, the queue left aside: refusals 9, 12, 10 and 11, in this order.
ghost use Rattle.std.specs.Prelude.{◌≡◌};
ghost use Rattle.rules.specs.Sending.{anonymous, judged};

use rules::data::Mtu;
use rules::header::Header;
use rules::refusal::Refusal;
use rules::send::{Outgoing, Transfer};
use rules::types::Limited;

#[tactic(auto, unfolding(rules::specs::Sending::judged))]
pub(crate) fn judge(mtu: usize, transfer: Transfer, payload: &[u8]) -> Result<Outgoing, Refusal>
    ensures { result ≡ judged mtu transfer payload.now }
{
    let mtu = Mtu::try_from(mtu)?;
    transfer.transfer_id.judged()?;
    let id = wire::tx::make_can_id(transfer.header, payload)?;
    let stats = wire::calculate_frame_stats(payload.len(), mtu)?;
    if is_anonymous(transfer.header) && mtu.as_bytes() <= payload.len() {
        return Err(Refusal::AnonymousTooLong);
    }
    Ok(Outgoing { mtu, id, stats })
}

fn is_anonymous(header: Header) -> bool
    ensures { result ≡ anonymous header }
{
    match header {
        Header::Message(message) => message.source.is_none(),
        Header::Request(_) | Header::Response(_) => false,
    }
}
