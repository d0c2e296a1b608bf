// The call: the totals take what the write adds, or stay as they were.
ghost use Rattle.std.specs.Prelude.{◌≡◌};
ghost use Rattle.lent.specs.Outcome.{outcome_of};
ghost use Rattle.tally.specs.Totals.{tally_of};

use crate::totals::Totals;
use explain::explanation::judged;
use hart::answer::{Answer, Effect, Refusal};
use hart::record::Host;

#[tactic(auto, using(crate::proofs::Unlined::line_unread))]
pub fn tally(
    caps: &[u8],
    hart: &[u8],
    o: Host,
    address: u64,
    value: u64,
    totals: &mut Totals,
) -> Answer
    ensures { (outcome_of result, totals.new) ≡ tally_of o.time o.seed address value caps.now hart.now totals.old }
{
    let loss = judged(caps, hart, o, address, value)?;
    let sums = totals.checked_plus(Totals::of(loss));
    *totals = sums.ok_or(Refusal::TotalFull)?;
    Ok((0, Effect::Nothing))
}
