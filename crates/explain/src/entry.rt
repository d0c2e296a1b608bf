// The call on lent bytes: it refuses what a write refuses, and lists what the others lose.
ghost use Rattle.std.specs.Prelude.{◌≡◌};
ghost use Rattle.explain.specs.Explain.{explain_of};

use crate::explanation::judged;
use crate::listing::Listing;
use hart::record::Host;

#[tactic(auto, unfolding(crate::specs::Explain::explain_of))]
pub fn explain(caps: &[u8], hart: &[u8], o: Host, address: u64, value: u64) -> Listing
    ensures { result ≡ explain_of o address value caps.now hart.now }
{
    // Made by `into`, the listing would be copied whole on its way out.
    match judged(caps, hart, o, address, value) {
        Ok(loss) => Listing::of(loss),
        Err(why) => Listing::refused(why.into()),
    }
}
