// What is found of a write, before it is listed or counted: the bits that it loses, and the seven
// reasons.
ghost use Rattle.std.specs.Prelude.{◌≡◌};
ghost use Rattle.lent.specs.Images.{hart_at};
ghost use Rattle.explain.specs.Explain.{loss_of, found_of};

use crate::elsewhere::{change_of, elsewhere};
use crate::lost::{left, lost};
use crate::reasons::{Reasons, driven, forced, ignored, never, reserved, unstored};
use crate::write::Write;
use csr::lookup::Found;
use hart::answer::Refusal;
use hart::caps::Caps;
use hart::record::Host;
use lent::images::{HART_BYTES, caps_at, hart_at};
use lent::judge::judge;

#[derive(Clone, Copy)]
pub struct Loss {
    pub bits: u64,
    pub why: Reasons,
}

pub type Explanation = Result<Loss, Refusal>;

impl Write {
    #[tactic(auto, unfolding(crate::specs::Lost::lost_of, crate::specs::Reasons::reasons_of))]
    fn loss(self, c: Caps, hart: &[u8; HART_BYTES], o: Host) -> Loss
        ensures { result ≡ loss_of c (hart_at hart.now) o self.csr self.value }
    {
        let Write {
            csr,
            address,
            value,
        } = self;
        let change = change_of(c, hart, csr, value);
        let word = left(change, c, hart, o, csr);
        let h = hart_at(hart);
        Loss {
            bits: lost(word, address, h.mideleg, value),
            why: Reasons {
                unstored: unstored(change),
                never: never(address),
                elsewhere: elsewhere(c, hart, csr, value),
                reserved: reserved(address, value),
                forced: forced(address),
                ignored: ignored(address, value, c.highest),
                driven: driven(address, h.menvcfg),
            },
        }
    }
}

// It refuses what a write refuses.
#[tactic(auto, using(lent::proofs::Judged::images_sized, csr::proofs::Decoded::stands_there, crate::proofs::Made::own, crate::proofs::Made::found_by))]
pub fn judged(caps: &[u8], hart: &[u8], o: Host, address: u64, value: u64) -> Explanation
    ensures { result ≡ found_of o address value caps.now hart.now }
{
    judge(caps, hart)?;
    let c = caps_at(caps.as_array().unwrap());
    let csr = Found::at(address).on(c)?;
    let write = Write {
        csr,
        address,
        value,
    };
    Ok(write.loss(c, hart.as_array().unwrap(), o))
}
