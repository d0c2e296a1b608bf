// A CSR that was looked up by its address: that can be done before the images are judged.
ghost use Rattle.std.specs.Prelude.{◌≡◌};
ghost use Rattle.csr.specs.Address.{csr_at, decode_of};

use crate::address::{Csr, csr_at, is_present};
use hart::answer::Refusal;
use hart::caps::Caps;

#[derive(Clone, Copy)]
pub struct Found {
    pub address: u64,
    pub csr: Option<Csr>,
    ghost stands: { csr ≡ csr_at address },
}

impl Found {
    pub fn at(address: u64) -> Found
        ensures { result.address ≡ address }
    {
        Found {
            address,
            csr: csr_at(address),
        }
    }

    // The CSR, if this hart has it: refusal 3 comes before refusal 4.
    #[tactic(auto, using(crate::proofs::Found::stands, crate::proofs::Decoded::present, crate::proofs::Decoded::absent))]
    pub fn on(self, c: Caps) -> Result<Csr, Refusal>
        ensures { result ≡ decode_of c self.address }
    {
        let csr = self.csr.ok_or(Refusal::NoSuchCsr)?;
        if is_present(c.has_s(), c.has_sstc(), csr) {
            Ok(csr)
        } else {
            Err(Refusal::CsrAbsent)
        }
    }
}
