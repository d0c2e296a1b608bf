// A write that is explained: of a value, to a CSR that was found at its address.
ghost use Rattle.std.specs.Prelude.{◌≡◌, Some};
ghost use Rattle.csr.specs.Address.{address_of, csr_at};

use csr::address::Csr;

// The record isn't held: the contracts would then speak of it as a reference's entry.
#[derive(Clone, Copy)]
pub struct Write {
    pub csr: Csr,
    pub address: u64,
    pub value: u64,
    ghost stands: { csr_at (address_of csr) ≡ Some csr },
    ghost own: { address_of csr ≡ address },
}
