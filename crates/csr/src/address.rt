// From a CSR's address to the CSR, and whether the hart has it.
ghost use Rattle.std.specs.Prelude.{◌≡◌, Some};
ghost use Rattle.csr.specs.Address.{address_of, csr_at, counter_at, is_present_with};
ghost use Rattle.csr.specs.Slots.{slot_of};

use crate::table::{address_in, csr_in, needs};

// The order is fixed: new CSRs are appended.
#[derive(Clone, Copy, Debug, PartialEq, Eq)]
pub enum Csr {
    Mstatus,
    Misa,
    Medeleg,
    Mideleg,
    Mie,
    Mtvec,
    Mcounteren,
    Menvcfg,
    Mcountinhibit,
    Mscratch,
    Mepc,
    Mcause,
    Mtval,
    Mip,
    Sstatus,
    Sie,
    Stvec,
    Scounteren,
    Senvcfg,
    Sscratch,
    Sepc,
    Scause,
    Stval,
    Sip,
    Stimecmp,
    Satp,
    Scontext,
    Tselect,
    Mcycle,
    Minstret,
    Cycle,
    Time,
    Instret,
    Mvendorid,
    Marchid,
    Mimpid,
    Mhartid,
    Mconfigptr,
    Seed,
    Mhpmcounter(u64),
    Mhpmevent(u64),
}

// The slot of an address: a perfect hash of those that stand alone. If a new CSR's address meets
// another's slot, another multiplier is to be sought.
fn slot(address: u64) -> u64
    ensures { result ≡ slot_of address }
{
    (((address % 0x1000) * 0x128D) >> 9) % 64
}

pub fn csr_at(address: u64) -> Option<Csr>
    ensures { result ≡ csr_at address }
{
    let n = slot(address);
    if address_in(n) as u64 == address {
        Some(csr_in(n))
    } else {
        counter_at(address)
    }
}

// The two runs of counters, which have no slots.
fn counter_at(address: u64) -> Option<Csr>
    ensures { result ≡ counter_at address }
{
    match address {
        0xB03..=0xB1F => Some(Csr::Mhpmcounter(address - 0xB00)),
        0x323..=0x33F => Some(Csr::Mhpmevent(address - 0x320)),
        _ => None,
    }
}

// Asked of a CSR that was found, and not of its address: what it needs is then one load. No `Found`
// is taken, here and in `needs`: explain asks it of other capabilities once a CSR is known.
pub fn is_present(has_s: bool, has_sstc: bool, csr: Csr) -> bool
    requires { csr_at (address_of csr) ≡ Some csr }
    ensures { result ≡ is_present_with has_s has_sstc (address_of csr) }
{
    // tested as bits, so that no branch hangs on which CSR it is
    needs(csr) as u64 & !(bits::only(has_s, 1) | bits::only(has_sstc, 2)) == 0
}
