// Which bits of a written value are lost: those in which it differs from the word that a write of
// it leaves, within the bits that are compared.
ghost use Rattle.std.specs.Prelude.{◌≡◌};
ghost use Rattle.bits.specs.Alg.{plain};
ghost use Rattle.csr.specs.Access.{read_of, left_by};
ghost use Rattle.csr.specs.Line.{line_down};
ghost use Rattle.lent.specs.Images.{hart_at};
ghost use Rattle.explain.specs.Lost.{compared_bits, lost_from};

use csr::address::Csr;
pub use csr::addresses::SSTATUS;
use csr::addresses::{SIE, SIP};
use csr::read::get;
use csr::write::Change;
use hart::caps::Caps;
use hart::record::Host;
use lent::images::{HART_BYTES, hart_at};
use rules::interrupts::SUPERVISOR_FILTER;
use rules::status::SSTATUS_FILTER;

pub const ALL: u64 = u64::MAX;

// A view is compared in the bits that it shows.
fn compared_bits(address: u64, mideleg: u64) -> u64
    ensures { result ≡ compared_bits plain address mideleg }
{
    match address {
        SSTATUS => SSTATUS_FILTER,
        SIE | SIP => mideleg & SUPERVISOR_FILTER,
        _ => ALL,
    }
}

// The word that is stored; where none is, what the CSR reads.
pub fn left(change: Change, c: Caps, hart: &[u8; HART_BYTES], o: Host, csr: Csr) -> u64
    ensures { result ≡ left_by change (read_of c (hart_at hart.now) (line_down o) csr) }
{
    match change {
        Some((_, x)) => x,
        None => get(c, hart_at(hart), o, csr),
    }
}

// The bits of a value that are lost at an address where this word is left.
pub fn lost(word: u64, address: u64, mideleg: u64, v: u64) -> u64
    ensures { result ≡ lost_from word address mideleg v }
{
    (v ^ word) & compared_bits(address, mideleg)
}
