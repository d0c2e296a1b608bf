// Elsewhere: the bits that other extensions or interrupts would store as they are written. Three
// capabilities answer for all others.
ghost use Rattle.std.specs.Prelude.{◌≡◌, Some};
ghost use Rattle.csr.specs.Access.{stored_of};
ghost use Rattle.csr.specs.Address.{address_of, csr_at};
ghost use Rattle.lent.specs.Images.{hart_at};
ghost use Rattle.explain.specs.Reasons.{otherwise, kept_bits, kept_under, elsewhere};

use csr::address::{Csr, is_present};
use csr::write::{Change, stored};
use hart::caps::Caps;
use lent::images::{HART_BYTES, hart_at};

fn otherwise(c: Caps, misa: u64, interrupts: u64, flags: u64) -> Caps
    ensures { result ≡ otherwise misa interrupts flags c }
{
    Caps {
        misa,
        interrupts,
        flags,
        ..c
    }
}

fn kept_bits(change: Change, v: u64) -> u64
    ensures { result ≡ kept_bits change v }
{
    change.map_or(0, |(_, x)| !(v ^ x))
}

// What a write changes under these capabilities.
pub fn change_of(d: Caps, hart: &[u8; HART_BYTES], csr: Csr, v: u64) -> Change
    ensures { result ≡ stored_of d (hart_at hart.now) csr v }
{
    stored(d, hart_at(hart), csr, v)
}

fn kept_under(d: Caps, hart: &[u8; HART_BYTES], csr: Csr, v: u64) -> u64
    requires { csr_at (address_of csr) ≡ Some csr }
    ensures { result ≡ kept_under d (hart_at hart.now) csr v }
{
    bits::only(
        is_present(d.has_s(), d.has_sstc(), csr),
        kept_bits(change_of(d, hart, csr, v), v),
    )
}

#[tactic(auto, unfolding(crate::specs::Reasons::elsewhere))]
pub fn elsewhere(c: Caps, hart: &[u8; HART_BYTES], csr: Csr, v: u64) -> u64
    requires { csr_at (address_of csr) ≡ Some csr }
    ensures { result ≡ elsewhere c (hart_at hart.now) csr v }
{
    let widest = otherwise(c, 0x8000_0000_0034_0024, 0x2AAA, 0x1E);
    let barest = otherwise(c, 0x8000_0000_0010_0000, 0, 0);
    let with_zfinx = otherwise(c, 0x8000_0000_0014_0000, 0x222, 0x1);
    kept_under(widest, hart, csr, v)
        | kept_under(barest, hart, csr, v)
        | kept_under(with_zfinx, hart, csr, v)
}
