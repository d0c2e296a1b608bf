// The registers that hold addresses: mtvec and stvec, mepc and sepc, satp.
ghost use Rattle.std.specs.Prelude.{◌≡◌, ◌==◌};
ghost use Rattle.rules.specs.Addresses.{is_tvec_mode, written_tvec, is_aligned, written_epc, is_satp_mode, written_satp};
ghost use Rattle.rules.specs.Inner.{alignment_bits};

pub const TVEC_MODE_FILTER: u64 = 3;

// Direct or vectored: the modes 2 and 3 are reserved. This is their bit.
pub fn reserved_tvec(v: u64) -> u64
    ensures { (result == 0) ≡ is_tvec_mode v }
{
    v & 2
}

pub fn is_tvec_mode(v: u64) -> bool
    ensures { result ≡ is_tvec_mode v }
{
    reserved_tvec(v) == 0
}

// A reserved mode takes the new base and keeps the old mode.
pub fn write_tvec(old: u64, v: u64) -> u64
    ensures { result ≡ written_tvec old v }
{
    bits::merge(v, old, bits::only(!is_tvec_mode(v), TVEC_MODE_FILTER))
}

// The bits of an instruction's address that are 0: bit 0, and without C bit 1 too.
fn alignment(has_c: bool) -> u64
    ensures { result ≡ alignment_bits has_c }
{
    bits::only(!has_c, 2) | 1
}

// Those of them that v has.
#[tactic(auto, unfolding(crate::specs::Addresses::is_aligned))]
pub fn misaligned(v: u64, has_c: bool) -> u64
    ensures { (result == 0) ≡ is_aligned has_c v }
{
    v & alignment(has_c)
}

pub fn is_aligned(v: u64, has_c: bool) -> bool
    ensures { result ≡ is_aligned has_c v }
{
    misaligned(v, has_c) == 0
}

// A value above the highest valid address is ignored.
#[tactic(auto, unfolding(crate::specs::Addresses::written_epc))]
pub fn write_epc(old: u64, v: u64, highest: u64, has_c: bool) -> u64
    ensures { result ≡ written_epc highest has_c old v }
{
    if v > highest {
        old
    } else {
        bits::keep(v, !alignment(has_c))
    }
}

// Bare or Sv39.
pub fn is_satp_mode(v: u64) -> bool
    ensures { result ≡ is_satp_mode v }
{
    let mode = v >> 60;
    (mode == 0) | (mode == 8)
}

// Another mode is ignored, with the whole word.
pub fn write_satp(old: u64, v: u64) -> u64
    ensures { result ≡ written_satp old v }
{
    if is_satp_mode(v) { v } else { old }
}
