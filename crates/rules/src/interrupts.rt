// mie, sie, mip, sip, mideleg and medeleg. The filters have the original's names.
ghost use Rattle.std.specs.Prelude.{◌≡◌};
ghost use Rattle.rules.specs.Interrupts.{legal_mie, read_delegated, read_mip, written_sie, written_mip, written_sip, has_seip, legal_mideleg, legal_medeleg};

const SSIE_FILTER: u64 = 0x2;

pub const STIE_FILTER: u64 = 0x20;

const SEIE_FILTER: u64 = 0x200;

// The interrupts of supervisor level: the original's mie::SIE_FILTER.
pub const SUPERVISOR_FILTER: u64 = 0x222;

const MIE_WRITE_FILTER: u64 = 0xAAA;

const MIP_WRITE_FILTER: u64 = 0x222;

const MIDELEG_READ_ONLY_ZERO: u64 = 0x888;

pub const MIDELEG_READ_ONLY_ONE: u64 = 0x222;

const DELEGATABLE_BITS: u64 = 0xB3FF;

#[tactic(auto, unfolding(crate::specs::Interrupts::legal_mie))]
pub fn legalize_mie(v: u64, interrupts: u64) -> u64
    ensures { result ≡ legal_mie interrupts v }
{
    bits::keep(v, interrupts & MIE_WRITE_FILTER)
}

// What sie shows of mie, and sip of mip.
#[tactic(auto, unfolding(crate::specs::Interrupts::read_delegated))]
pub fn read_delegated(word: u64, mideleg: u64) -> u64
    ensures { result ≡ read_delegated mideleg word }
{
    bits::keep(word, mideleg & SUPERVISOR_FILTER)
}

#[tactic(auto, unfolding(crate::specs::Interrupts::written_sie))]
pub fn write_sie(mie: u64, v: u64, mideleg: u64) -> u64
    ensures { result ≡ written_sie mideleg mie v }
{
    bits::merge(mie, v, mideleg & SUPERVISOR_FILTER)
}

// The interrupt controller's signal is beside the stored SEIP, and never in it.
#[tactic(auto, unfolding(crate::specs::Interrupts::read_mip))]
pub fn read_mip(mip: u64, up: bool) -> u64
    ensures { result ≡ read_mip up mip }
{
    mip | bits::only(up, SEIE_FILTER)
}

// Where menvcfg enables Sstc, STIP is driven by stimecmp and read-only.
pub fn write_mip(mip: u64, v: u64, interrupts: u64, menvcfg: u64) -> u64
    ensures { result ≡ written_mip interrupts menvcfg mip v }
{
    let driven = bits::only(bits::bit(menvcfg, 63), STIE_FILTER);
    bits::merge(mip, v, interrupts & MIP_WRITE_FILTER & !driven)
}

#[tactic(auto, unfolding(crate::specs::Interrupts::written_sip))]
pub fn write_sip(mip: u64, v: u64) -> u64
    ensures { result ≡ written_sip mip v }
{
    bits::merge(mip, v, SSIE_FILTER)
}

pub fn has_seip(mip: u64) -> bool
    ensures { result ≡ has_seip mip }
{
    (mip & SEIE_FILTER) != 0
}

#[tactic(auto, unfolding(crate::specs::Interrupts::legal_mideleg))]
pub fn legalize_mideleg(v: u64, interrupts: u64) -> u64
    ensures { result ≡ legal_mideleg interrupts v }
{
    bits::keep(v, interrupts & !MIDELEG_READ_ONLY_ZERO) | MIDELEG_READ_ONLY_ONE
}

#[tactic(auto, unfolding(crate::specs::Interrupts::legal_medeleg))]
pub fn legalize_medeleg(v: u64) -> u64
    ensures { result ≡ legal_medeleg v }
{
    bits::keep(v, DELEGATABLE_BITS)
}
