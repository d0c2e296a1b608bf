// The seven reasons why a bit is lost, each with the word of the bits for which it holds; a CSR is
// told by its address.
ghost use Rattle.std.specs.Prelude.{◌≡◌, ◌<◌, ltb};
ghost use Rattle.bits.specs.Alg.{plain};
ghost use Rattle.explain.specs.Reason.{reason_number, first_at, reason_at};
ghost use Rattle.explain.specs.Reasons.{unstored, taken_at, never, reserved, forced, ignored, driven};

use csr::addresses::{
    MCOUNTEREN, MCOUNTINHIBIT, MEDELEG, MENVCFG, MEPC, MIDELEG, MIE, MIP, MSTATUS, MTVEC, SATP,
    SCOUNTEREN, SENVCFG, SEPC, SIE, SIP, SSTATUS, STVEC,
};
use csr::write::Change;
use rules::addresses::{TVEC_MODE_FILTER, is_satp_mode, is_tvec_mode};
use rules::config::{CBIE_FILTER, CBIE_UPPER};
use rules::interrupts::{MIDELEG_READ_ONLY_ONE, STIE_FILTER};
use rules::status::{MPP_FILTER, MPP_UPPER};

// Why a bit is lost, with the number that C is told.
#[derive(Clone, Copy, Debug, PartialEq, Eq)]
pub enum Reason {
    // The CSR is read-only, or reads 0.
    Unstored = 1,
    // No hart takes the bit from a value.
    Never,
    // Other extensions or interrupts would store it.
    Elsewhere,
    // The field's value is reserved.
    Reserved,
    // The field is derived or forced.
    Forced,
    // The whole write is ignored.
    Ignored,
    // stimecmp drives STIP.
    Driven,
}

impl From<Reason> for u8 {
    ghost from_gives = { λ k n. n ≡ reason_number k };

    fn from(k: Reason) -> u8 {
        k as u8
    }
}

// The bits for which each holds: fields, which contracts name.
#[derive(Clone, Copy)]
pub struct Reasons {
    pub unstored: u64,
    pub never: u64,
    pub elsewhere: u64,
    pub reserved: u64,
    pub forced: u64,
    pub ignored: u64,
    pub driven: u64,
}

impl Reasons {
    // The first that holds for a bit. Of a `find` in an array of pairs the proof did not close.
    fn first(self, i: u64) -> Option<Reason>
        requires { i < 64 }
        ensures { result ≡ first_at self i }
    {
        if bits::bit(self.unstored, i) {
            Some(Reason::Unstored)
        } else if bits::bit(self.never, i) {
            Some(Reason::Never)
        } else if bits::bit(self.elsewhere, i) {
            Some(Reason::Elsewhere)
        } else if bits::bit(self.reserved, i) {
            Some(Reason::Reserved)
        } else if bits::bit(self.forced, i) {
            Some(Reason::Forced)
        } else if bits::bit(self.ignored, i) {
            Some(Reason::Ignored)
        } else if bits::bit(self.driven, i) {
            Some(Reason::Driven)
        } else {
            None
        }
    }

    // Its number; 0 where none does.
    pub fn reason(self, i: u64) -> u8
        requires { i < 64 }
        ensures { result ≡ reason_at self i }
    {
        self.first(i).map_or(0, u8::from)
    }
}

// UXL, SXL and SD.
const FORCED_IN_MSTATUS: u64 = 0x8000_000F_0000_0000;

// UXL and SD.
const FORCED_IN_SSTATUS: u64 = 0x8000_0003_0000_0000;

// Unstored: a write stores nothing.
pub fn unstored(change: Change) -> u64
    ensures { result ≡ unstored change }
{
    bits::only(change.is_none(), u64::MAX)
}

// The bits that some hart takes from a value: of all harts, and so no mask of a rule of this one.
fn taken(address: u64) -> u64
    ensures { result ≡ taken_at plain address }
{
    match address {
        MSTATUS => 0x7E_7FAA,
        SSTATUS => 0xC_6722,
        MIE => 0xAAA,
        SIE | MIP => 0x222,
        SIP => 0x2,
        MIDELEG => 0x2000,
        MEDELEG => 0xB3FF,
        MCOUNTEREN | SCOUNTEREN => 7,
        MCOUNTINHIBIT => 5,
        MENVCFG => 0xC000_0000_0000_00F1,
        SENVCFG => 0xF1,
        MEPC | SEPC => 0xFFFF_FFFF_FFFF_FFFE,
        _ => u64::MAX,
    }
}

// Never: no hart takes the bit from a value, and it isn't in a field of Forced.
pub fn never(address: u64) -> u64
    ensures { result ≡ never plain address }
{
    !(taken(address) | forced(address))
}

// Reserved: a reserved value, for that field's bits.
#[tactic(auto, unfolding(rules::specs::Addresses::is_tvec_mode))]
pub fn reserved(address: u64, v: u64) -> u64
    ensures { result ≡ reserved plain address v }
{
    match address {
        MSTATUS => bits::only((v & MPP_FILTER) == MPP_UPPER, MPP_FILTER),
        MENVCFG | SENVCFG => bits::only((v & CBIE_FILTER) == CBIE_UPPER, CBIE_FILTER),
        MTVEC | STVEC => bits::only(!is_tvec_mode(v), TVEC_MODE_FILTER),
        _ => 0,
    }
}

// Forced: a derived or forced field.
pub fn forced(address: u64) -> u64
    ensures { result ≡ forced plain address }
{
    match address {
        MSTATUS => FORCED_IN_MSTATUS,
        SSTATUS => FORCED_IN_SSTATUS,
        MIDELEG => MIDELEG_READ_ONLY_ONE,
        _ => 0,
    }
}

// Ignored: the whole write is ignored.
#[tactic(auto, unfolding(rules::specs::Addresses::is_satp_mode))]
pub fn ignored(address: u64, v: u64, highest: u64) -> u64
    ensures { result ≡ ignored plain address (ltb highest v) v }
{
    match address {
        MEPC | SEPC => bits::only(v > highest, u64::MAX),
        SATP => bits::only(!is_satp_mode(v), u64::MAX),
        _ => 0,
    }
}

// Driven: STIP of mip, while stimecmp drives it.
pub fn driven(address: u64, menvcfg: u64) -> u64
    ensures { result ≡ driven plain address menvcfg }
{
    bits::only(address == MIP && bits::bit(menvcfg, 63), STIE_FILTER)
}
