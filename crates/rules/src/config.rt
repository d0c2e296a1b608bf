// The registers that switch things on: the counters' enables and inhibits, menvcfg and senvcfg; and
// tselect.
ghost use Rattle.std.specs.Prelude.{◌≡◌};
ghost use Rattle.rules.specs.Config.{legal_counteren, legal_countinhibit, read_tselect};
ghost use Rattle.rules.specs.Inner.{legal_envcfg};

pub const CBIE_FILTER: u64 = 0x30;

pub const CBIE_UPPER: u64 = 0x20;

// mcounteren and scounteren: CY, TM, IR.
#[tactic(auto, unfolding(crate::specs::Config::legal_counteren))]
pub fn legalize_counteren(v: u64) -> u64
    ensures { result ≡ legal_counteren v }
{
    bits::keep(v, 7)
}

// CY and IR: the time can't be stopped.
#[tactic(auto, unfolding(crate::specs::Config::legal_countinhibit))]
pub fn legalize_countinhibit(v: u64) -> u64
    ensures { result ≡ legal_countinhibit v }
{
    bits::keep(v, 5)
}

// menvcfg and senvcfg, of which the mask has the bits that can be 1. A reserved CBIE, the upper bit
// alone, becomes 0.
pub fn legalize_envcfg(v: u64, mask: u64) -> u64
    ensures { result ≡ legal_envcfg mask v }
{
    v & ((v << 1) | !CBIE_UPPER) & mask
}

// A debugger that selects a trigger and reads tselect back finds its complement: there is no such
// trigger.
pub fn read_tselect(tselect: u64) -> u64
    ensures { result ≡ read_tselect tselect }
{
    !tselect
}
