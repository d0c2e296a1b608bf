// What a row of the table means: where it stands, whether it applies, what it shows of the
// register's word, and what it takes of a written value.
ghost use Rattle.std.specs.Prelude.{◌≡◌};
ghost use Rattle.plain.specs.Numbers.{rule_numbered};
ghost use Rattle.plain.specs.Row.{is_at, applies_to, shows_of, takes_of};

use crate::extensions::S;
use crate::table::STCE;
use crate::words::Source;

// `takes` says what each of them means.
#[derive(Clone, Copy, Debug, PartialEq, Eq)]
pub enum Rule {
    Copied,
    Mpp,
    Cbie,
    Dirty,
    Interrupts,
    Tvec,
    Epc,
    Translation,
    Pending,
    Sstatus,
    Sie,
    Sip,
    Inverted,
    ReadOnly,
}

// A rule by its number, for a table that has numbers. One without a name copies.
impl From<u64> for Rule {
    ghost from_gives = { λ n rule. rule ≡ rule_numbered n };

    fn from(n: u64) -> Rule {
        match n {
            1 => Rule::Mpp,
            2 => Rule::Cbie,
            3 => Rule::Dirty,
            4 => Rule::Interrupts,
            5 => Rule::Tvec,
            6 => Rule::Epc,
            7 => Rule::Translation,
            8 => Rule::Pending,
            9 => Rule::Sstatus,
            10 => Rule::Sie,
            11 => Rule::Sip,
            12 => Rule::Inverted,
            13 => Rule::ReadOnly,
            _ => Rule::Copied,
        }
    }
}

// At the addresses from the first to the last, the register shows this word; the row is for harts
// with all of the extensions.
#[derive(Clone, Copy)]
pub struct Row {
    pub first: u64,
    pub last: u64,
    pub word: Source,
    pub extensions: u64,
    pub kept: u64,
    pub forced: u64,
    pub rule: Rule,
}

const SATP_MODE: u64 = 0xF000_0000_0000_0000;

const SV39: u64 = 0x8000_0000_0000_0000;

// SSIP, STIP and SEIP.
const SUPERVISOR: u64 = 0x222;

// What a row is asked with: what the hart has, the SEIP that the interrupt controller raises, words
// of the capabilities and of the record, the register's own word, and the value written.
#[derive(Clone, Copy)]
pub struct Asked {
    pub has: u64,
    pub raised: u64,
    pub interrupts: u64,
    pub highest: u64,
    pub mideleg: u64,
    pub menvcfg: u64,
    pub old: u64,
    pub value: u64,
}

impl Row {
    pub fn is_at(&self, address: u64) -> bool
        ensures { result ≡ is_at self.now address }
    {
        (self.first..=self.last).contains(&address)
    }

    // The hart has all that the row asks for.
    pub fn applies(&self, has: u64) -> bool
        ensures { result ≡ applies_to has self.now }
    {
        has & self.extensions == self.extensions
    }

    // What the row shows of the register's word.
    #[tactic(auto, unfolding(crate::specs::Row::shows_of))]
    pub fn shows(&self, q: Asked) -> u64
        ensures { result ≡ shows_of q self.now }
    {
        match self.rule {
            Rule::Sstatus => q.old & self.kept,
            Rule::Sie => q.old & (q.mideleg & self.kept),
            Rule::Sip => (q.old | q.raised) & (q.mideleg & SUPERVISOR),
            Rule::Pending => q.old | q.raised,
            Rule::Inverted => !q.old,
            _ => q.old,
        }
    }

    // What the row makes of the value.
    #[tactic(auto, unfolding(crate::specs::Row::takes_of))]
    pub fn takes(&self, q: Asked) -> u64
        ensures { result ≡ takes_of q self.now }
    {
        let v = q.value & self.kept;
        match self.rule {
            Rule::Copied | Rule::Inverted => v | self.forced,
            // 2 becomes 0, and 1 without S.
            Rule::Mpp => bits::select(v == 0x1000 || v == 0x800 && q.has & S != S, 0, v),
            // 2 becomes 0.
            Rule::Cbie => bits::select(v == 0x20, 0, v),
            // Forced only where the field is 3.
            Rule::Dirty => v | bits::only(v == self.kept, self.forced),
            // Those that the hart has.
            Rule::Interrupts => (v & q.interrupts) | self.forced,
            // A reserved mode keeps the old one.
            Rule::Tvec => bits::select((v & 2) == 0, v, (v & !3) | (q.old & 3)),
            // A value above the highest valid address is ignored.
            Rule::Epc => bits::select(q.value > q.highest, q.old, v),
            // A mode that is neither Bare nor Sv39 is ignored, with the whole value.
            Rule::Translation => bits::select(
                v & SATP_MODE == 0 || v & SATP_MODE == SV39,
                v,
                q.old,
            ),
            // Those that the hart has, but not STIP while STCE is 1; the others stay.
            Rule::Pending => bits::merge(
                q.old,
                q.value,
                self.kept & q.interrupts & !bits::only((q.menvcfg & STCE) == STCE, 0x20),
            ),
            // The delegated ones; the others stay.
            Rule::Sie => bits::merge(q.old, q.value, q.mideleg & self.kept),
            // The bits that aren't kept stay.
            Rule::Sip | Rule::Sstatus => bits::merge(q.old, q.value, self.kept),
            // A write is ignored.
            Rule::ReadOnly => q.old,
        }
    }
}
