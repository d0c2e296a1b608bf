// The table of the CSRs: which word each has, how it is read and written, which bits of the word a
// read shows, and which bits of a value a write takes. It is a `match` of constants on a dense
// number, and so a load for each column.
ghost use Rattle.std.specs.Prelude.{◌≡◌};
ghost use Rattle.registers.specs.Table.{row_of};

use csr::address::Csr;
use hart::record::Word;
use rules::status::SSTATUS_FILTER;

// How a CSR is read and written. The masks tell all of it, or what is shown is the word's
// complement, or what the host hands in. Or a write has a rule of its own, and then the word is
// shown, or the part of it that is delegated.
#[derive(Clone, Copy, Debug, PartialEq, Eq)]
pub enum Kind {
    Masked,
    Complement,
    Time,
    Seed,
    Ruled,
    Delegated,
}

// The word's number, the kind, the bits shown, the bits taken. The word is a number and no enum: it
// is a load at eight times it, and no branch hangs on which it is.
#[derive(Clone, Copy)]
pub struct Row {
    pub word: u8,
    pub kind: Kind,
    pub shown: u64,
    pub taken: u64,
}

// A word has its number in its image. Those of the record begin here, behind x0 to x31, and those
// of the capabilities are below.
pub const RECORD: u8 = 32;

pub const MIP: u8 = RECORD + Word::Mip as u8;

const ALL: u64 = u64::MAX;

// A row on one line: a word of the capabilities by its number, or one of the record by its name.
macro_rules! row {
    ($number:literal, $kind:ident, $shown:expr, $taken:expr) => {
        Row {
            word: $number,
            kind: Kind::$kind,
            shown: $shown,
            taken: $taken,
        }
    };
    ($name:ident, $kind:ident, $shown:expr, $taken:expr) => {
        Row {
            word: RECORD + Word::$name as u8,
            kind: Kind::$kind,
            shown: $shown,
            taken: $taken,
        }
    };
}

// A CSR that shows no word is given word 0, and one that ignores writes takes no bits. The masks
// are written out, so that the table is read by itself: as the definition has it.
pub fn row_of(csr: Csr) -> Row
    ensures { result ≡ row_of csr }
{
    match csr {
        Csr::Mstatus => row!(Mstatus, Ruled, ALL, 0),
        Csr::Misa => row!(0, Masked, ALL, 0),
        Csr::Medeleg => row!(Medeleg, Masked, ALL, 0xB3FF),
        Csr::Mideleg => row!(Mideleg, Ruled, ALL, 0),
        Csr::Mie => row!(Mie, Ruled, ALL, 0),
        Csr::Mtvec => row!(Mtvec, Ruled, ALL, 0),
        Csr::Mcounteren => row!(Mcounteren, Masked, ALL, 0x7),
        Csr::Menvcfg => row!(Menvcfg, Ruled, ALL, 0),
        Csr::Mcountinhibit => row!(Mcountinhibit, Masked, ALL, 0x5),
        Csr::Mscratch => row!(Mscratch, Masked, ALL, ALL),
        Csr::Mepc => row!(Mepc, Ruled, ALL, 0),
        Csr::Mcause => row!(Mcause, Masked, ALL, ALL),
        Csr::Mtval => row!(Mtval, Masked, ALL, ALL),
        Csr::Mip => row!(Mip, Ruled, ALL, 0),
        Csr::Sstatus => row!(Mstatus, Ruled, SSTATUS_FILTER, 0),
        Csr::Sie => row!(Mie, Delegated, ALL, 0),
        Csr::Stvec => row!(Stvec, Ruled, ALL, 0),
        Csr::Scounteren => row!(Scounteren, Masked, ALL, 0x7),
        Csr::Senvcfg => row!(Senvcfg, Ruled, ALL, 0),
        Csr::Sscratch => row!(Sscratch, Masked, ALL, ALL),
        Csr::Sepc => row!(Sepc, Ruled, ALL, 0),
        Csr::Scause => row!(Scause, Masked, ALL, ALL),
        Csr::Stval => row!(Stval, Masked, ALL, ALL),
        Csr::Sip => row!(Mip, Delegated, ALL, 0),
        Csr::Stimecmp => row!(Stimecmp, Masked, ALL, ALL),
        Csr::Satp => row!(Satp, Ruled, ALL, 0),
        Csr::Scontext => row!(0, Masked, 0, 0),
        Csr::Tselect => row!(Tselect, Complement, ALL, ALL),
        Csr::Mcycle => row!(Mcycle, Masked, ALL, ALL),
        Csr::Minstret => row!(Minstret, Masked, ALL, ALL),
        Csr::Cycle => row!(Mcycle, Masked, ALL, 0),
        Csr::Time => row!(0, Time, 0, 0),
        Csr::Instret => row!(Minstret, Masked, ALL, 0),
        Csr::Mvendorid => row!(5, Masked, ALL, 0),
        Csr::Marchid => row!(6, Masked, ALL, 0),
        Csr::Mimpid => row!(7, Masked, ALL, 0),
        Csr::Mhartid => row!(4, Masked, ALL, 0),
        Csr::Mconfigptr => row!(8, Masked, ALL, 0),
        Csr::Seed => row!(0, Seed, 0, 0),
        Csr::Mhpmcounter(_) => row!(0, Masked, 0, 0),
        Csr::Mhpmevent(_) => row!(0, Masked, 0, 0),
    }
}
