// The names of the record's words: the manual's, and for mode and waiting the record's own.
use crate::record::Word;
use std::fmt;

impl fmt::Display for Word {
    fn fmt<W: fmt::Write>(&self, f: &mut fmt::Formatter<W>) -> fmt::Result {
        f.pad(match *self {
            Word::Pc => "pc",
            Word::Mode => "mode",
            Word::Waiting => "waiting",
            Word::Mstatus => "mstatus",
            Word::Mie => "mie",
            Word::Mip => "mip",
            Word::Mideleg => "mideleg",
            Word::Medeleg => "medeleg",
            Word::Mtvec => "mtvec",
            Word::Mcounteren => "mcounteren",
            Word::Mcountinhibit => "mcountinhibit",
            Word::Menvcfg => "menvcfg",
            Word::Mscratch => "mscratch",
            Word::Mepc => "mepc",
            Word::Mcause => "mcause",
            Word::Mtval => "mtval",
            Word::Mcycle => "mcycle",
            Word::Minstret => "minstret",
            Word::Tselect => "tselect",
            Word::Stvec => "stvec",
            Word::Scounteren => "scounteren",
            Word::Senvcfg => "senvcfg",
            Word::Sscratch => "sscratch",
            Word::Sepc => "sepc",
            Word::Scause => "scause",
            Word::Stval => "stval",
            Word::Satp => "satp",
            Word::Stimecmp => "stimecmp",
        })
    }
}
