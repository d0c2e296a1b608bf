// The table that the plain engine goes by. A register has a row for each condition, and its rule is
// what its rows give together. docs/REGISTERS.md is this table with the names of fields.
use crate::extensions::{ANY, C, F, NO_ZFINX, S, SSTC, SVPBMT, V, ZICBOM, ZICBOZ};
use crate::row::Row;
use crate::row::Rule::{
    Cbie, Copied, Dirty, Epc, Interrupts, Inverted, Mpp, Pending, ReadOnly, Sie, Sip, Sstatus,
    Translation, Tvec,
};
use crate::words::Source::{
    Marchid, Mconfigptr, Mhartid, Mimpid, Misa, Mvendorid, Record, Seed, Time, Zero,
};
use hart::record::Word::{
    Mcause, Mcounteren, Mcountinhibit, Mcycle, Medeleg, Menvcfg, Mepc, Mideleg, Mie, Minstret, Mip,
    Mscratch, Mstatus, Mtval, Mtvec, Satp, Scause, Scounteren, Senvcfg, Sepc, Sscratch, Stimecmp,
    Stval, Stvec, Tselect,
};

// Kept and forced bits that have a name: the table's own, since it is to be read by itself.
pub const ALL: u64 = u64::MAX;

pub const BY_FOUR: u64 = 0xFFFF_FFFF_FFFF_FFFC;

pub const NOT_MACHINE: u64 = 0xFFFF_FFFF_FFFF_F777;

pub const SSTATUS_BITS: u64 = 0x8000_0003_000D_E762;

pub const UXL_64: u64 = 0x2_0000_0000;

pub const SXL_64: u64 = 0x8_0000_0000;

pub const SD: u64 = 0x8000_0000_0000_0000;

pub const PBMTE: u64 = 0x4000_0000_0000_0000;

pub const STCE: u64 = 0x8000_0000_0000_0000;

// A row on one line, as no function can build it: of a register, or of a run of registers.
macro_rules! row {
    ($at:literal, $word:expr, $set:expr, $kept:expr, $forced:expr, $rule:expr) => {
        row!($at..=$at, $word, $set, $kept, $forced, $rule)
    };
    ($from:literal..=$to:literal, $word:expr, $set:expr, $kept:expr, $forced:expr, $rule:expr) => {
        Row {
            first: $from,
            last: $to,
            word: $word,
            extensions: $set,
            kept: $kept,
            forced: $forced,
            rule: $rule,
        }
    };
}

pub const ROWS: usize = 57;

// The address or addresses, word, extensions, kept, forced, rule.
pub static TABLE: [Row; ROWS] = [
    row!(0x015, Seed, ANY, 0, 0, ReadOnly),
    row!(0x100, Record(Mstatus), S, SSTATUS_BITS, 0, Sstatus),
    row!(0x104, Record(Mie), S, 0x222, 0, Sie),
    row!(0x105, Record(Stvec), S, ALL, 0, Tvec),
    row!(0x106, Record(Scounteren), S, 0x7, 0, Copied),
    row!(0x10A, Record(Senvcfg), S, 0x1, 0, Copied),
    row!(0x10A, Record(Senvcfg), S | ZICBOM, 0x30, 0, Cbie),
    row!(0x10A, Record(Senvcfg), S | ZICBOM, 0x40, 0, Copied),
    row!(0x10A, Record(Senvcfg), S | ZICBOZ, 0x80, 0, Copied),
    row!(0x140, Record(Sscratch), S, ALL, 0, Copied),
    row!(0x141, Record(Sepc), S, BY_FOUR, 0, Epc),
    row!(0x141, Record(Sepc), S | C, 0x2, 0, Epc),
    row!(0x142, Record(Scause), S, ALL, 0, Copied),
    row!(0x143, Record(Stval), S, ALL, 0, Copied),
    row!(0x144, Record(Mip), S, 0x2, 0, Sip),
    row!(0x14D, Record(Stimecmp), S | SSTC, ALL, 0, Copied),
    row!(0x180, Record(Satp), S, ALL, 0, Translation),
    row!(0x300, Record(Mstatus), ANY, 0x22_0088, UXL_64, Copied),
    row!(0x300, Record(Mstatus), ANY, 0x1800, 0, Mpp),
    row!(0x300, Record(Mstatus), S, 0x5C_0122, SXL_64, Copied),
    row!(0x300, Record(Mstatus), F | NO_ZFINX, 0x6000, SD, Dirty),
    row!(0x300, Record(Mstatus), S | NO_ZFINX, 0x6000, SD, Dirty),
    row!(0x300, Record(Mstatus), V, 0x600, SD, Dirty),
    row!(0x300, Record(Mstatus), S, 0x600, SD, Dirty),
    row!(0x301, Misa, ANY, 0, 0, ReadOnly),
    row!(0x302, Record(Medeleg), S, 0xB3FF, 0, Copied),
    row!(0x303, Record(Mideleg), S, NOT_MACHINE, 0x222, Interrupts),
    row!(0x304, Record(Mie), ANY, 0xAAA, 0, Interrupts),
    row!(0x305, Record(Mtvec), ANY, ALL, 0, Tvec),
    row!(0x306, Record(Mcounteren), ANY, 0x7, 0, Copied),
    row!(0x30A, Record(Menvcfg), ANY, 0x1, 0, Copied),
    row!(0x30A, Record(Menvcfg), ZICBOM, 0x30, 0, Cbie),
    row!(0x30A, Record(Menvcfg), ZICBOM, 0x40, 0, Copied),
    row!(0x30A, Record(Menvcfg), ZICBOZ, 0x80, 0, Copied),
    row!(0x30A, Record(Menvcfg), SVPBMT, PBMTE, 0, Copied),
    row!(0x30A, Record(Menvcfg), SSTC, STCE, 0, Copied),
    row!(0x320, Record(Mcountinhibit), ANY, 0x5, 0, Copied),
    row!(0x323..=0x33F, Zero, ANY, 0, 0, ReadOnly),
    row!(0x340, Record(Mscratch), ANY, ALL, 0, Copied),
    row!(0x341, Record(Mepc), ANY, BY_FOUR, 0, Epc),
    row!(0x341, Record(Mepc), C, 0x2, 0, Epc),
    row!(0x342, Record(Mcause), ANY, ALL, 0, Copied),
    row!(0x343, Record(Mtval), ANY, ALL, 0, Copied),
    row!(0x344, Record(Mip), ANY, 0x222, 0, Pending),
    row!(0x5A8, Zero, S, 0, 0, ReadOnly),
    row!(0x7A0, Record(Tselect), ANY, ALL, 0, Inverted),
    row!(0xB00, Record(Mcycle), ANY, ALL, 0, Copied),
    row!(0xB02, Record(Minstret), ANY, ALL, 0, Copied),
    row!(0xB03..=0xB1F, Zero, ANY, 0, 0, ReadOnly),
    row!(0xC00, Record(Mcycle), ANY, 0, 0, ReadOnly),
    row!(0xC01, Time, ANY, 0, 0, ReadOnly),
    row!(0xC02, Record(Minstret), ANY, 0, 0, ReadOnly),
    row!(0xF11, Mvendorid, ANY, 0, 0, ReadOnly),
    row!(0xF12, Marchid, ANY, 0, 0, ReadOnly),
    row!(0xF13, Mimpid, ANY, 0, 0, ReadOnly),
    row!(0xF14, Mhartid, ANY, 0, 0, ReadOnly),
    row!(0xF15, Mconfigptr, ANY, 0, 0, ReadOnly),
];
