// The addresses of the CSRs that code names.

pub const SEED: u64 = 0x015;

pub const SSTATUS: u64 = 0x100;

pub const SIE: u64 = 0x104;

pub const STVEC: u64 = 0x105;

pub const SCOUNTEREN: u64 = 0x106;

pub const SENVCFG: u64 = 0x10A;

pub const SEPC: u64 = 0x141;

pub const SIP: u64 = 0x144;

pub const STIMECMP: u64 = 0x14D;

pub const SATP: u64 = 0x180;

pub const MSTATUS: u64 = 0x300;

pub const MISA: u64 = 0x301;

pub const MEDELEG: u64 = 0x302;

pub const MIDELEG: u64 = 0x303;

pub const MIE: u64 = 0x304;

pub const MTVEC: u64 = 0x305;

pub const MCOUNTEREN: u64 = 0x306;

pub const MENVCFG: u64 = 0x30A;

pub const MCOUNTINHIBIT: u64 = 0x320;

pub const MSCRATCH: u64 = 0x340;

pub const MEPC: u64 = 0x341;

pub const MCAUSE: u64 = 0x342;

pub const MIP: u64 = 0x344;

pub const TSELECT: u64 = 0x7A0;

pub const TIME: u64 = 0xC01;

pub const MVENDORID: u64 = 0xF11;
