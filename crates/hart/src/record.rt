// The hart's record, its words by name, and what the host hands in: plain words, by value.

#[derive(Clone, Copy)]
pub struct Hart {
    pub x: [u64; 32],
    pub pc: u64,
    pub mode: u64,
    pub waiting: u64,
    pub mstatus: u64,
    pub mie: u64,
    pub mip: u64,
    pub mideleg: u64,
    pub medeleg: u64,
    pub mtvec: u64,
    pub mcounteren: u64,
    pub mcountinhibit: u64,
    pub menvcfg: u64,
    pub mscratch: u64,
    pub mepc: u64,
    pub mcause: u64,
    pub mtval: u64,
    pub mcycle: u64,
    pub minstret: u64,
    pub tselect: u64,
    pub stvec: u64,
    pub scounteren: u64,
    pub senvcfg: u64,
    pub sscratch: u64,
    pub sepc: u64,
    pub scause: u64,
    pub stval: u64,
    pub satp: u64,
    pub stimecmp: u64,
}

// The words behind x0 to x31, in the image's order; new ones are appended. They are the fields of
// `Hart` once more, which contracts name.
#[derive(Clone, Copy, Debug, PartialEq, Eq)]
pub enum Word {
    Pc,
    Mode,
    Waiting,
    Mstatus,
    Mie,
    Mip,
    Mideleg,
    Medeleg,
    Mtvec,
    Mcounteren,
    Mcountinhibit,
    Menvcfg,
    Mscratch,
    Mepc,
    Mcause,
    Mtval,
    Mcycle,
    Minstret,
    Tselect,
    Stvec,
    Scounteren,
    Senvcfg,
    Sscratch,
    Sepc,
    Scause,
    Stval,
    Satp,
    Stimecmp,
}

impl Word {
    pub const ALL: [Word; 28] = [
        Word::Pc,
        Word::Mode,
        Word::Waiting,
        Word::Mstatus,
        Word::Mie,
        Word::Mip,
        Word::Mideleg,
        Word::Medeleg,
        Word::Mtvec,
        Word::Mcounteren,
        Word::Mcountinhibit,
        Word::Menvcfg,
        Word::Mscratch,
        Word::Mepc,
        Word::Mcause,
        Word::Mtval,
        Word::Mcycle,
        Word::Minstret,
        Word::Tselect,
        Word::Stvec,
        Word::Scounteren,
        Word::Senvcfg,
        Word::Sscratch,
        Word::Sepc,
        Word::Scause,
        Word::Stval,
        Word::Satp,
        Word::Stimecmp,
    ];
}

// What the host hands to each call that can read a register; the line is the interrupt
// controller's for SEIP, 1 while it is up.
#[derive(Clone, Copy)]
pub struct Host {
    pub time: u64,
    pub seed: u64,
    pub line: u64,
}

impl Host {
    // A clock and a seed of 0, and the line down.
    pub const QUIET: Host = Host {
        time: 0,
        seed: 0,
        line: 0,
    };
}
