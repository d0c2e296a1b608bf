// Tables of the CSRs by slot, and one by CSR: each a `match` of constants on a dense number, which
// becomes one load. Slots stand in the order of their CSRs.
ghost use Rattle.std.specs.Prelude.{◌≡◌, Some};
ghost use Rattle.csr.specs.Address.{address_of, csr_at};
ghost use Rattle.csr.specs.Inner.{needs_of};
ghost use Rattle.csr.specs.Slots.{csr_in};

use crate::address::Csr;

// The CSR of a slot. A slot that no CSR's address has is given mstatus, whose own slot is another.
#[tactic(auto, unfolding(crate::specs::Slots::csr_in))]
pub fn csr_in(slot: u64) -> Csr
    ensures { result ≡ csr_in slot }
{
    match slot {
        19 => Csr::Mstatus,
        28 => Csr::Misa,
        38 => Csr::Medeleg,
        47 => Csr::Mideleg,
        56 => Csr::Mie,
        1 => Csr::Mtvec,
        11 => Csr::Mcounteren,
        48 => Csr::Menvcfg,
        60 => Csr::Mcountinhibit,
        37 => Csr::Mscratch,
        46 => Csr::Mepc,
        55 => Csr::Mcause,
        0 => Csr::Mtval,
        10 => Csr::Mip,
        6 => Csr::Sstatus,
        43 => Csr::Sie,
        52 => Csr::Stvec,
        62 => Csr::Scounteren,
        35 => Csr::Senvcfg,
        24 => Csr::Sscratch,
        33 => Csr::Sepc,
        42 => Csr::Scause,
        51 => Csr::Stval,
        61 => Csr::Sip,
        16 => Csr::Stimecmp,
        41 => Csr::Satp,
        54 => Csr::Scontext,
        57 => Csr::Tselect,
        7 => Csr::Mcycle,
        26 => Csr::Minstret,
        14 => Csr::Cycle,
        23 => Csr::Time,
        32 => Csr::Instret,
        63 => Csr::Mvendorid,
        8 => Csr::Marchid,
        17 => Csr::Mimpid,
        27 => Csr::Mhartid,
        36 => Csr::Mconfigptr,
        2 => Csr::Seed,
        _ => Csr::Mstatus,
    }
}

// The address of the CSR of a slot.
#[tactic(auto, unfolding(crate::specs::Slots::csr_in))]
pub fn address_in(slot: u64) -> u16
    ensures { result ≡ address_of (csr_in slot) }
{
    match slot {
        19 => 0x300,
        28 => 0x301,
        38 => 0x302,
        47 => 0x303,
        56 => 0x304,
        1 => 0x305,
        11 => 0x306,
        48 => 0x30A,
        60 => 0x320,
        37 => 0x340,
        46 => 0x341,
        55 => 0x342,
        0 => 0x343,
        10 => 0x344,
        6 => 0x100,
        43 => 0x104,
        52 => 0x105,
        62 => 0x106,
        35 => 0x10A,
        24 => 0x140,
        33 => 0x141,
        42 => 0x142,
        51 => 0x143,
        61 => 0x144,
        16 => 0x14D,
        41 => 0x180,
        54 => 0x5A8,
        57 => 0x7A0,
        7 => 0xB00,
        26 => 0xB02,
        14 => 0xC00,
        23 => 0xC01,
        32 => 0xC02,
        63 => 0xF11,
        8 => 0xF12,
        17 => 0xF13,
        27 => 0xF14,
        36 => 0xF15,
        2 => 0x015,
        _ => 0x300,
    }
}

// What the CSR needs, as bits: 1 is S, for mideleg, medeleg and the S registers, and 2 is Sstc.
pub fn needs(csr: Csr) -> u8
    requires { csr_at (address_of csr) ≡ Some csr }
    ensures { result ≡ needs_of (address_of csr) }
{
    match csr {
        Csr::Medeleg
        | Csr::Mideleg
        | Csr::Sstatus
        | Csr::Sie
        | Csr::Stvec
        | Csr::Scounteren
        | Csr::Senvcfg
        | Csr::Sscratch
        | Csr::Sepc
        | Csr::Scause
        | Csr::Stval
        | Csr::Sip
        | Csr::Satp
        | Csr::Scontext => 1,
        Csr::Stimecmp => 3,
        _ => 0,
    }
}
