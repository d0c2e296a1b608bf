// What each CSR reads: first with the interrupt controller's line down, and then with the line as
// it is, which shows in two of them.
ghost use Rattle.std.specs.Prelude.{◌≡◌};
ghost use Rattle.csr.specs.Line.{raises_seip, line_down};
ghost use Rattle.csr.specs.Access.{read_of};
ghost use Rattle.csr.specs.Inner.{shown_at};

use crate::address::Csr;
use crate::addresses::{MIP, SIP};
use crate::line::raises_seip;
use hart::caps::Caps;
use hart::record::{Hart, Host};

#[tactic(auto, unfolding(crate::specs::Access::read_of))]
pub fn get(c: Caps, h: Hart, o: Host, csr: Csr) -> u64
    ensures { result ≡ read_of c h (line_down o) csr }
{
    match csr {
        Csr::Mstatus => h.mstatus,
        Csr::Misa => c.misa,
        Csr::Medeleg => h.medeleg,
        Csr::Mideleg => h.mideleg,
        Csr::Mie => h.mie,
        Csr::Mtvec => h.mtvec,
        Csr::Mcounteren => h.mcounteren,
        Csr::Menvcfg => h.menvcfg,
        Csr::Mcountinhibit => h.mcountinhibit,
        Csr::Mscratch => h.mscratch,
        Csr::Mepc => h.mepc,
        Csr::Mcause => h.mcause,
        Csr::Mtval => h.mtval,
        Csr::Mip => h.mip,
        Csr::Sstatus => rules::status::read_sstatus(h.mstatus),
        Csr::Sie => rules::interrupts::read_delegated(h.mie, h.mideleg),
        Csr::Stvec => h.stvec,
        Csr::Scounteren => h.scounteren,
        Csr::Senvcfg => h.senvcfg,
        Csr::Sscratch => h.sscratch,
        Csr::Sepc => h.sepc,
        Csr::Scause => h.scause,
        Csr::Stval => h.stval,
        Csr::Sip => rules::interrupts::read_delegated(h.mip, h.mideleg),
        Csr::Stimecmp => h.stimecmp,
        Csr::Satp => h.satp,
        Csr::Tselect => rules::config::read_tselect(h.tselect),
        Csr::Mcycle | Csr::Cycle => h.mcycle,
        Csr::Minstret | Csr::Instret => h.minstret,
        Csr::Time => o.time,
        Csr::Mvendorid => c.mvendorid,
        Csr::Marchid => c.marchid,
        Csr::Mimpid => c.mimpid,
        Csr::Mhartid => c.mhartid,
        Csr::Mconfigptr => c.mconfigptr,
        Csr::Seed => o.seed,
        Csr::Scontext | Csr::Mhpmcounter(_) | Csr::Mhpmevent(_) => 0,
    }
}

// `old` is what the CSR at this address reads with the line down.
pub fn shown(c: Caps, h: Hart, o: Host, address: u64, old: u64) -> u64
    ensures { result ≡ shown_at (raises_seip c o) h address old }
{
    match address {
        MIP => rules::interrupts::read_mip(h.mip, raises_seip(c, o)),
        SIP => {
            let mip = rules::interrupts::read_mip(h.mip, raises_seip(c, o));
            rules::interrupts::read_delegated(mip, h.mideleg)
        }
        _ => old,
    }
}
