// The names of the CSRs, as the manual writes them.
use crate::address::{Csr, csr_at};
use std::fmt;

impl fmt::Display for Csr {
    fn fmt<W: fmt::Write>(&self, f: &mut fmt::Formatter<W>) -> fmt::Result {
        let name = match *self {
            Csr::Mstatus => "mstatus",
            Csr::Misa => "misa",
            Csr::Medeleg => "medeleg",
            Csr::Mideleg => "mideleg",
            Csr::Mie => "mie",
            Csr::Mtvec => "mtvec",
            Csr::Mcounteren => "mcounteren",
            Csr::Menvcfg => "menvcfg",
            Csr::Mcountinhibit => "mcountinhibit",
            Csr::Mscratch => "mscratch",
            Csr::Mepc => "mepc",
            Csr::Mcause => "mcause",
            Csr::Mtval => "mtval",
            Csr::Mip => "mip",
            Csr::Sstatus => "sstatus",
            Csr::Sie => "sie",
            Csr::Stvec => "stvec",
            Csr::Scounteren => "scounteren",
            Csr::Senvcfg => "senvcfg",
            Csr::Sscratch => "sscratch",
            Csr::Sepc => "sepc",
            Csr::Scause => "scause",
            Csr::Stval => "stval",
            Csr::Sip => "sip",
            Csr::Stimecmp => "stimecmp",
            Csr::Satp => "satp",
            Csr::Scontext => "scontext",
            Csr::Tselect => "tselect",
            Csr::Mcycle => "mcycle",
            Csr::Minstret => "minstret",
            Csr::Cycle => "cycle",
            Csr::Time => "time",
            Csr::Instret => "instret",
            Csr::Mvendorid => "mvendorid",
            Csr::Marchid => "marchid",
            Csr::Mimpid => "mimpid",
            Csr::Mhartid => "mhartid",
            Csr::Mconfigptr => "mconfigptr",
            Csr::Seed => "seed",
            Csr::Mhpmcounter(n) => return write!(f, "mhpmcounter{n}"),
            Csr::Mhpmevent(n) => return write!(f, "mhpmevent{n}"),
        };
        f.pad(name)
    }
}

// The CSRs from the first address to the last, as "mscratch" and "mhpmcounter3 to mhpmcounter31".
#[derive(Clone, Copy)]
pub struct Names {
    pub first: u64,
    pub last: u64,
}

impl fmt::Display for Names {
    fn fmt<W: fmt::Write>(&self, f: &mut fmt::Formatter<W>) -> fmt::Result {
        if let Some(csr) = csr_at(self.first) {
            write!(f, "{csr}")?;
        }
        if self.first != self.last
            && let Some(csr) = csr_at(self.last)
        {
            write!(f, " to {csr}")?;
        }
        Ok(())
    }
}
