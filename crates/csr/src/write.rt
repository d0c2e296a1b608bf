// What a write to each CSR stores, and what it asks of the host.
ghost use Rattle.std.specs.Prelude.{◌≡◌};
ghost use Rattle.csr.specs.Access.{stored_of, seip_change};

use crate::address::Csr;
use hart::answer::Effect;
use hart::caps::Caps;
use hart::record::{Hart, Word};

// A write puts one word of the record, or is ignored.
pub type Change = Option<(Word, u64)>;

#[tactic(auto, unfolding(crate::specs::Access::stored_of))]
pub fn stored(c: Caps, h: Hart, csr: Csr, v: u64) -> Change
    ensures { result ≡ stored_of c h csr v }
{
    match csr {
        Csr::Mstatus => Some((Word::Mstatus, c.legalize_mstatus(v))),
        Csr::Medeleg => Some((Word::Medeleg, rules::interrupts::legalize_medeleg(v))),
        Csr::Mideleg => Some((
            Word::Mideleg,
            rules::interrupts::legalize_mideleg(v, c.interrupts),
        )),
        Csr::Mie => Some((Word::Mie, rules::interrupts::legalize_mie(v, c.interrupts))),
        Csr::Mtvec => Some((Word::Mtvec, rules::addresses::write_tvec(h.mtvec, v))),
        Csr::Mcounteren => Some((Word::Mcounteren, rules::config::legalize_counteren(v))),
        Csr::Menvcfg => Some((Word::Menvcfg, c.legalize_menvcfg(v))),
        Csr::Mcountinhibit => Some((Word::Mcountinhibit, rules::config::legalize_countinhibit(v))),
        Csr::Mscratch => Some((Word::Mscratch, v)),
        Csr::Mepc => Some((Word::Mepc, c.write_epc(h.mepc, v))),
        Csr::Mcause => Some((Word::Mcause, v)),
        Csr::Mtval => Some((Word::Mtval, v)),
        Csr::Mip => Some((
            Word::Mip,
            rules::interrupts::write_mip(h.mip, v, c.interrupts, h.menvcfg),
        )),
        Csr::Sstatus => Some((Word::Mstatus, c.write_sstatus(h.mstatus, v))),
        Csr::Sie => Some((Word::Mie, rules::interrupts::write_sie(h.mie, v, h.mideleg))),
        Csr::Stvec => Some((Word::Stvec, rules::addresses::write_tvec(h.stvec, v))),
        Csr::Scounteren => Some((Word::Scounteren, rules::config::legalize_counteren(v))),
        Csr::Senvcfg => Some((Word::Senvcfg, c.legalize_senvcfg(v))),
        Csr::Sscratch => Some((Word::Sscratch, v)),
        Csr::Sepc => Some((Word::Sepc, c.write_epc(h.sepc, v))),
        Csr::Scause => Some((Word::Scause, v)),
        Csr::Stval => Some((Word::Stval, v)),
        Csr::Sip => Some((Word::Mip, rules::interrupts::write_sip(h.mip, v))),
        Csr::Stimecmp => Some((Word::Stimecmp, v)),
        Csr::Satp => Some((Word::Satp, rules::addresses::write_satp(h.satp, v))),
        Csr::Tselect => Some((Word::Tselect, v)),
        Csr::Mcycle => Some((Word::Mcycle, v)),
        Csr::Minstret => Some((Word::Minstret, v)),
        Csr::Misa
        | Csr::Scontext
        | Csr::Cycle
        | Csr::Time
        | Csr::Instret
        | Csr::Mvendorid
        | Csr::Marchid
        | Csr::Mimpid
        | Csr::Mhartid
        | Csr::Mconfigptr
        | Csr::Seed
        | Csr::Mhpmcounter(_)
        | Csr::Mhpmevent(_) => None,
    }
}

// The physical SEIP bit follows the stored one.
#[tactic(auto, unfolding(crate::specs::Access::seip_change))]
pub fn seip_change(old: u64, new: u64) -> Effect
    ensures { result ≡ seip_change old new }
{
    match (
        rules::interrupts::has_seip(old),
        rules::interrupts::has_seip(new),
    ) {
        (false, true) => Effect::SetSeip,
        (true, false) => Effect::ClearSeip,
        _ => Effect::Nothing,
    }
}
