// The virtual hart with its capabilities, and the original's steps on it: each takes it by value
// and hands the record back.
ghost use Rattle.std.specs.Prelude.{◌≡◌};
ghost use Rattle.trap.specs.Steps.{pending_of, injected, inject_step, trapped, is_status, is_trap, trap_step, mret_of, mret_step, sret_of, sret_step};

use crate::interrupts::{cause, get_next_interrupt, is_interrupt, trap_mip};
use crate::status;
use crate::target::target;
use hart::answer::{Refusal, Step};
use hart::caps::Caps;
use hart::modes::Mode;
use hart::record::Hart;

#[derive(Clone, Copy)]
pub struct VirtContext {
    pub caps: Caps,
    pub hart: Hart,
}

// What the machine tells of a trap.
#[derive(Clone, Copy)]
pub struct TrapInfo {
    pub mcause: u64,
    pub mtval: u64,
    pub mepc: u64,
    pub mip: u64,
    pub mstatus: u64,
}

impl VirtContext {
    // The number of the interrupt that is taken next, or 0: so C is told it.
    pub fn has_pending_interrupt(self) -> u64
        ensures { result ≡ pending_of self.hart }
    {
        let h = self.hart;
        if (h.mode == Mode::M) & (status::mie(h.mstatus) == 0) & (h.waiting == 0) {
            0
        } else {
            get_next_interrupt(h.mie, h.mip, h.mideleg)
        }
    }

    // The record with interrupt n taken.
    fn inject(self, n: u64) -> Hart
        ensures value { result ≡ injected self.hart n }
        ensures machine { result.mode ≡ Mode.M }
    {
        let mut h = self.hart;
        h.mstatus = status::enter(h.mstatus, h.mode);
        h.mcause = cause(n);
        h.mepc = h.pc;
        h.mtval = 0;
        h.mode = Mode::M;
        h.pc = target(h.mtvec, h.mcause);
        h
    }

    pub fn inject_interrupt(self, n: u64) -> Step
        ensures { result ≡ inject_step self.caps self.hart n }
    {
        let c = self.caps;
        if is_interrupt(c.interrupts, n) {
            Step::done(self.inject(n))
        } else {
            Step::refused(self.hart, Refusal::BadInterrupt)
        }
    }

    // The record with the trap taken.
    fn trap(self, t: TrapInfo) -> Hart
        ensures value { result ≡ trapped self.hart t }
        ensures machine { result.mode ≡ Mode.M }
    {
        let mut h = self.hart;
        let from = h.mode;
        h.mcause = t.mcause;
        h.mtval = t.mtval;
        h.mepc = t.mepc;
        h.mip = trap_mip(h.mip, t.mip);
        h.mode = Mode::M;
        h.pc = target(h.mtvec, h.mcause);
        h.mstatus = if from == Mode::M {
            status::enter(h.mstatus, from)
        } else {
            t.mstatus
        };
        h
    }

    // Whether the trap's mstatus is one that this hart can have. In M it isn't looked at.
    fn is_status(self, t: TrapInfo) -> bool
        ensures { result ≡ is_status self.caps self.hart t }
    {
        let mode = self.hart.mode;
        mode == Mode::M
            || (self.caps.legalize_mstatus(t.mstatus) == t.mstatus)
                & (status::mpp(t.mstatus) == mode)
    }

    // Whether the trap can have come to this hart.
    fn is_trap(self, t: TrapInfo) -> bool
        ensures { result ≡ is_trap self.caps self.hart t }
    {
        let c = self.caps;
        rules::addresses::is_aligned(t.mepc, c.has_c())
            & (bits::keep(t.mip, c.interrupts) == t.mip)
            & self.is_status(t)
    }

    pub fn emulate_firmware_trap(self, t: TrapInfo) -> Step
        ensures { result ≡ trap_step self.caps self.hart t }
    {
        if bits::bit(t.mcause, 63) {
            Step::refused(self.hart, Refusal::NotException)
        } else if self.is_trap(t) {
            Step::done(self.trap(t))
        } else {
            Step::refused(self.hart, Refusal::BadTrap)
        }
    }

    // The record after the return.
    fn mret(self) -> Hart
        ensures { result ≡ mret_of self.hart }
    {
        let mut h = self.hart;
        h.mode = status::mpp(h.mstatus);
        h.mstatus = status::mret(h.mstatus);
        h.pc = h.mepc;
        h
    }

    pub fn emulate_mret(self) -> Step
        ensures { result ≡ mret_step self.hart }
    {
        let h = self.hart;
        if h.mode == Mode::M {
            Step::done(self.mret())
        } else {
            Step::refused(h, Refusal::NotMachine)
        }
    }

    // The record after the return.
    fn sret(self) -> Hart
        ensures { result ≡ sret_of self.hart }
    {
        let mut h = self.hart;
        h.mode = status::spp(h.mstatus);
        h.mstatus = status::sret(h.mstatus);
        h.pc = h.sepc;
        h
    }

    pub fn emulate_sret(self) -> Step
        ensures { result ≡ sret_step self.caps self.hart }
    {
        let c = self.caps;
        let h = self.hart;
        if h.mode != Mode::M {
            Step::refused(h, Refusal::NotMachine)
        } else if c.has_s() {
            Step::done(self.sret())
        } else {
            Step::refused(h, Refusal::NoSupervisor)
        }
    }
}
