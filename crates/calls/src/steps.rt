// A trap or a return, taken and stored: the step is taken on the record by value, and only the
// words that it can change are stored.
ghost use Rattle.std.specs.Prelude.{◌≡◌};
ghost use Rattle.lent.specs.Images.{caps_at, hart_at};
ghost use Rattle.registers.specs.Inner.{told};
ghost use Rattle.calls.specs.Calls.{taken_step};
ghost use Rattle.calls.specs.Inner.{carried, Leaves, context_at};

use hart::answer::{Answer, Step};
use hart::record::{Hart, Word};
use lent::images::{CAPS_BYTES, HART_BYTES, caps_at, hart_at, put_word};
use trap::context::{TrapInfo, VirtContext};

#[derive(Clone, Copy)]
pub enum Taken {
    Inject(u64),
    Trap(TrapInfo),
    Mret,
    Sret,
}

fn take(v: VirtContext, t: Taken) -> Step
    ensures { result ≡ taken_step v.caps v.hart t }
{
    match t {
        Taken::Inject(n) => v.inject_interrupt(n),
        Taken::Trap(t) => v.emulate_firmware_trap(t),
        Taken::Mret => v.emulate_mret(),
        Taken::Sret => v.emulate_sret(),
    }
}

// The record differs from the one that stands there in these words alone.
fn store(s: &mut [u8; HART_BYTES], h: Hart)
    requires differs { carried h (hart_at s.old) ≡ h }
    ensures { hart_at s.new ≡ h }
{
    put_word(s, Word::Mtval, h.mtval);
    put_word(s, Word::Mcause, h.mcause);
    put_word(s, Word::Mepc, h.mepc);
    put_word(s, Word::Mip, h.mip);
    put_word(s, Word::Mstatus, h.mstatus);
    put_word(s, Word::Mode, h.mode);
    put_word(s, Word::Pc, h.pc);
}

#[tactic(auto, unfolding(registers::specs::Inner::told))]
fn finish(s: &mut [u8; HART_BYTES], step: Step) -> Answer
    requires differs { carried step.hart (hart_at s.old) ≡ step.hart }
    requires refused { Leaves (hart_at s.old) step }
    ensures { (result, hart_at s.new) ≡ told step }
{
    let done = step.answer?;
    store(s, step.hart);
    Ok(done)
}

// What the steps are taken on.
pub fn context(caps: &[u8; CAPS_BYTES], hart: &[u8; HART_BYTES]) -> VirtContext
    ensures { result ≡ context_at caps.now hart.now }
{
    VirtContext {
        caps: caps_at(caps),
        hart: hart_at(hart),
    }
}

// Takes it where the record lies.
pub fn step(caps: &[u8; CAPS_BYTES], hart: &mut [u8; HART_BYTES], t: Taken) -> Answer
    ensures { (result, hart_at hart.new) ≡ told (taken_step (caps_at caps.now) (hart_at hart.old) t) }
{
    let v = context(caps, hart);
    finish(hart, take(v, t))
}
