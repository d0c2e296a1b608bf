// The calls on lent bytes. Each refuses what `judge` finds, or `fresh`, which takes any record,
// what `legal_caps` does, and hands the rest to the step. Before that a CSR is found: a processor
// that has guessed another then knows it earlier. `judge` gives no images, as it is compiled apart:
// the lengths are taken once more, and the proof knows them.
ghost use Rattle.std.specs.Prelude.{◌≡◌};
ghost use Rattle.lent.specs.Outcome.{outcome_of};
ghost use Rattle.calls.specs.Calls.{Fresh, Read, Write, Instruction, Pending, Take};
ghost use Rattle.calls.specs.Entries.{entry_of};

use crate::steps;
use crate::steps::{Taken, context};
use csr::lookup::Found;
use hart::answer::{Answer, Effect, Refusal};
use hart::record::Host;
use instr::operation::Op;
use lent::fresh::start;
use lent::judge::{judge, legal_caps};
use registers::Form;

#[tactic(auto, unfolding(crate::specs::Entries::entry_of, crate::specs::Entries::given))]
pub fn fresh(caps: &[u8], hart: &mut [u8], pc: u64) -> Answer
    ensures { (outcome_of result, hart.new) ≡ entry_of (Fresh pc) caps.now hart.old }
{
    let c = legal_caps(caps)?;
    let hart = hart.as_mut_array().ok_or(Refusal::BadHart)?;
    if !rules::addresses::is_aligned(pc, c.has_c()) {
        return Err(Refusal::BadStart);
    }
    start(hart, c, pc);
    Ok((0, Effect::Nothing))
}

#[tactic(auto, using(lent::proofs::Judged::images_sized, crate::proofs::Goes::entry_refused))]
pub fn read(caps: &[u8], hart: &[u8], o: Host, address: u64) -> Answer
    ensures { (outcome_of result, hart.now) ≡ entry_of (Read o address) caps.now hart.now }
{
    let found = Found::at(address);
    judge(caps, hart)?;
    registers::read(caps.as_array().unwrap(), hart.as_array().unwrap(), o, found)
}

#[tactic(auto, using(lent::proofs::Judged::images_sized, crate::proofs::Goes::entry_refused))]
pub fn write(caps: &[u8], hart: &mut [u8], address: u64, value: u64) -> Answer
    ensures { (outcome_of result, hart.new) ≡ entry_of (Write address value) caps.now hart.old }
{
    let found = Found::at(address);
    judge(caps, hart)?;
    registers::write(
        caps.as_array().unwrap(),
        hart.as_mut_array().unwrap(),
        found,
        value,
    )
}

#[tactic(auto, using(lent::proofs::Judged::images_sized, crate::proofs::Goes::entry_refused))]
pub fn instruction(
    form: Form,
    op: Op,
    caps: &[u8],
    hart: &mut [u8],
    o: Host,
    address: u64,
    rd: u64,
    field: u64,
) -> Answer
    ensures { (outcome_of result, hart.new) ≡ entry_of (Instruction form op o address rd field) caps.now hart.old }
{
    let found = Found::at(address);
    judge(caps, hart)?;
    let hart = hart.as_mut_array().unwrap();
    let operand = form.operand(hart, field);
    registers::emulate(
        op,
        caps.as_array().unwrap(),
        hart,
        o,
        found,
        rd,
        field,
        operand,
    )
}

#[tactic(auto, using(lent::proofs::Judged::images_sized, crate::proofs::Goes::entry_refused))]
pub fn pending(caps: &[u8], hart: &[u8]) -> Answer
    ensures { (outcome_of result, hart.now) ≡ entry_of Pending caps.now hart.now }
{
    judge(caps, hart)?;
    let v = context(caps.as_array().unwrap(), hart.as_array().unwrap());
    Ok((v.has_pending_interrupt(), Effect::Nothing))
}

// A trap or a return.
#[tactic(auto, using(lent::proofs::Judged::images_sized, crate::proofs::Goes::entry_refused))]
pub fn step(caps: &[u8], hart: &mut [u8], t: Taken) -> Answer
    ensures { (outcome_of result, hart.new) ≡ entry_of (Take t) caps.now hart.old }
{
    judge(caps, hart)?;
    steps::step(caps.as_array().unwrap(), hart.as_mut_array().unwrap(), t)
}
