// The plain read and write on lent bytes. Each refuses what `judge` finds, and hands the rest to
// the engine.
ghost use Rattle.std.specs.Prelude.{◌≡◌};
ghost use Rattle.lent.specs.Outcome.{outcome_of};
ghost use Rattle.calls.specs.Calls.{Read, Write};
ghost use Rattle.calls.specs.Entries.{entry_of};

use crate::engine;
use hart::answer::Answer;
use hart::record::Host;
use lent::images::{caps_at, hart_at, store_words};
use lent::judge::judge;

#[tactic(auto, using(lent::proofs::Judged::images_sized, calls::proofs::Goes::entry_refused))]
pub fn read(caps: &[u8], hart: &[u8], o: Host, address: u64) -> Answer
    ensures { (outcome_of result, hart.now) ≡ entry_of (Read o address) caps.now hart.now }
{
    judge(caps, hart)?;
    let c = caps_at(caps.as_array().unwrap());
    let h = hart_at(hart.as_array().unwrap());
    engine::read(c, h, o, address)
}

// A refused step has the record as it was: to store that changes no byte.
#[tactic(auto, using(lent::proofs::Judged::images_sized, calls::proofs::Goes::entry_refused))]
pub fn write(caps: &[u8], hart: &mut [u8], address: u64, value: u64) -> Answer
    ensures { (outcome_of result, hart.new) ≡ entry_of (Write address value) caps.now hart.old }
{
    judge(caps, hart)?;
    let c = caps_at(caps.as_array().unwrap());
    let hart = hart.as_mut_array().unwrap();
    let step = engine::write(c, hart_at(hart), address, value);
    store_words(hart, step.hart);
    step.answer
}
