// Whether the images are of their sizes and legal: refusals 1 and 2.
ghost use Rattle.std.specs.Prelude.{◌≡◌, ◌==◌, true, false, if◌then◌else◌, Ok, Err};
ghost use Rattle.hart.specs.Caps.{has_s};
ghost use Rattle.hart.specs.declared.answer.Refusal.TheVariants.{BadCaps, BadHart};
ghost use Rattle.lent.specs.Images.{caps_at, is_caps};
ghost use Rattle.lent.specs.Inner.{judged_under, judged};

use crate::images::{caps_at, hart_at};
use hart::answer::Refusal;
use hart::caps::Caps;
use legality::{with_s_faults, without_s_faults};

// The capabilities of an image that is of its size and legal.
#[tactic(auto, unfolding(crate::specs::Images::is_caps))]
pub fn legal_caps(s: &[u8]) -> Result<Caps, Refusal>
    ensures { result ≡ (if is_caps s.now then Ok (caps_at s.now) else Err BadCaps) }
{
    let c = caps_at(s.as_array().ok_or(Refusal::BadCaps)?);
    if c.legal() {
        Ok(c)
    } else {
        Err(Refusal::BadCaps)
    }
}

// S is asked about first, and all else is read and tested behind that: the compiler then reads each
// word where it tests it, and keeps none for later.
#[tactic(auto, unfolding(crate::specs::Inner::judged))]
pub fn judge(caps: &[u8], hart: &[u8]) -> Result<(), Refusal>
    ensures { result ≡ judged caps.now hart.now }
{
    let caps = caps.as_array().ok_or(Refusal::BadCaps)?;
    let c = caps_at(caps);
    if c.has_s() {
        judge_under::<true>(c, hart)
    } else {
        judge_under::<false>(c, hart)
    }
}

#[tactic(auto, unfolding(crate::specs::Inner::judged_under, crate::specs::Images::is_hart))]
fn judge_under<const HAS_S: bool>(c: Caps, hart: &[u8]) -> Result<(), Refusal>
    requires { has_s c ≡ HAS_S }
    ensures { result ≡ judged_under c hart.now }
{
    if !c.legal() {
        return Err(Refusal::BadCaps);
    }
    let h = hart_at(hart.as_array().ok_or(Refusal::BadHart)?);
    if HAS_S {
        bad_hart_if(with_s_faults(c, h))
    } else {
        bad_hart_if(without_s_faults(c, h))
    }
}

// Bits at fault are a refusal.
fn bad_hart_if(faults: u64) -> Result<(), Refusal>
    ensures { result ≡ (if faults == 0 then Ok tt else Err BadHart) }
{
    if faults == 0 {
        Ok(())
    } else {
        Err(Refusal::BadHart)
    }
}
