// The two checks: the words are gone through in their order, up to the first at fault.
ghost use Rattle.std.specs.Prelude.{◌≡◌};
ghost use Rattle.fault.specs.Fault.{caps_fault, hart_fault, checked_caps, checked_hart};
ghost use Rattle.fault.specs.Inner.{fault_in, first_among};
ghost use Rattle.lent.specs.Images.{hart_at};

use crate::fault::{BadWord, Fault};
use crate::words::is_legal;
use hart::answer::Refusal;
use hart::caps::{Caps, CapsWord};
use hart::record::Word;
use lent::images::{CAPS_WORDS, HART_BYTES, caps_at, get_x, offset_of};
use lent::judge::{judge, legal_caps};

// Four words, each with a test of its own: a list of them is no plainer.
fn test_caps(c: Caps) -> Result<(), BadWord>
    ensures { fault_in result ≡ caps_fault c }
{
    let has_s = c.has_s();
    if c.misa_faults() != 0 {
        Err(BadWord::new(Refusal::BadCaps, CapsWord::Misa as u64, c.misa))
    } else if c.interrupts_faults(has_s) != 0 {
        Err(BadWord::new(Refusal::BadCaps, CapsWord::Interrupts as u64, c.interrupts))
    } else if c.flags_faults(has_s) != 0 {
        Err(BadWord::new(Refusal::BadCaps, CapsWord::Flags as u64, c.flags))
    } else if c.mvendorid_faults() != 0 {
        Err(BadWord::new(Refusal::BadCaps, CapsWord::Mvendorid as u64, c.mvendorid))
    } else {
        Ok(())
    }
}

// These words of the record, up to the first that isn't legal.
#[tactic(auto, using(std::proofs::lemmas::List::drop_more, lent::proofs::Views::get_at))]
fn test_words(c: Caps, hart: &[u8; HART_BYTES], words: &[Word]) -> Result<(), BadWord>
    ensures { fault_in result ≡ first_among c (hart_at hart.now) words.now }
{
    for w in words {
        let at = offset_of(*w);
        let value = image::word(hart, at);
        if !is_legal(c, *w, value) {
            return Err(BadWord::new(Refusal::BadHart, at as u64 / 8, value));
        }
    }
    Ok(())
}

#[tactic(auto, unfolding(crate::specs::Fault::hart_fault))]
fn test_hart(c: Caps, hart: &[u8; HART_BYTES]) -> Result<(), BadWord>
    ensures { fault_in result ≡ hart_fault c (hart_at hart.now) }
{
    let x0 = get_x(hart, 0);
    if x0 == 0 {
        test_words(c, hart, &Word::ALL)
    } else {
        Err(BadWord::new(Refusal::BadHart, 0, x0))
    }
}

#[tactic(auto, unfolding(crate::specs::Fault::checked_caps))]
fn test_caps_image(caps: &[u8]) -> Result<(), BadWord>
    ensures { fault_in result ≡ checked_caps caps.now }
{
    let caps = caps
        .as_array()
        .ok_or(BadWord::new(Refusal::BadCaps, CAPS_WORDS as u64, 0))?;
    test_caps(caps_at(caps))
}

#[tactic(auto, unfolding(crate::specs::Fault::checked_hart))]
fn test_hart_image(caps: &[u8], hart: &[u8]) -> Result<(), BadWord>
    ensures { fault_in result ≡ checked_hart caps.now hart.now }
{
    let Ok(c) = legal_caps(caps) else {
        return test_caps_image(caps);
    };
    let hart = hart
        .as_array()
        .ok_or(BadWord::new(Refusal::BadHart, HART_BYTES as u64 / 8, 0))?;
    test_hart(c, hart)
}

// Nearly always both are legal, and that the judge finds sooner than a walk through the words.
fn test_images(caps: &[u8], hart: &[u8]) -> Result<(), BadWord>
    ensures { fault_in result ≡ checked_hart caps.now hart.now }
{
    match judge(caps, hart) {
        Ok(()) => Ok(()),
        Err(Refusal::BadCaps) => test_caps_image(caps),
        Err(_) => test_hart_image(caps, hart),
    }
}

pub fn check_caps(caps: &[u8]) -> Fault
    ensures { result ≡ checked_caps caps.now }
{
    test_caps_image(caps).into()
}

pub fn check_hart(caps: &[u8], hart: &[u8]) -> Fault
    ensures { result ≡ checked_hart caps.now hart.now }
{
    test_images(caps, hart).into()
}
