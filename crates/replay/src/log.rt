// An entry of a call log: three words that are a call, and the call made where the record lies.
ghost use Rattle.std.specs.Prelude.{◌≡◌, ◌+◌, ◌≤◌, length};
ghost use Rattle.image.specs.Inner.{put_run};
ghost use Rattle.lent.specs.Images.{caps_at, hart_at};
ghost use Rattle.registers.specs.Inner.{told};
ghost use Rattle.replay.specs.Log.{entry_bytes, entry_at};
ghost use Rattle.replay.specs.Replay.{entry_step, result_words};
ghost use Rattle.replay.specs.Inner.{kind_of, kind_number, made};

use calls::steps;
use calls::steps::Taken;
use csr::lookup::Found;
use hart::answer::{Answer, Refusal};
use hart::record::Host;
use lent::images::{CAPS_BYTES, HART_BYTES};
use lent::outcome::Outcome;

pub const ENTRY_BYTES: usize = 24;

// The kinds of entries, by their numbers in the log.
#[derive(Clone, Copy, Debug, PartialEq, Eq)]
pub enum Kind {
    Read,
    Write,
    Inject,
    Mret,
    Sret,
}

impl TryFrom<u64> for Kind {
    type Error = Refusal;

    ghost try_from_gives = { λ number kind. kind ≡ kind_of number };

    fn try_from(number: u64) -> Result<Kind, Refusal> {
        match number {
            0 => Ok(Kind::Read),
            1 => Ok(Kind::Write),
            2 => Ok(Kind::Inject),
            3 => Ok(Kind::Mret),
            4 => Ok(Kind::Sret),
            _ => Err(Refusal::BadEntry),
        }
    }
}

impl From<Kind> for u64 {
    ghost from_gives = { λ kind n. n ≡ kind_number kind };

    fn from(kind: Kind) -> u64 {
        kind as u64
    }
}

// The three words of an entry, as they stand in the log. The kind can be any word: `make` refuses
// one that is none.
#[derive(Clone, Copy)]
pub struct Entry {
    pub kind: u64,
    pub first: u64,
    pub second: u64,
}

// The entry whose lowest byte stands at `at`.
pub fn entry_at(s: &[u8], at: usize) -> Entry
    requires { at + entry_bytes ≤ length s.now }
    ensures { result ≡ entry_at s.now at }
{
    Entry {
        kind: image::word(s, at),
        first: image::word(s, at + 8),
        second: image::word(s, at + 16),
    }
}

// Makes the call that an entry is, for a quiet host. It is none if the kind isn't known, or if a
// word isn't 0 that the call doesn't use.
#[tactic(auto, unfolding(registers::specs::Inner::told, crate::specs::Log::call_of))]
fn make(caps: &[u8; CAPS_BYTES], hart: &mut [u8; HART_BYTES], e: Entry) -> Answer
    ensures { (result, hart_at hart.new) ≡ told (entry_step (caps_at caps.now) (hart_at hart.old) e) }
{
    match (Kind::try_from(e.kind)?, e.first, e.second) {
        (Kind::Write, address, value) => registers::write(caps, hart, Found::at(address), value),
        (Kind::Read, address, 0) => registers::read(caps, hart, Host::QUIET, Found::at(address)),
        (Kind::Inject, number, 0) => steps::step(caps, hart, Taken::Inject(number)),
        (Kind::Mret, 0, 0) => steps::step(caps, hart, Taken::Mret),
        (Kind::Sret, 0, 0) => steps::step(caps, hart, Taken::Sret),
        _ => Err(Refusal::BadEntry),
    }
}

// Puts the three words of an outcome at `at`.
fn put_result(out: &mut [u8], at: usize, o: Outcome)
    requires { at + entry_bytes ≤ length out.old }
    ensures { out.new ≡ put_run out.old at (result_words o) }
{
    image::set_word(out, at, o.answer);
    image::set_word(out, at + 8, o.effect);
    image::set_word(out, at + 16, o.refusal);
}

// Makes the call, and puts what it gave into out at `at`.
#[tactic(auto, unfolding(registers::specs::Inner::told))]
pub fn replay_one(
    caps: &[u8; CAPS_BYTES],
    hart: &mut [u8; HART_BYTES],
    e: Entry,
    out: &mut [u8],
    at: usize,
)
    requires { at + entry_bytes ≤ length out.old }
    ensures { (hart_at hart.new, out.new) ≡ made (caps_at caps.now) e at (hart_at hart.old, out.old) }
{
    let answer = make(caps, hart, e);
    put_result(out, at, answer.into());
}
