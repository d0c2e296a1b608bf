// What a call answers: done, with a value and what the host is asked to do, or refused. For each
// case its number.
ghost use Rattle.std.specs.Prelude.{◌≡◌, ℕ};
ghost use Rattle.hart.specs.Answers.{refusal_number, effect_number, done, refused};

use crate::record::Hart;

// Why a call is refused, with the number that C is told; new reasons are appended.
#[derive(Clone, Copy, Debug, PartialEq, Eq)]
pub enum Refusal {
    BadCaps = 1,
    BadHart,
    NoSuchCsr,
    CsrAbsent,
    BadOperand,
    NotMachine,
    NoSupervisor,
    BadInterrupt,
    NotException,
    BadTrap,
    BadStart,
    BadLength,
    BadMark,
    UnknownVersion,
    BadLine,
    TotalFull,
    BadEntry,
    EntryWaits,
    ShortBuffer = 23,
}

// What the host is asked to do to the physical SEIP bit.
#[derive(Clone, Copy, Debug, PartialEq, Eq)]
pub enum Effect {
    Nothing,
    SetSeip,
    ClearSeip,
}

// The value and the effect of a call that is done.
pub type Answer = Result<(u64, Effect), Refusal>;

// What a call on the record gives: the record, changed or as it was, and the answer.
#[derive(Clone, Copy)]
pub struct Step {
    pub hart: Hart,
    pub answer: Answer,
}

impl Step {
    // Done, with nothing read and nothing asked.
    pub fn done(h: Hart) -> Step
        ensures { result ≡ done h }
    {
        Step {
            hart: h,
            answer: Ok((0, Effect::Nothing)),
        }
    }

    // Refused, with the record as it was.
    pub fn refused(h: Hart, why: Refusal) -> Step
        ensures { result ≡ refused h why }
    {
        Step {
            hart: h,
            answer: Err(why),
        }
    }
}

impl From<Refusal> for u64 {
    ghost from_gives = { λ why n. n ≡ refusal_number why };

    fn from(why: Refusal) -> u64 {
        why as u64
    }
}

impl From<Effect> for u64 {
    ghost from_gives = { λ e n. n ≡ effect_number e };

    fn from(e: Effect) -> u64 {
        e as u64
    }
}
