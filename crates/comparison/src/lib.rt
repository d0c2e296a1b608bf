// What a call gave and left, beside what it did in the original.
#![tactic(auto)]

ghost use Rattle.std.specs.Prelude.{◌<◌, ◌≡◌, MatchOption, OnOk};
ghost use Rattle.image.specs.Word.{words_from};
ghost use Rattle.comparison.specs.Agreement.{AllAlike};

pub use lent::images::HART_BYTES;
use lent::outcome::Outcome;
use std::fmt;

pub const HART_WORDS: usize = HART_BYTES / 8;

// What the original did. It accepts each call that is stored.
#[derive(Clone, Copy, Debug, PartialEq, Eq)]
pub struct Original {
    pub answer: u64,
    pub effect: u64,
    pub words: [u64; HART_WORDS],
    // The bits of each word that are listed to differ from the original's: the text has them apart.
    pub listed: [u64; HART_WORDS],
}

#[derive(Clone, Copy, Debug, PartialEq, Eq)]
pub enum Difference {
    Refusal(u64),
    Answer {
        ours: u64,
        original: u64,
    },
    Effect {
        ours: u64,
        original: u64,
    },
    Word {
        place: usize,
        ours: u64,
        original: u64,
    },
}

impl fmt::Display for Difference {
    fn fmt<W: fmt::Write>(&self, f: &mut fmt::Formatter<W>) -> fmt::Result {
        match *self {
            Difference::Refusal(ours) => { write!(f, "refusal {ours:#x}, and the original's 0x0") }
            Difference::Answer { ours, original } => {
                write!(f, "answer {ours:#x}, and the original's {original:#x}")
            }
            Difference::Effect { ours, original } => {
                write!(f, "effect {ours:#x}, and the original's {original:#x}")
            }
            Difference::Word {
                place,
                ours,
                original,
            } => {
                write!(
                    f,
                    "word {place:#x} is {ours:#x}, and the original's {original:#x}"
                )
            }
        }
    }
}

impl Original {
    // The first word that isn't the original's with the listed bits changed.
    fn first_differing(&self, ours: &[u64; HART_WORDS]) -> Option<usize>
        ensures { MatchOption result
            (AllAlike 60 ours.now self.now.words self.now.listed)
            (λ place. (place < 60)
            × AllAlike place ours.now self.now.words self.now.listed) }
    {
        (0..HART_WORDS).find(|i| ours[*i] != self.words[*i] ^ self.listed[*i])
    }

    fn compare_words(&self, ours: &[u64; HART_WORDS]) -> Result<(), Difference>
        ensures { OnOk result (AllAlike 60 ours.now self.now.words self.now.listed) }
    {
        match self.first_differing(ours) {
            Some(place) => Err(Difference::Word {
                place,
                ours: ours[place],
                original: self.words[place],
            }),
            None => Ok(()),
        }
    }

    pub fn compare_outcomes(&self, ours: Outcome) -> Result<(), Difference>
        ensures refusal { OnOk result (ours.refusal ≡ 0) }
        ensures answer { OnOk result (ours.answer ≡ self.now.answer) }
        ensures effect { OnOk result (ours.effect ≡ self.now.effect) }
    {
        if ours.refusal != 0 {
            return Err(Difference::Refusal(ours.refusal));
        }
        if ours.answer != self.answer {
            return Err(Difference::Answer {
                ours: ours.answer,
                original: self.answer,
            });
        }
        if ours.effect != self.effect {
            return Err(Difference::Effect {
                ours: ours.effect,
                original: self.effect,
            });
        }
        Ok(())
    }

    // The outcome of a call, and the record that it left.
    pub fn compare(&self, ours: Outcome, hart: &[u8; HART_BYTES]) -> Result<(), Difference>
        ensures refusal { OnOk result (ours.refusal ≡ 0) }
        ensures answer { OnOk result (ours.answer ≡ self.now.answer) }
        ensures effect { OnOk result (ours.effect ≡ self.now.effect) }
        ensures words { OnOk result
            (AllAlike 60 (words_from hart.now 0 60) self.now.words self.now.listed) }
    {
        self.compare_outcomes(ours)?;
        self.compare_words(&words_of(hart))
    }
}

// The words of a hart image.
pub fn words_of(hart: &[u8; HART_BYTES]) -> [u64; HART_WORDS]
    ensures { result ≡ words_from hart.now 0 60 }
{
    let mut words = [0u64; HART_WORDS];
    image::load(hart, 0, &mut words);
    words
}
