// What a check hands back: the refusal, the number of the word at fault and what it holds; and C's
// form of it, by value.
ghost use Rattle.std.specs.Prelude.{◌≡◌};
ghost use Rattle.fault.specs.Inner.{bad_word, fault_in};

use hart::answer::Refusal;

// The word at fault, and why its image is refused.
#[derive(Clone, Copy, Debug, PartialEq, Eq)]
pub struct BadWord {
    pub why: Refusal,
    pub word: u64,
    pub value: u64,
}

impl BadWord {
    pub fn new(why: Refusal, word: u64, value: u64) -> BadWord
        ensures { result ≡ bad_word why word value }
    {
        BadWord { why, word, value }
    }
}

// In numbers: zeros where all of the image is legal.
#[repr(C)]
#[derive(Clone, Copy, Debug, PartialEq, Eq)]
pub struct Fault {
    pub refusal: u64,
    pub word: u64,
    pub value: u64,
}

impl From<Result<(), BadWord>> for Fault {
    ghost from_gives = { λ r f. f ≡ fault_in r };

    fn from(r: Result<(), BadWord>) -> Fault {
        match r {
            Ok(()) => Fault {
                refusal: 0,
                word: 0,
                value: 0,
            },
            Err(bad) => Fault {
                refusal: bad.why.into(),
                word: bad.word,
                value: bad.value,
            },
        }
    }
}
