// What an entry hands back: refusal, answer and effect as numbers, by value.
ghost use Rattle.std.specs.Prelude.{◌≡◌};
ghost use Rattle.lent.specs.Outcome.{outcome_of};

use hart::answer::Answer;

#[repr(C)]
#[derive(Clone, Copy, Debug, Default, PartialEq, Eq)]
pub struct Outcome {
    pub refusal: u64,
    pub answer: u64,
    pub effect: u64,
}

impl From<Answer> for Outcome {
    ghost from_gives = { λ a o. o ≡ outcome_of a };

    fn from(a: Answer) -> Outcome {
        match a {
            Ok((answer, effect)) => Outcome {
                refusal: 0,
                answer,
                effect: effect.into(),
            },
            Err(why) => Outcome {
                refusal: why.into(),
                answer: 0,
                effect: 0,
            },
        }
    }
}
