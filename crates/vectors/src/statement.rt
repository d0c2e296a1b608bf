// What a line says: behind its name stand numbers, each after one space, and in a call's line an
// `=` among them.
ghost use Rattle.std.specs.Prelude.{◌<◌, OnSome};
ghost use Rattle.std.specs.Str.Iter.{split_parts_left};
ghost use Rattle.comparison.specs.declared.TheConstants.{HART_WORDS};

use crate::digits::read_number;
use comparison::HART_WORDS;
use session::CAPS_WORDS;
use session::entries::{Entry, Numbers};
use std::str::Split;

// As many as a call has that takes six numbers and changes all sixty words.
const MOST_FIELDS: usize = 130;

#[derive(Drop)]
pub enum Statement {
    Caps([u64; CAPS_WORDS]),
    Hart([u64; HART_WORDS]),
    // The bits in which a word differs from the original's.
    Listed { place: Place, bits: u64 },
    Call(Call),
}

// A stored call, and what it did in the original.
#[derive(Drop)]
pub struct Call {
    pub entry: Entry,
    pub arguments: Numbers,
    pub answer: u64,
    pub effect: u64,
    // The words that aren't what they were before the call.
    pub changed: [Option<u64>; HART_WORDS],
}

impl Call {
    pub fn words_after(&self, before: [u64; HART_WORDS]) -> [u64; HART_WORDS] {
        let mut words = before;
        for (word, changed) in words.iter_mut().zip(self.changed) {
            *word = changed.unwrap_or(*word);
        }
        words
    }
}

impl Statement {
    pub fn read(line: &str) -> Option<Statement> {
        if MOST_FIELDS < line.split(' ').count() {
            return None;
        }
        let mut fields = Fields {
            rest: line.split(' '),
        };
        match fields.rest.next()? {
            "caps" => Some(Statement::Caps(fields.numbers()?)),
            "hart" => Some(Statement::Hart(fields.numbers()?)),
            "listed" => {
                let [word, bits] = fields.numbers::<2>()?;
                Some(Statement::Listed {
                    place: Place::of(word)?,
                    bits,
                })
            }
            name => Some(Statement::Call(fields.call(name.parse::<Entry>().ok()?)?)),
        }
    }
}

// Where a word stands in a hart's image.
#[derive(Clone, Copy)]
pub struct Place {
    pub index: usize,
    ghost is_in_image: { index < HART_WORDS },
}

impl Place {
    fn of(word: u64) -> Option<Place> {
        if word < HART_WORDS as u64 {
            Some(Place {
                index: word as usize,
            })
        } else {
            None
        }
    }
}

// The fields that are still to be read.
#[derive(Drop)]
struct Fields<'a> {
    rest: Split<'a, char>,
}

impl Fields<'_> {
    fn number(&mut self) -> Option<u64>
        ensures { OnSome result
            (split_parts_left self.new.rest < split_parts_left self.old.rest) }
    {
        read_number(self.rest.next()?)
    }

    // So many numbers, and nothing behind them.
    fn numbers<const N: usize>(mut self) -> Option<[u64; N]> {
        let mut numbers = [0; N];
        for n in numbers.iter_mut() {
            *n = self.number()?;
        }
        self.rest.next().is_none().then_some(numbers)
    }

    // The entry's numbers, an `=`, the answer and the effect, and the changed words.
    fn call(mut self, entry: Entry) -> Option<Call> {
        let mut arguments: Numbers = [0; 6];
        for n in arguments.iter_mut().take(entry.takes()) {
            *n = self.number()?;
        }
        if self.rest.next()? != "=" {
            return None;
        }
        Some(Call {
            entry,
            arguments,
            answer: self.number()?,
            effect: self.number()?,
            changed: self.changed()?,
        })
    }

    // The words' places, and behind each what it is.
    fn changed(mut self) -> Option<[Option<u64>; HART_WORDS]> {
        let mut changed = [None; HART_WORDS];
        while let Some(word) = self.rest.next() {
            let value = self.number()?;
            let place = Place::of(read_number(word)?)?;
            changed[place.index] = Some(value);
        }
        Some(changed)
    }
}
