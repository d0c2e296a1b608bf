// What calls are made on: two images, and the bits of the hart's words that are listed to differ.
use crate::statement::{Call, Place};
use comparison::{Difference, HART_WORDS, Original, words_of};
use session::{CAPS_BYTES, CAPS_WORDS, HART_BYTES, Session};

#[derive(Drop)]
pub struct Scene {
    caps: Option<[u8; CAPS_BYTES]>,
    hart: Option<[u8; HART_BYTES]>,
    listed: [u64; HART_WORDS],
}

impl Scene {
    pub fn empty() -> Scene {
        Scene {
            caps: None,
            hart: None,
            listed: [0; HART_WORDS],
        }
    }

    pub fn set_caps(&mut self, words: &[u64; CAPS_WORDS]) {
        let mut image = [0; CAPS_BYTES];
        image::store(&mut image, 0, words);
        self.caps = Some(image);
    }

    pub fn set_hart(&mut self, words: &[u64; HART_WORDS]) {
        let mut image = [0; HART_BYTES];
        image::store(&mut image, 0, words);
        self.hart = Some(image);
    }

    pub fn list(&mut self, place: Place, bits: u64) {
        self.listed[place.index] = bits;
    }

    pub fn has_listed(&self) -> bool {
        self.listed.iter().any(|bits| *bits != 0)
    }

    // Makes the call again, and compares it with the original's. Without both images none is made.
    pub fn replay(&mut self, call: &Call) -> Option<Result<(), Difference>> {
        let before = Session {
            caps: self.caps?,
            hart: self.hart?,
            ..Session::empty()
        };
        let original = Original {
            answer: call.answer,
            effect: call.effect,
            words: call.words_after(words_of(&before.hart)),
            listed: self.listed,
        };
        let after = before.call(call.entry, call.arguments);
        self.hart = Some(after.hart);
        Some(original.compare(after.outcome, &after.hart))
    }
}
