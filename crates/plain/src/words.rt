// The words that registers show: those of the record, of the capabilities and of the host, and 0.
ghost use Rattle.std.specs.Prelude.{◌≡◌, ◌-◌};
ghost use Rattle.hart.specs.Words.{place_of};
ghost use Rattle.plain.specs.Numbers.{source_numbered};
ghost use Rattle.plain.specs.Words.{word_of, put_word};

use hart::caps::Caps;
use hart::record::{Hart, Host, Word};
use lent::images::{hart_from, words_of};

// All words of both images, also those that no row shows.
#[derive(Clone, Copy, Debug, PartialEq, Eq)]
pub enum Source {
    Record(Word),
    Misa,
    Interrupts,
    Highest,
    Flags,
    Mhartid,
    Mvendorid,
    Marchid,
    Mimpid,
    Mconfigptr,
    Time,
    Seed,
    Zero,
}

// A word by its number, for a table that has numbers: the record's behind x31, those of the
// capabilities and those of the host. One without a word is 0.
impl From<u64> for Source {
    ghost from_gives = { λ n source. source ≡ source_numbered n };

    fn from(n: u64) -> Source {
        match n {
            0..=27 => Source::Record(Word::ALL[n as usize]),
            28 => Source::Misa,
            29 => Source::Interrupts,
            30 => Source::Highest,
            31 => Source::Flags,
            32 => Source::Mhartid,
            33 => Source::Mvendorid,
            34 => Source::Marchid,
            35 => Source::Mimpid,
            36 => Source::Mconfigptr,
            37 => Source::Time,
            38 => Source::Seed,
            _ => Source::Zero,
        }
    }
}

// The word's place among those of the record behind x31.
fn place(w: Word) -> usize
    ensures { result ≡ place_of w - 32 }
{
    w as usize
}

impl Source {
    #[tactic(auto, using(crate::proofs::Sources::read_at_place))]
    pub fn word(self, c: Caps, h: Hart, o: Host) -> u64
        ensures { result ≡ word_of c h o self }
    {
        match self {
            Source::Record(w) => words_of(h)[place(w)],
            Source::Misa => c.misa,
            Source::Interrupts => c.interrupts,
            Source::Highest => c.highest,
            Source::Flags => c.flags,
            Source::Mhartid => c.mhartid,
            Source::Mvendorid => c.mvendorid,
            Source::Marchid => c.marchid,
            Source::Mimpid => c.mimpid,
            Source::Mconfigptr => c.mconfigptr,
            Source::Time => o.time,
            Source::Seed => o.seed,
            Source::Zero => 0,
        }
    }

    // The record with the word changed. A word that isn't the record's stays.
    #[tactic(auto, using(crate::proofs::Sources::put_at_place))]
    pub fn put(self, h: Hart, v: u64) -> Hart
        ensures { result ≡ put_word self v h }
    {
        let Source::Record(w) = self else {
            return h;
        };
        let mut words = words_of(h);
        words[place(w)] = v;
        hart_from(h.x, words)
    }
}
