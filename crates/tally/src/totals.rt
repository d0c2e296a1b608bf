// Nine counters: the bits that were lost for each of the seven reasons, the writes, and the writes
// that lost none. What a write adds to them, and the sums.
ghost use Rattle.std.specs.Prelude.{◌≡◌};
ghost use Rattle.explain.specs.Explain.{listed};
ghost use Rattle.tally.specs.Totals.{totals, sums, sums_within, adds};
ghost use Rattle.tally.specs.Inner.{Within};

use explain::explanation::Loss;

// In C the first seven are an array, in the order of the reasons' numbers. Here each is a field,
// which contracts and proofs can name.
#[repr(C)]
#[derive(Clone, Copy, Default)]
pub struct Totals {
    pub unstored: u32,
    pub never: u32,
    pub elsewhere: u32,
    pub reserved: u32,
    pub forced: u32,
    pub ignored: u32,
    pub driven: u32,
    pub writes: u32,
    pub lossless: u32,
}

impl Totals {
    // What one write adds that loses these bits: a bit counts for the first reason that holds.
    pub fn of(loss: Loss) -> Totals
        ensures { result ≡ totals (adds (listed loss.bits loss.why)) }
    {
        let why = loss.why;
        let mut rest = loss.bits;
        let mut count = |holds: u64| {
            let bits = rest & holds;
            rest &= !holds;
            bits.count_ones()
        };
        Totals {
            unstored: count(why.unstored),
            never: count(why.never),
            elsewhere: count(why.elsewhere),
            reserved: count(why.reserved),
            forced: count(why.forced),
            ignored: count(why.ignored),
            driven: count(why.driven),
            writes: 1,
            lossless: (loss.bits == 0) as u32,
        }
    }

    // None where a sum would pass the limit of its counter.
    pub fn checked_plus(self, more: Totals) -> Option<Totals>
        ensures { result ≡ sums_within self more }
    {
        Some(Totals {
            unstored: self.unstored.checked_add(more.unstored)?,
            never: self.never.checked_add(more.never)?,
            elsewhere: self.elsewhere.checked_add(more.elsewhere)?,
            reserved: self.reserved.checked_add(more.reserved)?,
            forced: self.forced.checked_add(more.forced)?,
            ignored: self.ignored.checked_add(more.ignored)?,
            driven: self.driven.checked_add(more.driven)?,
            writes: self.writes.checked_add(more.writes)?,
            lossless: self.lossless.checked_add(more.lossless)?,
        })
    }

    // For a caller who knows that none does.
    #[tactic(auto, using(crate::proofs::Sums::sums_if_within))]
    pub fn plus(self, more: Totals) -> Totals
        requires { Within self more }
        ensures { result ≡ sums self more }
    {
        self.checked_plus(more).unwrap()
    }
}
