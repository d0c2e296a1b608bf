// The listing of a write's lost bits: lowest first, each with its reason, and their number.
ghost use Rattle.std.specs.Prelude.{◌≡◌};
ghost use Rattle.explain.specs.Explain.{refused_with, listing, listed};

use crate::explanation::{Explanation, Loss};

const BITS: usize = 64;

// What an entry hands back, by value, as C has it. Entries behind those that there are hold 0.
#[repr(C)]
#[derive(Clone, Copy)]
pub struct Listing {
    pub refusal: u64,
    pub count: u64,
    pub bits: [u8; BITS],
    pub reasons: [u8; BITS],
}

impl Listing {
    // Refused with this number.
    pub fn refused(number: u64) -> Listing
        ensures { result ≡ refused_with number }
    {
        Listing {
            refusal: number,
            count: 0,
            bits: [0; BITS],
            reasons: [0; BITS],
        }
    }

    pub fn of(loss: Loss) -> Listing
        ensures { result ≡ listed loss.bits loss.why }
    {
        let mut bits = [0; BITS];
        let mut reasons = [0; BITS];
        // A place by hand: of both arrays zipped with the filtered bits the proof did not close.
        let mut n = 0;
        // None is looked at above the highest that is lost.
        let end = 64 - loss.bits.leading_zeros() as u64;
        for i in 0..end {
            if bits::bit(loss.bits, i) {
                bits[n] = i as u8;
                reasons[n] = loss.why.reason(i);
                n += 1;
            }
        }
        Listing {
            refusal: 0,
            count: u64::count_ones(loss.bits) as u64,
            bits,
            reasons,
        }
    }
}

impl From<Explanation> for Listing {
    ghost from_gives = { λ found l. l ≡ listing found };

    fn from(found: Explanation) -> Listing {
        match found {
            Ok(loss) => Listing::of(loss),
            Err(why) => Listing::refused(why.into()),
        }
    }
}
