// A fresh record, made where it lies: zeros, and the four words that aren't 0.
ghost use Rattle.std.specs.Prelude.{◌≡◌};
ghost use Rattle.hart.specs.Fresh.{fresh_of};
ghost use Rattle.lent.specs.Images.{hart_at};

use crate::images::{HART_BYTES, put_word};
use hart::caps::Caps;
use hart::modes::Mode;
use hart::record::Word;

pub fn start(s: &mut [u8; HART_BYTES], c: Caps, pc: u64)
    ensures { hart_at s.new ≡ fresh_of c Mode.M pc }
{
    image::clear(s);
    put_word(
        s,
        Word::Mideleg,
        bits::only(c.has_s(), rules::interrupts::MIDELEG_READ_ONLY_ONE),
    );
    put_word(s, Word::Mstatus, c.legalize_mstatus(0));
    put_word(s, Word::Mode, Mode::M);
    put_word(s, Word::Pc, pc);
}
