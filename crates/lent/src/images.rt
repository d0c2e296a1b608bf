// The two images: the capabilities and the record that bytes hold, and a word of the record stored
// where it stands.
ghost use Rattle.std.specs.Prelude.{◌≡◌};
ghost use Rattle.hart.specs.Words.{put, words_of, get_x, set_x};
ghost use Rattle.lent.specs.Images.{caps_at, at_of, hart_at};
ghost use Rattle.lent.specs.Inner.{hart_from};

use hart::caps::Caps;
use hart::record::{Hart, Word};

pub const CAPS_WORDS: usize = 9;

pub const CAPS_BYTES: usize = 8 * CAPS_WORDS;

// The words of the record behind x0 to x31, where they begin, and all of the image.
const WORDS: usize = 28;

const WORDS_AT: usize = 8 * 32;

pub const HART_BYTES: usize = WORDS_AT + 8 * WORDS;

pub fn caps_at(s: &[u8; CAPS_BYTES]) -> Caps
    ensures { result ≡ caps_at s.now }
{
    Caps {
        misa: image::word(s, 0),
        interrupts: image::word(s, 8),
        highest: image::word(s, 16),
        flags: image::word(s, 24),
        mhartid: image::word(s, 32),
        mvendorid: image::word(s, 40),
        marchid: image::word(s, 48),
        mimpid: image::word(s, 56),
        mconfigptr: image::word(s, 64),
    }
}

// The record of x0 to x31 and the words behind them. Here and in `words_of` each has its name: a
// record is no array, since contracts and proofs speak of its fields.
pub fn hart_from(x: [u64; 32], t: [u64; WORDS]) -> Hart
    ensures { result ≡ hart_from x t }
{
    let [
        pc,
        mode,
        waiting,
        mstatus,
        mie,
        mip,
        mideleg,
        medeleg,
        mtvec,
        mcounteren,
        mcountinhibit,
        menvcfg,
        mscratch,
        mepc,
        mcause,
        mtval,
        mcycle,
        minstret,
        tselect,
        stvec,
        scounteren,
        senvcfg,
        sscratch,
        sepc,
        scause,
        stval,
        satp,
        stimecmp,
    ] = t;
    Hart {
        x,
        pc,
        mode,
        waiting,
        mstatus,
        mie,
        mip,
        mideleg,
        medeleg,
        mtvec,
        mcounteren,
        mcountinhibit,
        menvcfg,
        mscratch,
        mepc,
        mcause,
        mtval,
        mcycle,
        minstret,
        tselect,
        stvec,
        scounteren,
        senvcfg,
        sscratch,
        sepc,
        scause,
        stval,
        satp,
        stimecmp,
    }
}

// The words of a record behind x0 to x31.
pub fn words_of(h: Hart) -> [u64; WORDS]
    ensures { result ≡ words_of h }
{
    [
        h.pc,
        h.mode,
        h.waiting,
        h.mstatus,
        h.mie,
        h.mip,
        h.mideleg,
        h.medeleg,
        h.mtvec,
        h.mcounteren,
        h.mcountinhibit,
        h.menvcfg,
        h.mscratch,
        h.mepc,
        h.mcause,
        h.mtval,
        h.mcycle,
        h.minstret,
        h.tselect,
        h.stvec,
        h.scounteren,
        h.senvcfg,
        h.sscratch,
        h.sepc,
        h.scause,
        h.stval,
        h.satp,
        h.stimecmp,
    ]
}

pub fn hart_at(s: &[u8; HART_BYTES]) -> Hart
    ensures { result ≡ hart_at s.now }
{
    let mut x = [0u64; 32];
    image::load(s, 0, &mut x);
    let mut t = [0u64; WORDS];
    image::load(s, WORDS_AT, &mut t);
    hart_from(x, t)
}

// Where a word stands.
pub fn offset_of(w: Word) -> usize
    ensures { result ≡ at_of w }
{
    WORDS_AT + 8 * w as usize
}

// Stores a word of the record where it stands.
pub fn put_word(s: &mut [u8; HART_BYTES], w: Word, v: u64)
    ensures { hart_at s.new ≡ put w v (hart_at s.old) }
{
    image::set_word(s, offset_of(w), v);
}

// 0 where there is no register of this number, as the C interface has it.
pub fn get_x(s: &[u8; HART_BYTES], n: u64) -> u64
    ensures { result ≡ get_x n (hart_at s.now) }
{
    if n < 32 {
        image::word(s, 8 * n as usize)
    } else {
        0
    }
}

// x0 stays as it is, and there is none above 31. What x0 holds is stored again, so that no branch
// hangs on rd.
pub fn set_x(s: &mut [u8; HART_BYTES], n: u64, v: u64)
    ensures { hart_at s.new ≡ set_x n v (hart_at s.old) }
{
    if n < 32 {
        let x0 = image::word(s, 0);
        image::set_word(s, 8 * n as usize, bits::select(n == 0, x0, v));
    }
}

// Stores the words of a record behind x0 to x31, which are as they stand there.
pub fn store_words(s: &mut [u8; HART_BYTES], h: Hart)
    requires { (hart_at s.old).x ≡ h.x }
    ensures { hart_at s.new ≡ h }
{
    let w = words_of(h);
    image::store(s, WORDS_AT, &w);
}
