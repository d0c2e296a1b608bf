// What each word of the record behind x0 to x31 may hold. Crate legality asks the same of all words
// at once, without a branch, and can't say which is at fault.
ghost use Rattle.std.specs.Prelude.{◌≡◌};
ghost use Rattle.hart.specs.Legal.{legal_word};

use hart::caps::Caps;
use hart::modes::Mode;
use hart::record::Word;
use rules::addresses::{is_aligned, is_satp_mode, is_tvec_mode};
use rules::config::{legalize_counteren, legalize_countinhibit};
use rules::interrupts::{legalize_medeleg, legalize_mideleg, legalize_mie};

#[tactic(auto, unfolding(hart::specs::Legal::legal_word), using(hart::proofs::Legal::is_waiting, hart::proofs::Legal::is_counteren))]
pub fn is_legal(c: Caps, w: Word, v: u64) -> bool
    ensures { result ≡ legal_word c w v }
{
    // The words that go with S are 0 without it.
    let if_s = c.has_s() || v == 0;
    match w {
        Word::Pc | Word::Mepc => is_aligned(v, c.has_c()),
        Word::Mode => Mode { number: v }.exists(c.has_s()),
        Word::Waiting => bits::keep(v, 1) == v,
        Word::Mstatus => c.legalize_mstatus(v) == v,
        Word::Mie => legalize_mie(v, c.interrupts) == v,
        Word::Mip => bits::keep(v, c.interrupts) == v,
        Word::Mideleg => if_s && (!c.has_s() || legalize_mideleg(v, c.interrupts) == v),
        Word::Medeleg => if_s && legalize_medeleg(v) == v,
        Word::Mtvec => is_tvec_mode(v),
        Word::Mcounteren => legalize_counteren(v) == v,
        Word::Mcountinhibit => legalize_countinhibit(v) == v,
        Word::Menvcfg => c.legalize_menvcfg(v) == v,
        Word::Mscratch
        | Word::Mcause
        | Word::Mtval
        | Word::Mcycle
        | Word::Minstret
        | Word::Tselect => true,
        Word::Stvec => if_s && is_tvec_mode(v),
        Word::Scounteren => if_s && legalize_counteren(v) == v,
        Word::Senvcfg => if_s && c.legalize_senvcfg(v) == v,
        Word::Sscratch | Word::Scause | Word::Stval => if_s,
        Word::Sepc => if_s && is_aligned(v, c.has_c()),
        Word::Satp => if_s && is_satp_mode(v),
        Word::Stimecmp => if_s && (c.has_sstc() || v == 0),
    }
}
