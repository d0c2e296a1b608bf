// Which records are legal. A word that isn't has bits at fault, and all words are tested by joining
// these, without a branch: in one way for harts with S, in another for those without, since one way
// for both was slower (docs/landings/04-in-place.md).
#![tactic(auto)]

ghost use Rattle.std.specs.Prelude.{◌≡◌, ◌==◌, true, false};
ghost use Rattle.hart.specs.Caps.{has_s};
ghost use Rattle.hart.specs.Legal.{x0_zero, each_legal, legal_hart};
ghost use Rattle.legality.specs.Inner.{alike};

use hart::caps::Caps;
use hart::modes::Mode;
use hart::record::Hart;

// The words that are tested alike with S and without.
fn common_faults(c: Caps, h: Hart) -> u64
    ensures { (result == 0) ≡ each_legal c h (x0_zero h) alike }
{
    let mode = Mode { number: h.mode };
    let has_c = c.has_c();
    h.x[0]
        | bits::unless(mode.exists(c.has_s()))
        | bits::differ(bits::keep(h.waiting, 1), h.waiting)
        | bits::differ(c.legalize_mstatus(h.mstatus), h.mstatus)
        | bits::differ(rules::interrupts::legalize_mie(h.mie, c.interrupts), h.mie)
        | bits::differ(bits::keep(h.mip, c.interrupts), h.mip)
        | bits::differ(
            rules::config::legalize_countinhibit(h.mcountinhibit),
            h.mcountinhibit,
        )
        | bits::differ(c.legalize_menvcfg(h.menvcfg), h.menvcfg)
        | bits::differ(
            rules::config::legalize_counteren(h.mcounteren),
            h.mcounteren,
        )
        | rules::addresses::reserved_tvec(h.mtvec)
        | rules::addresses::misaligned(h.pc, has_c)
        | rules::addresses::misaligned(h.mepc, has_c)
}

pub fn with_s_faults(c: Caps, h: Hart) -> u64
    requires has_s { has_s c ≡ true }
    ensures { (result == 0) ≡ legal_hart c h }
{
    common_faults(c, h)
        | rules::addresses::misaligned(h.sepc, c.has_c())
        | rules::addresses::reserved_tvec(h.stvec)
        | bits::differ(
            rules::config::legalize_counteren(h.scounteren),
            h.scounteren,
        )
        | bits::differ(c.legalize_senvcfg(h.senvcfg), h.senvcfg)
        | bits::differ(
            rules::interrupts::legalize_mideleg(h.mideleg, c.interrupts),
            h.mideleg,
        )
        | bits::differ(rules::interrupts::legalize_medeleg(h.medeleg), h.medeleg)
        | bits::unless(rules::addresses::is_satp_mode(h.satp))
        | bits::only(!c.has_sstc(), h.stimecmp)
}

// Without S its words are 0.
pub fn without_s_faults(c: Caps, h: Hart) -> u64
    requires has_s { has_s c ≡ false }
    ensures { (result == 0) ≡ legal_hart c h }
{
    common_faults(c, h)
        | h.mideleg
        | h.medeleg
        | h.stvec
        | h.scounteren
        | h.senvcfg
        | h.sscratch
        | h.sepc
        | h.scause
        | h.stval
        | h.satp
        | h.stimecmp
}
