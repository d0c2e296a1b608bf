// mstatus on the way into a trap and out of it, by fields, as the original does it. Those that are
// read have names of their own, as in the definitions and laws.
ghost use Rattle.std.specs.Prelude.{◌≡◌};
ghost use Rattle.trap.specs.Status.{mie_of, mpp_of, spp_of, entered_status, mret_status, sret_status};

use hart::modes::Mode;
use rules::status::{MIE, MPIE, MPP, MPRV, SIE, SPIE, SPP};

pub fn mie(mstatus: u64) -> u64
    ensures { result ≡ mie_of mstatus }
{
    MIE.get(mstatus)
}

// The mode that mret returns to.
pub fn mpp(mstatus: u64) -> u64
    ensures { result ≡ mpp_of mstatus }
{
    MPP.get(mstatus)
}

// The mode that sret returns to.
pub fn spp(mstatus: u64) -> u64
    ensures { result ≡ spp_of mstatus }
{
    SPP.get(mstatus)
}

// A trap from `mode` to M.
pub fn enter(mstatus: u64, mode: u64) -> u64
    ensures { result ≡ entered_status mode mstatus }
{
    let m = MPP.set(mstatus, mode);
    let m = MPIE.set(m, mie(mstatus));
    MIE.set(m, 0)
}

pub fn mret(mstatus: u64) -> u64
    ensures { result ≡ mret_status mstatus }
{
    let m = mstatus & !bits::only(mpp(mstatus) != Mode::M, MPRV.filter);
    let m = MPIE.set(m, 1);
    let m = MIE.set(m, MPIE.get(mstatus));
    MPP.set(m, Mode::U)
}

pub fn sret(mstatus: u64) -> u64
    ensures { result ≡ sret_status mstatus }
{
    let m = SPIE.set(mstatus, 1);
    let m = SIE.set(m, SPIE.get(mstatus));
    let m = SPP.set(m, Mode::U);
    MPRV.set(m, 0)
}
