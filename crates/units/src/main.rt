// FS and VS of mstatus on each board that S, F, V and Zfinx make: what a write of 3 to both fields
// stores, and whether a record and a trap with 3 in both are taken.
#![tactic(auto)]

use csr::addresses::{MSTATUS, SSTATUS};
use hart::modes::Mode;
use hart::record::{Host, Word};
use session::boards::Units;
use session::{Session, boards};
use std::io;
use trap::context::TrapInfo;

// 3 in FS and in VS.
const DIRTY: u64 = 0x6600;

// The same as mstatus holds it: with SD and UXL, and on a hart with S with SXL.
const STORED: u64 = 0x8000_0002_0000_6600;

const SXL: u64 = 0x8_0000_0000;

fn or_dash(has: bool, letters: &'static str) -> &'static str {
    if has { letters } else { "-" }
}

// What the CSR reads as after the write.
fn takes(rt: &impl Print, s: Session, address: u64) -> io::Result<()> {
    let after = s.write(address, DIRTY);
    match after.outcome.refusal {
        0 => print!(rt;
            "{:#018x}  ",
            after.read(address, Host::QUIET).outcome.answer
        ),
        refusal => print!(rt; "refused {refusal:<12}"),
    }
}

fn verdict(rt: &impl Print, s: Session) -> io::Result<()> {
    match s.outcome.refusal {
        0 => print!(rt; "taken"),
        refusal => print!(rt; "refused {refusal}"),
    }
}

fn row(rt: &impl Print, units: Units) -> io::Result<()> {
    let fresh = Session::start(boards::with_units(units), 0);
    let mstatus = if units.s { STORED | SXL } else { STORED };
    let trap = TrapInfo {
        mcause: 2,
        mtval: 0,
        mepc: 0,
        mip: 0,
        mstatus,
    };
    let s = or_dash(units.s, "S");
    let f = or_dash(units.f, "F");
    let v = or_dash(units.v, "V");
    let zfinx = or_dash(units.zfinx, "Zfinx");
    print!(rt; "{s} {f} {v} {zfinx:<9}")?;
    takes(rt, fresh, MSTATUS)?;
    takes(rt, fresh, SSTATUS)?;
    verdict(rt, fresh.with(Word::Mstatus, mstatus).pending())?;
    print!(rt; ", ")?;
    verdict(rt, fresh.with(Word::Mode, Mode::U).trap(trap))?;
    println!(rt; "")
}

fn main(rt: HostRuntime) -> io::Result<()> {
    println!(rt; "0x6600 has 3 in FS and in VS")?;
    println!(rt;
        "the hart has   mstatus takes it    sstatus takes it    in the record, in a trap from U"
    )?;
    for s in [false, true] {
        for f in [false, true] {
            for v in [false, true] {
                for zfinx in [false, true] {
                    row(&rt, Units { s, f, v, zfinx })?;
                }
            }
        }
    }
    Ok(())
}
