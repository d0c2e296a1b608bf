// Runs the six CSR instructions with x0 in each place, on a CSR that is stored whole and on
// tselect, where a write that should not be shows; then their refusals.
#![tactic(auto)]

use csr::addresses::{MSCRATCH, STIMECMP, TSELECT};
use hart::modes::Mode;
use hart::record::Word;
use session::entries::{Entry, Numbers};
use session::{Session, boards};
use std::io;

// No CSR that the hart has.
const TDATA1: u64 = 0x7A1;

// x5 holds 0x55, x6 0x6, x7 0; mscratch and tselect hold 0xf.
fn before() -> Session {
    let s = Session::start(boards::with_s(), 0);
    let s = s.with_x(5, 0x55).with_x(6, 0x6);
    s.with(Word::Mscratch, 0xF).with(Word::Tselect, 0xF)
}

// An instruction with its address, rd, rs1 or the immediate, the time, the seed and the line. What
// it gives is the refusal, or the answer with rd, and the two CSRs' words after it; a record that
// isn't legal would be told.
fn row(rt: &impl Print, entry: Entry, s: Session, numbers: Numbers) -> io::Result<()> {
    let [_, rd, field, ..] = numbers;
    let after = s.call(entry, numbers);
    print!(rt; "{entry:<7}rd {rd}, field {field}")?;
    match after.outcome.refusal {
        0 => print!(rt;
            ": answer {:#x}, rd {:#x}",
            after.outcome.answer,
            after.get_x(rd)
        )?,
        refusal => print!(rt; ": refused {refusal}")?,
    }
    let mscratch = after.get(Word::Mscratch);
    let tselect = after.get(Word::Tselect);
    let legal = if after.is_legal() { "" } else { ", not legal" };
    println!(rt; ", mscratch {mscratch:#x}, tselect {tselect:#x}{legal}")
}

// Both registers others than x0, the same, a register that holds 0; then x0 in each place.
fn all_six(rt: &impl Print, s: Session, address: u64) -> io::Result<()> {
    for entry in [
        Entry::Csrrw,
        Entry::Csrrs,
        Entry::Csrrc,
        Entry::Csrrwi,
        Entry::Csrrsi,
        Entry::Csrrci,
    ] {
        for (rd, field) in [(5, 6), (6, 6), (5, 7), (0, 6), (5, 0), (0, 0)] {
            row(rt, entry, s, [address, rd, field, 0, 0, 0])?;
        }
    }
    Ok(())
}

// The lowest number comes first: each row has one reason less than the row before.
fn refusals(rt: &impl Print, s: Session) -> io::Result<()> {
    let in_u = s.with(Word::Mode, Mode::U);
    for (entry, s, numbers) in [
        (Entry::Csrrs, in_u, [TDATA1, 32, 32, 0, 0, 2]),
        (Entry::Csrrs, in_u, [STIMECMP, 32, 32, 0, 0, 2]),
        (Entry::Csrrs, in_u, [MSCRATCH, 32, 32, 0, 0, 2]),
        (Entry::Csrrs, in_u, [MSCRATCH, 31, 32, 0, 0, 2]),
        (Entry::Csrrs, in_u, [MSCRATCH, 32, 31, 0, 0, 2]),
        (Entry::Csrrs, in_u, [MSCRATCH, 31, 31, 0, 0, 2]),
        (Entry::Csrrs, s, [MSCRATCH, 31, 31, 0, 0, 2]),
        (Entry::Csrrs, s, [MSCRATCH, 31, 31, 0, 0, 1]),
        (Entry::Csrrwi, s, [MSCRATCH, 31, 32, 0, 0, 0]),
        (Entry::Csrrwi, s, [MSCRATCH, 31, 31, 0, 0, 0]),
        (Entry::Csrrw, s, [0xFFFF_FFFF_FFFF_F340, 5, 6, 0, 0, 0]),
        (Entry::Csrrw, s, [MSCRATCH, 0x1_0000_0005, 6, 0, 0, 0]),
        (Entry::Csrrw, s, [MSCRATCH, 5, 6, 0, 0, 0x1_0000_0000]),
    ] {
        row(rt, entry, s, numbers)?;
    }
    Ok(())
}

fn main(rt: HostRuntime) -> io::Result<()> {
    let s = before();
    println!(rt; "on mscratch")?;
    all_six(&rt, s, MSCRATCH)?;
    println!(rt; "\non tselect")?;
    all_six(&rt, s, TSELECT)?;
    println!(rt; "\nrefusals")?;
    refusals(&rt, s)
}
