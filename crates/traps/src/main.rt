// Runs the pending question, injections, traps from each mode and the returns, with their refusals.
#![tactic(auto)]

use csr::addresses::{MSTATUS, MTVEC};
use hart::modes::Mode;
use hart::record::Word;
use session::{CAPS_BYTES, Session, boards};
use std::io;
use trap::context::TrapInfo;
use trap::interrupts::get_next_interrupt;

// An illegal instruction.
const ILLEGAL: TrapInfo = TrapInfo {
    mcause: 2,
    mtval: 0x3020_0073,
    mepc: 0x8000_0104,
    mip: 0,
    mstatus: 0,
};

// The same with interrupts that are pending on the machine.
const PENDING: TrapInfo = TrapInfo {
    mip: 0x2A2,
    ..ILLEGAL
};

// The outcome, then the mode and the words that traps and returns move; a record that isn't legal
// would be told.
fn print_step(rt: &impl Print, title: &str, after: Session) -> io::Result<()> {
    match after.outcome.refusal {
        0 => println!(rt; "{title}: done")?,
        refusal => println!(rt; "{title}: refused {refusal}")?,
    }
    print!(rt; "  mode {}", after.get(Word::Mode))?;
    for word in [
        Word::Pc,
        Word::Mstatus,
        Word::Mcause,
        Word::Mepc,
        Word::Mtval,
        Word::Mip,
    ] {
        print!(rt; ", {word} {:#x}", after.get(word))?;
    }
    println!(rt; "{}", if after.is_legal() { "" } else { ", not legal" })
}

// A vectored handler, a program counter, and interrupts of the host's own.
fn board(caps: [u8; CAPS_BYTES], mip: u64) -> Session {
    let s = Session::start(caps, 0x8000_0100);
    s.write(MTVEC, 0x8000_2001).with(Word::Mip, mip)
}

fn before(s: Session, mode: u64, mstatus: u64) -> Session {
    s.write(MSTATUS, mstatus).with(Word::Mode, mode)
}

fn traps(rt: &impl Print, b: Session) -> io::Result<()> {
    let m = before(b, Mode::M, 0x8);
    let s = before(b, Mode::S, 0);
    let u = before(b, Mode::U, 0);
    let mprv = before(b, Mode::M, 0x2_0000);
    let interrupt = TrapInfo {
        mcause: 0x8000_0000_0000_0007,
        mepc: 1,
        ..ILLEGAL
    };
    let to = |mstatus: u64| TrapInfo { mstatus, ..ILLEGAL };
    let pending_to = |mstatus: u64| TrapInfo { mstatus, ..PENDING };
    for (title, from, info) in [
        ("from M with MIE 1", m, PENDING),
        ("from M with MPRV 1, MIE 0", mprv, PENDING),
        ("from S", s, pending_to(0xA_0000_0880)),
        ("from U, to MIE 1", u, pending_to(0xA_0000_0088)),
        ("an interrupt's mcause, before a bad mepc", m, interrupt),
        ("mepc not aligned", m, TrapInfo { mepc: 1, ..ILLEGAL }),
        ("mip outside interrupts", m, TrapInfo { mip: 1, ..ILLEGAL }),
        ("from U, mstatus not legal", u, ILLEGAL),
        ("from U, MPP is S", u, to(0xA_0000_0800)),
        ("from S, MPP is M", s, to(0xA_0000_1800)),
    ] {
        print_step(rt, title, from.trap(info))?;
    }
    Ok(())
}

// Injections with mret at once, and such that are refused.
fn injections(rt: &impl Print, b: Session) -> io::Result<()> {
    let m = before(b, Mode::M, 0x2_0008);
    let s = before(b, Mode::S, 0x2_0000);
    let u = before(b, Mode::U, 0x8);
    for (title, from, number) in [
        ("11 in M with MPRV 1, MIE 1", m, 11),
        ("7 in S with MPRV 1, MIE 0", s, 7),
        ("3 in U with MIE 1", u, 3),
    ] {
        let inside = from.inject(number);
        print_step(rt, title, inside)?;
        print_step(rt, "and mret", inside.mret())?;
    }
    for (title, number) in [
        ("2, no interrupt of this hart", 2),
        ("64", 64),
        ("0xffffffffffffffff", u64::MAX),
    ] {
        print_step(rt, title, m.inject(number))?;
    }
    Ok(())
}

fn returns(rt: &impl Print, b: Session, without: Session) -> io::Result<()> {
    for (title, mode, mstatus) in [
        ("mret to M, MPRV stays", Mode::M, 0x2_1880),
        ("mret to S", Mode::M, 0x2_0880),
        ("mret to U", Mode::M, 0x2_0000),
        ("mret in S", Mode::S, 0),
        ("mret in U", Mode::U, 0),
    ] {
        print_step(rt, title, before(b, mode, mstatus).mret())?;
    }
    for (title, on, mode, mstatus) in [
        ("sret to S", b, Mode::M, 0x2_0120),
        ("sret to U", b, Mode::M, 0x2_0002),
        ("sret in S", b, Mode::S, 0),
        ("sret without S", without, Mode::M, 0),
        ("sret without S, in U", without, Mode::U, 0),
    ] {
        print_step(rt, title, before(on, mode, mstatus).sret())?;
    }
    Ok(())
}

fn questions(rt: &impl Print, b: Session) -> io::Result<()> {
    let held = before(b, Mode::M, 0);
    let m = before(b, Mode::M, 8);
    let s = before(b, Mode::S, 0);
    let u = before(b, Mode::U, 0);
    for (title, on, mie, mip) in [
        ("M, MIE 0", held, 0xAAA, 0xAAA),
        (
            "M, MIE 0, waiting",
            held.with(Word::Waiting, 1),
            0xAAA,
            0xAAA,
        ),
        ("M, MIE 1", m, 0xAAA, 0xAAA),
        ("S, MIE 0", s, 0xAAA, 0x0A8),
        ("U, MIE 0", u, 0xAAA, 0x080),
        ("U, pending but not enabled", u, 0x800, 0x088),
        ("U, delegated", u, 0x222, 0x222),
    ] {
        let asked = on.with(Word::Mie, mie).with(Word::Mip, mip).pending();
        println!(rt; "{title}: {}", asked.outcome.answer)?;
    }
    Ok(())
}

// With nothing delegated and LCOFI enabled, which no legal record has: the whole order.
fn whole_order(rt: &impl Print) -> io::Result<()> {
    print!(rt; "the order:")?;
    for mip in [0x2AAA, 0x22AA, 0x22A2, 0x2222, 0x2022, 0x2020, 0x2000, 0] {
        print!(rt; " {}", get_next_interrupt(0x2AAA, mip, 0))?;
    }
    println!(rt; "")
}

fn main(rt: HostRuntime) -> io::Result<()> {
    let b = board(boards::with_s_and_sstc(), 0x208);
    let without = board(boards::without_s(), 0x8);
    println!(rt; "traps\n")?;
    traps(&rt, b)?;
    println!(rt; "\ninjections\n")?;
    injections(&rt, b)?;
    println!(rt; "\nreturns\n")?;
    returns(&rt, b, without)?;
    println!(rt; "\npending\n")?;
    questions(&rt, b)?;
    whole_order(&rt)
}
