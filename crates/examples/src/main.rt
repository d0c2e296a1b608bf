// Runs the examples a to q of docs/RULES.md, and three more of mepc and sret.
#![tactic(auto)]

use csr::addresses::{MENVCFG, MEPC, MIE, MIP, MSTATUS, MTVEC, SIP};
use hart::answer::Effect;
use hart::modes::Mode;
use hart::record::{Host, Word};
use session::boards::{STCE, Units};
use session::entries::Entry;
use session::{Session, boards};
use std::io;
use trap::context::TrapInfo;

// An outcome has C's numbers: so effects are matched as numbers here.
const SET_SEIP: u64 = Effect::SetSeip as u64;

const CLEAR_SEIP: u64 = Effect::ClearSeip as u64;

// The controller raises SEIP.
const LINE_UP: Host = Host {
    line: 1,
    ..Host::QUIET
};

// What a call asks of the host.
fn asked(s: Session) -> &'static str {
    match s.outcome.effect {
        SET_SEIP => ", set",
        CLEAR_SEIP => ", clear",
        _ => "",
    }
}

// A title, a hart, and what is written to the CSR on it.
type Written = (&'static str, Session, u64);

// What the CSR reads as after each write, and what the write asks of the host.
fn writes(rt: &impl Print, address: u64, rows: &[Written]) -> io::Result<()> {
    for &(title, s, value) in rows {
        let after = s.write(address, value);
        let stored = after.read(address, Host::QUIET).outcome.answer;
        println!(rt; "{title}: {stored:#x}{}", asked(after))?;
    }
    Ok(())
}

fn status_examples(rt: &impl Print, with: Session, without: Session) -> io::Result<()> {
    let with_f = Session::start(boards::with_f(), 0);
    let rows = [
        ("a  mstatus takes 0", with, 0),
        ("a  mstatus takes 0, without S", without, 0),
        ("b  mstatus takes 0x1000", with, 0x1000),
        ("c  mstatus takes 0x800", with, 0x800),
        ("c  mstatus takes 0x800, without S", without, 0x800),
        ("d  mstatus takes 0x6000, F present", with_f, 0x6000),
    ];
    writes(rt, MSTATUS, &rows)
}

fn vector_example(rt: &impl Print, s: Session) -> io::Result<()> {
    let vectored = s.write(MTVEC, 0x8000_0001);
    let title = "e  mtvec 0x80000001 takes 0x80002002";
    writes(rt, MTVEC, &[(title, vectored, 0x8000_2002)])
}

fn injected(rt: &impl Print, letter: char, s: Session, mtvec: u64, number: u64) -> io::Result<()> {
    let after = s.write(MTVEC, mtvec).inject(number);
    let pc = after.get(Word::Pc);
    let mcause = after.get(Word::Mcause);
    println!(rt; "{letter}  mtvec {mtvec:#x}, inject {number}: pc {pc:#x}, mcause {mcause:#x}")
}

fn written_pending_examples(rt: &impl Print, s: Session) -> io::Result<()> {
    let stce = s.write(MENVCFG, STCE);
    let full = s.write(MIP, 0x222).write(MENVCFG, STCE);
    let rows = [
        ("h  mip 0 takes 0xffff", s, 0xFFFF),
        ("h  mip 0 takes 0xffff, menvcfg bit 63", stce, 0xFFFF),
        ("i  mip 0x222 takes 0, menvcfg bit 63", full, 0),
    ];
    writes(rt, MIP, &rows)
}

fn trap_example(rt: &impl Print, s: Session) -> io::Result<()> {
    let info = TrapInfo {
        mcause: 2,
        mtval: 0,
        mepc: 0,
        mip: 0x2A2,
        mstatus: 0,
    };
    let mip = s.with(Word::Mip, 0x208).trap(info).get(Word::Mip);
    println!(rt; "j  virtual mip 0x208, trap mip 0x2a2: {mip:#x}")
}

fn return_examples(rt: &impl Print, s: Session) -> io::Result<()> {
    let to_m = s.write(MSTATUS, 0xA_0002_1880).mret();
    let to_s = s.write(MSTATUS, 0xA_0002_0880).mret();
    let by_sret = s.write(MSTATUS, 0xA_0000_0120).sret();
    for (title, after) in [
        ("k  mret, mstatus 0xa00021880", to_m),
        ("l  mret, mstatus 0xa00020880", to_s),
        ("m  sret, mstatus 0xa00000120", by_sret),
    ] {
        let mstatus = after.get(Word::Mstatus);
        let mode = after.get(Word::Mode);
        println!(rt; "{title}: {mstatus:#x}, mode {mode}")?;
    }
    Ok(())
}

fn pending_example(rt: &impl Print, s: Session) -> io::Result<()> {
    let enabled = s.write(MIE, 0x88).with(Word::Mip, 0x888);
    let number = enabled.with(Word::Mode, Mode::U).pending().outcome.answer;
    println!(rt; "n  pending, mode 0, mie 0x88, mip 0x888: {number}")
}

fn unit_examples(rt: &impl Print, without: Session) -> io::Result<()> {
    let f = Units {
        f: true,
        ..Units::NONE
    };
    let v = Units {
        v: true,
        ..Units::NONE
    };
    let f = Session::start(boards::with_units(f), 0);
    let v = Session::start(boards::with_units(v), 0);
    let rows = [
        ("o  mstatus takes 0x6000, without S", without, 0x6000),
        ("o  mstatus takes 0x6000, without S, F present", f, 0x6000),
        ("p  mstatus takes 0x600, without S", without, 0x600),
        ("p  mstatus takes 0x600, without S, V present", v, 0x600),
    ];
    writes(rt, MSTATUS, &rows)
}

// What mip and sip read while the controller raises SEIP, and an instruction on mip: rd is x5, and
// rs1 is x6.
fn line_examples(rt: &impl Print, with: Session, without: Session) -> io::Result<()> {
    for (title, s, address) in [
        ("q  mip 0 reads, the line up", with, MIP),
        ("q  mip 0 reads, the line up, without S", without, MIP),
        ("q  sip reads, mip 0, the line up", with, SIP),
    ] {
        println!(rt; "{title}: {:#x}", s.read(address, LINE_UP).outcome.answer)?;
    }
    let set = with.with_x(6, 0x2).call(Entry::Csrrs, [MIP, 5, 6, 0, 0, 1]);
    let full = with.with(Word::Mip, 0x200).with_x(6, 0x200);
    let cleared = full.call(Entry::Csrrc, [MIP, 5, 6, 0, 0, 1]);
    for (title, after) in [
        ("q  csrrs of mip 0 with 0x2, the line up", set),
        ("q  csrrc of mip 0x200 with 0x200, the line up", cleared),
    ] {
        let answer = after.outcome.answer;
        let stored = after.get(Word::Mip);
        println!(rt;
            "{title}: answer {answer:#x}, stored {stored:#x}{}",
            asked(after)
        )?;
    }
    Ok(())
}

fn unmarked_examples(rt: &impl Print, s: Session, without: Session) -> io::Result<()> {
    let at_highest = s.write(MEPC, 0x8000_0000);
    let from_zero = "   highest 0x80000000: mepc 0 takes 0x80000000";
    let from_highest = "   highest 0x80000000: mepc 0x80000000 takes 0x80000002";
    let rows = [
        (from_zero, s, 0x8000_0000),
        (from_highest, at_highest, 0x8000_0002),
    ];
    writes(rt, MEPC, &rows)?;
    let refusal = without.sret().outcome.refusal;
    println!(rt; "   sret without S: refused {refusal}")
}

fn main(rt: HostRuntime) -> io::Result<()> {
    let with = Session::start(boards::with_s_and_sstc(), 0);
    let without = Session::start(boards::without_s(), 0);
    status_examples(&rt, with, without)?;
    vector_example(&rt, with)?;
    injected(&rt, 'f', with, 0x8000_2001, 7)?;
    injected(&rt, 'g', with, 0xFFFF_FFFF_FFFF_FFFD, 3)?;
    written_pending_examples(&rt, with)?;
    trap_example(&rt, with)?;
    return_examples(&rt, with)?;
    pending_example(&rt, with)?;
    unit_examples(&rt, without)?;
    line_examples(&rt, with, without)?;
    unmarked_examples(&rt, with, without)
}
