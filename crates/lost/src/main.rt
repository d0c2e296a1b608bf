// Lost bits and their reasons: writes that don't take, one at least for each reason, on boards that
// differ in a thing or two; and the totals of a month with such writes.
#![tactic(auto)]

use csr::addresses::{
    MENVCFG, MEPC, MIDELEG, MIE, MIP, MISA, MSTATUS, MTVEC, MVENDORID, SATP, SEED, SIE, SIP, TIME,
};
use explain::listing::Listing;
use hart::record::{Host, Word};
use lent::outcome::Outcome;
use session::boards::STCE;
use session::{Session, boards};
use std::io;
use tally::totals::Totals;

// The bits, each with its reason.
fn write_bits(rt: &impl Print, l: &Listing) -> io::Result<()> {
    let bits = l.bits.iter().zip(&l.reasons).take(l.count as usize);
    for (i, (bit, reason)) in bits.enumerate() {
        let comma = if i == 0 { "" } else { ", " };
        print!(rt; "{comma}{bit} for {reason}")?;
    }
    Ok(())
}

// The lost bits of a write, behind what it is.
fn example(rt: &impl Print, what: &str, l: Listing) -> io::Result<()> {
    print!(rt; "  {what}: ")?;
    if l.refusal != 0 {
        print!(rt; "refusal {}", l.refusal)?;
    } else if l.count == 0 {
        print!(rt; "nothing")?;
    } else {
        write_bits(rt, &l)?;
    }
    println!(rt; "")
}

// A write by its title: the session that it is made on, the address and the value.
type Write = (&'static str, Session, u64, u64);

fn examples(rt: &impl Print, writes: &[Write]) -> io::Result<()> {
    for &(what, on, address, value) in writes {
        example(rt, what, on.explain(address, value, Host::QUIET))?;
    }
    Ok(())
}

fn of_configuration(rt: &impl Print, s: Session) -> io::Result<()> {
    let vectored = s.with(Word::Mtvec, 0x8000_0001);
    let to_vectored = "mtvec takes 0x80002002 over 0x80000001";
    let satp = "satp takes 0x9000000000000000";
    let writes = [
        ("mstatus takes 0x0", s, MSTATUS, 0),
        ("mstatus takes 0x1000", s, MSTATUS, 0x1000),
        (to_vectored, vectored, MTVEC, 0x8000_2002),
        (satp, s, SATP, 0x9000_0000_0000_0000),
        ("mideleg takes 0x0", s, MIDELEG, 0),
    ];
    examples(rt, &writes)
}

fn of_interrupts(rt: &impl Print, s: Session) -> io::Result<()> {
    let driven = s.with(Word::Menvcfg, STCE);
    let to_driven = "mip takes 0x20 while stimecmp drives STIP";
    let writes = [
        ("mip takes 0x8", s, MIP, 0x8),
        (to_driven, driven, MIP, 0x20),
        ("sip takes 0x200", s, SIP, 0x200),
        ("sie takes 0x1, which it doesn't show", s, SIE, 0x1),
    ];
    examples(rt, &writes)
}

fn of_read_only_bits(rt: &impl Print, s: Session) -> io::Result<()> {
    let misa = s.read(MISA, Host::QUIET).outcome.answer;
    let writes = [
        ("menvcfg takes 0x10", s, MENVCFG, 0x10),
        ("mvendorid takes 0x1", s, MVENDORID, 0x1),
        ("misa takes what it reads", s, MISA, misa),
    ];
    examples(rt, &writes)
}

fn of_the_host(rt: &impl Print, s: Session) -> io::Result<()> {
    let time = Host {
        time: 0x7,
        ..Host::QUIET
    };
    let seed = Host {
        seed: 0x5,
        ..Host::QUIET
    };
    for (what, address, host) in [
        ("time takes 0x5 while it is 0x7", TIME, time),
        ("seed takes 0x5 while it is 0x5", SEED, seed),
    ] {
        example(rt, what, s.explain(address, 0x5, host))?;
    }
    Ok(())
}

fn on_one_board(rt: &impl Print) -> io::Result<()> {
    let s = Session::start(boards::with_s_and_sstc(), 0);
    println!(rt; "A board with S, Sstc and interrupts 0xaaa, and a fresh record:")?;
    of_configuration(rt, s)?;
    of_interrupts(rt, s)?;
    of_read_only_bits(rt, s)?;
    of_the_host(rt, s)?;
    examples(rt, &[("0x7a1 takes 0x0", s, 0x7A1, 0)])
}

fn on_others(rt: &impl Print) -> io::Result<()> {
    let with_f = Session::start(boards::with_f(), 0);
    let with_zicbom = Session::start(boards::with_zicbom(), 0);
    let of_s = Session::start(boards::with_interrupts_of_s(), 0);
    let without_c = Session::start(boards::without_c(), 0);
    let without_s = Session::start(boards::without_s(), 0);
    let mstatus = "with F, mstatus takes 0xa00006000";
    let menvcfg = "with Zicbom, menvcfg takes 0x20";
    let mie = "with interrupts 0x222, mie takes 0x888";
    let mepc = "without C, mepc takes 0x80000002 above the highest address";
    println!(rt; "Boards that differ in one thing:")?;
    let writes = [
        (mstatus, with_f, MSTATUS, 0xA_0000_6000),
        (menvcfg, with_zicbom, MENVCFG, 0x20),
        (mie, of_s, MIE, 0x888),
        ("without C, mepc takes 0x3", without_c, MEPC, 0x3),
        (mepc, without_c, MEPC, 0x8000_0002),
        ("without S, mstatus takes 0x2", without_s, MSTATUS, 0x2),
        ("without S, sie takes 0x0", without_s, SIE, 0),
    ];
    examples(rt, &writes)
}

// The totals behind what was done, with the refusal if there is one.
fn told(rt: &impl Print, what: &str, outcome: Outcome, totals: Totals) -> io::Result<()> {
    print!(rt; "  {what}: ")?;
    if outcome.refusal != 0 {
        print!(rt; "refusal {}, ", outcome.refusal)?;
    }
    print!(rt; "lost")?;
    for lost in [
        totals.unstored,
        totals.never,
        totals.elsewhere,
        totals.reserved,
        totals.forced,
        totals.ignored,
        totals.driven,
    ] {
        print!(rt; " {lost}")?;
    }
    println!(rt; ", writes {}, lossless {}", totals.writes, totals.lossless)
}

fn of_a_month(rt: &impl Print) -> io::Result<()> {
    let s = Session::start(boards::with_s_and_sstc(), 0);
    let driven = s.with(Word::Menvcfg, STCE);
    let misa = s.read(MISA, Host::QUIET).outcome.answer;
    println!(rt; "A month, on the first board:")?;
    let mut month = Totals::default();
    let mut outcome = Outcome::default();
    for (on, address, value) in [
        (s, MSTATUS, 0x1000),
        (s, SATP, 0x9000_0000_0000_0000),
        (s, MVENDORID, 0x1),
        (s, MIP, 0x8),
        (driven, MIP, 0x20),
        (s, MISA, misa),
    ] {
        outcome = on.tally(address, value, Host::QUIET, &mut month);
    }
    told(rt, "six writes", outcome, month)?;
    let outcome = s.tally(0x7A1, 0, Host::QUIET, &mut month);
    told(rt, "and one to 0x7a1", outcome, month)?;
    let full = Totals {
        forced: 0xFFFF_FFFE,
        writes: 7,
        ..Totals::default()
    };
    for (what, address) in [
        ("one bit forced, below the limit", MSTATUS),
        ("three bits forced, past it", MIDELEG),
    ] {
        let mut totals = full;
        let outcome = s.tally(address, 0, Host::QUIET, &mut totals);
        told(rt, what, outcome, totals)?;
    }
    Ok(())
}

fn main(rt: HostRuntime) -> io::Result<()> {
    on_one_board(&rt)?;
    on_others(&rt)?;
    of_a_month(&rt)
}
