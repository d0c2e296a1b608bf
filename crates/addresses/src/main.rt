// Walks all 4,096 CSR addresses, and two beyond, on three boards, and prints for each run of
// addresses what a read and a write give.
#![tactic(auto)]

use csr::address::{Csr, csr_at};
use csr::names::Names;
use hart::record::Host;
use session::{CAPS_BYTES, Session, boards};
use std::io;

const ADDRESSES: u64 = 4096;

// The refusal number that both a read and a write give, 0 where they are done; none where they
// don't agree.
fn refusal(s: Session, address: u64) -> Option<u64> {
    let got = s.read(address, Host::QUIET).outcome.refusal;
    let put = s.write(address, 0).outcome.refusal;
    if got == put { Some(got) } else { None }
}

// Neighbours in one row: both unknown, or two counters of one run.
fn alike(a: u64, b: u64) -> bool {
    match (csr_at(a), csr_at(b)) {
        (None, None) => true,
        (Some(csr), Some(next)) => is_counter(csr) && is_counter(next),
        _ => false,
    }
}

fn is_counter(csr: Csr) -> bool {
    matches!(csr, Csr::Mhpmcounter(_) | Csr::Mhpmevent(_))
}

fn print_refusal(rt: &impl Print, s: Session, address: u64) -> io::Result<()> {
    match refusal(s, address) {
        Some(0) => print!(rt; "present  "),
        Some(number) => print!(rt; "refusal {number}"),
        None => print!(rt; "disagree "),
    }
}

fn print_names(rt: &impl Print, first: u64, last: u64) -> io::Result<()> {
    if csr_at(first).is_some() {
        print!(rt; "  {}", Names { first, last })?;
    }
    Ok(())
}

fn print_row(rt: &impl Print, s: Session, first: u64, last: u64) -> io::Result<()> {
    if first == last {
        print!(rt; "  {first:03x}      ")?;
    } else {
        print!(rt; "  {first:03x}-{last:03x}  ")?;
    }
    print_refusal(rt, s, first)?;
    print_names(rt, first, last)?;
    println!(rt; "")
}

fn print_rows(rt: &impl Print, s: Session) -> io::Result<()> {
    let mut first = 0;
    for last in 0..ADDRESSES {
        let next = last + 1;
        if next == ADDRESSES || refusal(s, next) != refusal(s, last) || !alike(last, next) {
            print_row(rt, s, first, last)?;
            first = next;
        }
    }
    Ok(())
}

fn walk(rt: &impl Print, title: &str, caps: [u8; CAPS_BYTES]) -> io::Result<()> {
    let s = Session::start(caps, 0);
    println!(rt; "{title}")?;
    if s.outcome.refusal != 0 {
        return println!(rt; "  these capabilities are not legal");
    }
    print_rows(rt, s)?;
    // An address is the whole number: its low bits alone don't name a CSR.
    print_row(rt, s, 0x1300, 0x1300)?;
    print_row(rt, s, u64::MAX, u64::MAX)
}

fn main(rt: HostRuntime) -> io::Result<()> {
    walk(&rt, "with S and Sstc", boards::with_s_and_sstc())?;
    walk(&rt, "with S, without Sstc", boards::with_s())?;
    walk(&rt, "without S", boards::without_s())
}
