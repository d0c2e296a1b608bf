// The calls on a record, by their names and in the order of include/vhart.h: how many numbers
// each takes, and a call of it with numbers.
ghost use Rattle.std.specs.Prelude.{◌≡◌, ◌≤◌};
ghost use Rattle.session.specs.Entries.{entry_numbered};

use crate::Session;
use hart::record::Host;
use lent::outcome::Outcome;
use std::fmt;
use std::str::FromStr;
use trap::context::TrapInfo;

#[derive(Clone, Copy, Debug, PartialEq, Eq)]
pub enum Entry {
    Fresh,
    Read,
    Write,
    Csrrw,
    Csrrs,
    Csrrc,
    Csrrwi,
    Csrrsi,
    Csrrci,
    Pending,
    Inject,
    Trap,
    Mret,
    Sret,
}

impl Entry {
    pub const ALL: [Entry; 14] = [
        Entry::Fresh,
        Entry::Read,
        Entry::Write,
        Entry::Csrrw,
        Entry::Csrrs,
        Entry::Csrrc,
        Entry::Csrrwi,
        Entry::Csrrsi,
        Entry::Csrrci,
        Entry::Pending,
        Entry::Inject,
        Entry::Trap,
        Entry::Mret,
        Entry::Sret,
    ];

    pub fn name(self) -> &'static str {
        match self {
            Entry::Fresh => "fresh",
            Entry::Read => "read",
            Entry::Write => "write",
            Entry::Csrrw => "csrrw",
            Entry::Csrrs => "csrrs",
            Entry::Csrrc => "csrrc",
            Entry::Csrrwi => "csrrwi",
            Entry::Csrrsi => "csrrsi",
            Entry::Csrrci => "csrrci",
            Entry::Pending => "pending",
            Entry::Inject => "inject",
            Entry::Trap => "trap",
            Entry::Mret => "mret",
            Entry::Sret => "sret",
        }
    }

    // Of any bytes, since a name may come out of a text that is no UTF-8.
    pub fn named(name: &[u8]) -> Option<Entry> {
        let mut all = Entry::ALL.into_iter();
        all.find(|entry| entry.name().as_bytes() == name)
    }

    // How many numbers a call takes; none takes more than six.
    pub fn takes(self) -> usize
        ensures { result ≤ 6 }
    {
        match self {
            Entry::Pending | Entry::Mret | Entry::Sret => 0,
            Entry::Fresh | Entry::Inject => 1,
            Entry::Write => 2,
            Entry::Read => 4,
            Entry::Trap => 5,
            Entry::Csrrw
            | Entry::Csrrs
            | Entry::Csrrc
            | Entry::Csrrwi
            | Entry::Csrrsi
            | Entry::Csrrci => 6,
        }
    }
}

// For a caller that has numbers: any number but these is csrrci's.
impl From<usize> for Entry {
    ghost from_gives = { λ n entry. entry ≡ entry_numbered n };

    fn from(n: usize) -> Entry {
        match n {
            0 => Entry::Fresh,
            1 => Entry::Read,
            2 => Entry::Write,
            3 => Entry::Csrrw,
            4 => Entry::Csrrs,
            5 => Entry::Csrrc,
            6 => Entry::Csrrwi,
            7 => Entry::Csrrsi,
            9 => Entry::Pending,
            10 => Entry::Inject,
            11 => Entry::Trap,
            12 => Entry::Mret,
            13 => Entry::Sret,
            _ => Entry::Csrrci,
        }
    }
}

// A list, and no type for each entry, since a stored call is a name and a list of numbers.
pub type Numbers = [u64; 6];

// The error of a text that isn't an entry's name.
#[derive(Clone, Copy, Debug, PartialEq, Eq)]
pub struct NoEntry;

impl FromStr for Entry {
    type Err = NoEntry;

    fn from_str(name: &str) -> Result<Entry, NoEntry> {
        Entry::named(name.as_bytes()).ok_or(NoEntry)
    }
}

impl fmt::Display for Entry {
    fn fmt<W: fmt::Write>(&self, f: &mut fmt::Formatter<W>) -> fmt::Result {
        f.pad(self.name())
    }
}

impl Session {
    // A call with the first of these numbers, as many as the entry takes.
    pub fn call(self, entry: Entry, numbers: Numbers) -> Session {
        match entry {
            Entry::Fresh => self.fresh(numbers[0]),
            Entry::Read => {
                let [address, time, seed, line, ..] = numbers;
                self.read(address, Host { time, seed, line })
            }
            Entry::Write => self.write(numbers[0], numbers[1]),
            Entry::Csrrw => self.instruction(vhart::vhart_csrrw, numbers),
            Entry::Csrrs => self.instruction(vhart::vhart_csrrs, numbers),
            Entry::Csrrc => self.instruction(vhart::vhart_csrrc, numbers),
            Entry::Csrrwi => self.instruction(vhart::vhart_csrrwi, numbers),
            Entry::Csrrsi => self.instruction(vhart::vhart_csrrsi, numbers),
            Entry::Csrrci => self.instruction(vhart::vhart_csrrci, numbers),
            Entry::Pending => self.pending(),
            Entry::Inject => self.inject(numbers[0]),
            Entry::Trap => {
                let [mcause, mtval, mepc, mip, mstatus, _] = numbers;
                self.trap(TrapInfo {
                    mcause,
                    mtval,
                    mepc,
                    mip,
                    mstatus,
                })
            }
            Entry::Mret => self.mret(),
            Entry::Sret => self.sret(),
        }
    }

    // The third number is that of rs1, or the immediate.
    fn instruction<F>(mut self, entry: F, numbers: Numbers) -> Session
    where
        F: FnOnce(&[u8], &mut [u8], u64, u64, u64, u64, u64, u64) -> Outcome,
        requires { F.IsAlwaysCallable entry }
    {
        let [address, rd, field, time, seed, line] = numbers;
        self.outcome = entry(
            &self.caps,
            &mut self.hart,
            address,
            rd,
            field,
            time,
            seed,
            line,
        );
        self
    }
}
