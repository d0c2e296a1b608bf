// The tally: the lines and calls so far, what is told of one, and the counts at the end.
use comparison::Difference;
use session::entries::Entry;
use std::{fmt, io};

// How many of the calls that differ are told.
const MOST_TOLD: u64 = 10;

const ENTRIES: usize = Entry::ALL.len();

#[derive(Default, Drop)]
pub struct Tally {
    line: u64,
    calls: u64,
    // In the order of Entry::ALL.
    calls_of: [u64; ENTRIES],
    listed: u64,
    differ: u64,
    bad: u64,
}

fn count(n: &mut u64) {
    *n = n.saturating_add(1);
}

impl Tally {
    pub fn count_line(&mut self) {
        count(&mut self.line);
    }

    pub fn count_call(&mut self, entry: Entry, has_listed: bool) {
        count(&mut self.calls);
        count(&mut self.calls_of[entry as usize]);
        if has_listed {
            count(&mut self.listed);
        }
    }

    pub fn tell_bad_line(&mut self, rt: &impl Print) -> io::Result<()> {
        println!(rt; "line {}: not a line of the format", self.line)?;
        count(&mut self.bad);
        Ok(())
    }

    pub fn tell_compared(
        &mut self,
        rt: &impl Print,
        entry: Entry,
        compared: Result<(), Difference>,
    ) -> io::Result<()> {
        if let Err(difference) = compared {
            if self.differ < MOST_TOLD {
                println!(rt; "line {}: {entry}: {difference}", self.line)?;
            }
            count(&mut self.differ);
        }
        Ok(())
    }
}

impl fmt::Display for Tally {
    fn fmt<W: fmt::Write>(&self, f: &mut fmt::Formatter<W>) -> fmt::Result {
        for (entry, n) in Entry::ALL.iter().zip(&self.calls_of) {
            writeln!(f, "{entry:7} {n:5}")?;
        }
        write!(
            f,
            "{} calls, in {} of which bits differ as listed; ",
            self.calls, self.listed
        )?;
        write!(f, "{} differ, {} bad lines", self.differ, self.bad)
    }
}
