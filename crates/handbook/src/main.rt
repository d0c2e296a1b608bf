// Writes the table of the plain engine for people: a line for each row, with the names of
// registers, words and fields as the manual has them. docs/REGISTERS.md holds these lines.
#![tactic(auto)]

mod fields;
mod joined;

use csr::names::Names;
use fields::{Forced, Kept};
use joined::write_joined;
use plain::engine::the_table;
use plain::extensions;
use std::{fmt, io};

// The first and the last address.
#[derive(Clone, Copy)]
struct Addresses(u64, u64);

impl fmt::Display for Addresses {
    fn fmt<W: fmt::Write>(&self, f: &mut fmt::Formatter<W>) -> fmt::Result {
        let Addresses(first, last) = *self;
        write!(f, "{first:03X}")?;
        if first != last {
            write!(f, "-{last:03X}")?;
        }
        Ok(())
    }
}

// Each extension and its name.
static NAMES: [(u64, &'static str); 9] = [
    (extensions::S, "S"),
    (extensions::C, "C"),
    (extensions::F, "F"),
    (extensions::V, "V"),
    (extensions::NO_ZFINX, "no-Zfinx"),
    (extensions::SSTC, "Sstc"),
    (extensions::ZICBOM, "Zicbom"),
    (extensions::ZICBOZ, "Zicboz"),
    (extensions::SVPBMT, "Svpbmt"),
];

// A function of its own: where the constant is named, the check would read each name in it.
fn named_extensions() -> &'static [(u64, &'static str)] {
    &NAMES
}

// The set that a row asks for.
#[derive(Clone, Copy)]
struct Extensions(u64);

impl fmt::Display for Extensions {
    fn fmt<W: fmt::Write>(&self, f: &mut fmt::Formatter<W>) -> fmt::Result {
        if self.0 == extensions::ANY {
            return f.write_str("any");
        }
        let asked = named_extensions()
            .iter()
            .filter(|(extension, _)| self.0 & extension != 0);
        write_joined(f, asked.map(|(_, name)| *name))
    }
}

fn main(rt: HostRuntime) -> io::Result<()> {
    println!(rt; "| address | register | word | on harts with | kept | forced | rule |")?;
    println!(rt; "|---|---|---|---|---|---|---|")?;
    for row in the_table() {
        println!(rt;
            "| {} | {} | {} | {} | {} | {} | {} |",
            Addresses(row.first, row.last),
            Names {
                first: row.first,
                last: row.last
            },
            row.word,
            Extensions(row.extensions),
            Kept(row.word, row.kept),
            Forced(row.word, row.forced),
            row.rule,
        )?;
    }
    Ok(())
}
