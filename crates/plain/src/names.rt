// The names of words and of rules, as the table is written for people.
use crate::row::Rule;
use crate::words::Source::{self, Record};
use std::fmt;

impl fmt::Display for Source {
    fn fmt<W: fmt::Write>(&self, f: &mut fmt::Formatter<W>) -> fmt::Result {
        let name = match *self {
            Record(word) => return word.fmt(f),
            Source::Misa => "misa",
            Source::Interrupts => "interrupts",
            Source::Highest => "highest",
            Source::Flags => "flags",
            Source::Mhartid => "mhartid",
            Source::Mvendorid => "mvendorid",
            Source::Marchid => "marchid",
            Source::Mimpid => "mimpid",
            Source::Mconfigptr => "mconfigptr",
            Source::Time => "time",
            Source::Seed => "seed",
            Source::Zero => "0",
        };
        f.pad(name)
    }
}

impl fmt::Display for Rule {
    fn fmt<W: fmt::Write>(&self, f: &mut fmt::Formatter<W>) -> fmt::Result {
        f.pad(match *self {
            Rule::Copied => "copied",
            Rule::Mpp => "mpp",
            Rule::Cbie => "cbie",
            Rule::Dirty => "dirty",
            Rule::Interrupts => "interrupts",
            Rule::Tvec => "tvec",
            Rule::Epc => "epc",
            Rule::Translation => "translation",
            Rule::Pending => "pending",
            Rule::Sstatus => "sstatus",
            Rule::Sie => "sie",
            Rule::Sip => "sip",
            Rule::Inverted => "inverted",
            Rule::ReadOnly => "read-only",
        })
    }
}
