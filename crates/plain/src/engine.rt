// CSRs read and written by the rows of the table.
ghost use Rattle.std.specs.Prelude.{◌≡◌, option_copied};
ghost use Rattle.csr.specs.Access.{read_at, write_at};
ghost use Rattle.plain.specs.Engine.{first_at, asked_of};
ghost use Rattle.plain.specs.Inner.{stored_by, with_row, with_rows};
ghost use Rattle.plain.specs.Laws.{FitsAsked};
ghost use Rattle.plain.specs.Table.{table};

use crate::extensions::extensions;
use crate::row::{Asked, Row, Rule};
use crate::table::TABLE;
use crate::words::Source;
use csr::addresses::MSTATUS;
use csr::line::{is_line, raises_seip};
use csr::write::seip_change;
use hart::answer::{Answer, Effect, Refusal, Step};
use hart::caps::Caps;
use hart::record::{Hart, Host};

// Alone names the static: a function that does has to prove what its rows are.
#[tactic(auto, unfolding(crate::specs::Table::table))]
pub fn the_table() -> &'static [Row]
    ensures { result.now ≡ table }
{
    &TABLE
}

// The bit of mip that the interrupt controller raises.
const SEIP: u64 = 0x200;

// What the rows at an address give together, or-ed: whether one applies, what they show, what they
// take. An Option of the two words would be joined case by case; and `present` is a word, since the
// bytes behind a bool would be copied by words that lie anywhere.
#[derive(Clone, Copy, Default)]
pub struct Sum {
    pub present: u64,
    pub shows: u64,
    pub takes: u64,
}

impl Sum {
    // With what a row gives, if it is at the address.
    fn with(self, row: &Row, q: Asked, address: u64) -> Sum
        ensures { result ≡ with_row q address self row.now }
    {
        if row.is_at(address) {
            let applies = row.applies(q.has);
            Sum {
                present: self.present | bits::only(applies, 1),
                shows: self.shows | bits::only(applies, row.shows(q)),
                takes: self.takes | bits::only(applies, row.takes(q)),
            }
        } else {
            self
        }
    }
}

fn gather(q: Asked, address: u64) -> Sum
    ensures { result ≡ with_rows q address table }
{
    the_table()
        .iter()
        .fold(Sum::default(), |s, row| s.with(row, q, address))
}

// The first row at the address says where the register's word is.
fn first_at(address: u64) -> Option<&'static Row>
    ensures { option_copied result ≡ first_at address table }
{
    the_table().iter().find(|row| row.is_at(address))
}

fn asking(c: Caps, h: Hart, o: Host, source: Source, v: u64) -> Asked
    ensures is { result ≡ asked_of c h o source v }
    ensures fits { FitsAsked result }
{
    Asked {
        has: extensions(c),
        raised: bits::only(raises_seip(c, o), SEIP),
        interrupts: c.interrupts,
        highest: c.highest,
        mideleg: h.mideleg,
        menvcfg: h.menvcfg,
        old: source.word(c, h, o),
        value: v,
    }
}

// Of a view it is what mstatus takes of the value.
#[tactic(auto, using(crate::proofs::Rows::takes_sum))]
fn stored(q: Asked, rule: Rule, v: u64) -> u64
    ensures { result ≡ stored_by table q rule v }
{
    match rule {
        Rule::Sstatus => gather(Asked { value: v, ..q }, MSTATUS).takes,
        _ => v,
    }
}

#[tactic(auto, using(crate::proofs::Answered::read_none))]
pub fn read(c: Caps, h: Hart, o: Host, address: u64) -> Answer
    ensures { result ≡ read_at c h o address }
{
    let first = first_at(address).ok_or(Refusal::NoSuchCsr)?;
    let s = gather(asking(c, h, o, first.word, 0), address);
    if s.present == 0 {
        return Err(Refusal::CsrAbsent);
    }
    if !is_line(o.line) {
        return Err(Refusal::BadLine);
    }
    Ok((s.shows, Effect::Nothing))
}

#[tactic(auto, using(crate::proofs::Answered::write_none))]
pub fn write(c: Caps, h: Hart, address: u64, v: u64) -> Step
    ensures { result ≡ write_at c h address v }
{
    let Some(first) = first_at(address) else {
        return Step::refused(h, Refusal::NoSuchCsr);
    };
    let q = asking(c, h, Host::QUIET, first.word, v);
    let s = gather(q, address);
    if s.present == 0 {
        return Step::refused(h, Refusal::CsrAbsent);
    }
    let next = first.word.put(h, stored(q, first.rule, s.takes));
    Step {
        hart: next,
        answer: Ok((0, seip_change(h.mip, next.mip))),
    }
}
