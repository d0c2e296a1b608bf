// A call log, replayed: what each entry gave, and that it makes no difference where the log is
// cut.
#![tactic(auto)]

use csr::address::csr_at;
use csr::addresses::{MCAUSE, MIP, MTVEC};
use hart::answer::Effect;
use lent::outcome::Outcome;
use replay::log::{ENTRY_BYTES, Kind};
use session::{CAPS_BYTES, HART_BYTES, Session, boards};
use std::{fmt, io};

const ENTRIES: usize = 11;

const LOG_BYTES: usize = ENTRIES * ENTRY_BYTES;

// An outcome has C's numbers: so effects are matched as numbers here.
const SET_SEIP: u64 = Effect::SetSeip as u64;

const CLEAR_SEIP: u64 = Effect::ClearSeip as u64;

// An entry of the log by its kind and its two numbers, or one of no kind that there is: no Result,
// since the log has that number as a word too.
#[derive(Clone, Copy)]
enum Call {
    Of(Kind, u64, u64),
    Unknown(u64),
}

impl Call {
    fn words(self) -> [u64; 3] {
        match self {
            Call::Of(kind, first, second) => [kind.into(), first, second],
            Call::Unknown(kind) => [kind, 0, 0],
        }
    }
}

// The firmware sets its handler up, takes the timer's interrupt, and returns; between them stand
// entries that are refused. The last return is made in U.
const LOG: [Call; ENTRIES] = [
    Call::Of(Kind::Write, MTVEC, 0x8000_0101),
    Call::Of(Kind::Inject, 7, 0),
    Call::Of(Kind::Read, MCAUSE, 0),
    Call::Of(Kind::Read, 0x399, 0),
    Call::Of(Kind::Read, MCAUSE, 1),
    Call::Of(Kind::Write, MIP, 0x200),
    Call::Of(Kind::Write, MIP, 0),
    Call::Unknown(5),
    Call::Of(Kind::Mret, 0, 0),
    Call::Of(Kind::Sret, 0, 0),
    Call::Of(Kind::Mret, 0, 0),
];

// A CSR's name, or the address where there is none.
#[derive(Clone, Copy)]
struct Name(u64);

impl fmt::Display for Name {
    fn fmt<W: fmt::Write>(&self, f: &mut fmt::Formatter<W>) -> fmt::Result {
        let address = self.0;
        match csr_at(address) {
            Some(csr) => write!(f, "{csr}"),
            None => write!(f, "{address:#x}"),
        }
    }
}

impl fmt::Display for Call {
    fn fmt<W: fmt::Write>(&self, f: &mut fmt::Formatter<W>) -> fmt::Result {
        let (kind, first, second) = match *self {
            Call::Of(kind, first, second) => (kind, first, second),
            Call::Unknown(kind) => return write!(f, "kind {kind}"),
        };
        match kind {
            Kind::Read => write!(f, "read {}", Name(first))?,
            Kind::Write => write!(f, "write {}", Name(first))?,
            Kind::Inject => write!(f, "inject {first}")?,
            Kind::Mret => f.write_str("mret")?,
            Kind::Sret => f.write_str("sret")?,
        }
        if second != 0 {
            write!(f, " {second:#x}")?;
        }
        Ok(())
    }
}

// A log that is being replayed: the hart, the waiting bytes, and what each entry gave that is whole
// by now.
#[derive(PartialEq, Drop)]
struct Replay {
    caps: [u8; CAPS_BYTES],
    hart: [u8; HART_BYTES],
    wait: [u8; ENTRY_BYTES],
    given: [Option<Outcome>; ENTRIES],
    refusal: u64,
}

impl Replay {
    fn start() -> Replay {
        let Session { caps, hart, .. } = Session::start(boards::with_s(), 0x8000_0000);
        Replay {
            caps,
            hart,
            wait: [0; ENTRY_BYTES],
            given: [None; ENTRIES],
            refusal: 0,
        }
    }

    // The next fragment.
    fn take(&mut self, fragment: &[u8]) {
        let mut out = [0u8; LOG_BYTES];
        let outcome = vhart::vhart_replay(
            &self.caps,
            &mut self.hart,
            &mut self.wait,
            fragment,
            &mut out,
        );
        let (entries, _) = out.as_chunks::<ENTRY_BYTES>();
        let free = self.given.iter_mut().filter(|given| given.is_none());
        for (given, words) in free.zip(entries.iter().take(outcome.answer as usize)) {
            *given = Some(Outcome {
                answer: image::word(words, 0),
                effect: image::word(words, 8),
                refusal: image::word(words, 16),
            });
        }
        self.refusal = outcome.refusal;
    }

    fn end(&self) -> Outcome {
        vhart::vhart_replay_end(&self.caps, &self.hart, &self.wait)
    }
}

fn show(rt: &impl Print, call: Call, given: &Outcome) -> io::Result<()> {
    print!(rt; "{call}: ")?;
    let Outcome {
        answer,
        effect,
        refusal,
    } = *given;
    match (refusal, call, effect) {
        (0, Call::Of(Kind::Read, ..), _) => println!(rt; "{answer:#x}"),
        (0, _, SET_SEIP) => println!(rt; "done, set SEIP"),
        (0, _, CLEAR_SEIP) => println!(rt; "done, clear SEIP"),
        (0, _, _) => println!(rt; "done"),
        _ => println!(rt; "refused {refusal}"),
    }
}

// Cuts the log in two before and behind each byte of its second entry: how often the halves give
// what the whole gives, and how often the log may end there.
fn cut(rt: &impl Print, log: &[u8; LOG_BYTES], whole: &Replay) -> io::Result<()> {
    let mut same = 0u64;
    let mut ends = 0u64;
    for at in ENTRY_BYTES..=2 * ENTRY_BYTES {
        let (first, second) = log.split_at(at);
        let mut halves = Replay::start();
        halves.take(first);
        if halves.end().refusal == 0 {
            ends = ends.saturating_add(1);
        }
        halves.take(second);
        if halves == *whole {
            same = same.saturating_add(1);
        }
    }
    println!(rt; "cut in two at 25 places: the same at {same}, and the log may end at {ends}")
}

fn main(rt: HostRuntime) -> io::Result<()> {
    let words = LOG.map(Call::words);
    let mut log = [0u8; LOG_BYTES];
    image::store(&mut log, 0, words.as_flattened());
    let mut whole = Replay::start();
    whole.take(&log);
    for (call, given) in LOG.into_iter().zip(whole.given.iter().flatten()) {
        show(&rt, call, given)?;
    }
    println!(rt;
        "completed {}, refusal {}",
        whole.given.iter().flatten().count(),
        whole.refusal
    )?;
    cut(&rt, &log, &whole)
}
