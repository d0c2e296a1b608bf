// A session with the entries: a board's image, a hart's image, and what the last call gave.
#![tactic(auto)]

ghost use Rattle.std.specs.Prelude.{◌≡◌};
ghost use Rattle.tally.specs.Totals.{tally_of};

use explain::listing::Listing;
use hart::answer::Refusal;
use hart::record::{Host, Word};
use lent::images::{get_x, offset_of, put_word};
pub use lent::images::{CAPS_BYTES, CAPS_WORDS, HART_BYTES};
use lent::outcome::Outcome;
use std::io;
use tally::totals::Totals;
use trap::context::TrapInfo;

pub mod boards;
pub mod entries;

#[derive(Clone, Copy)]
pub struct Session {
    pub caps: [u8; CAPS_BYTES],
    pub hart: [u8; HART_BYTES],
    pub outcome: Outcome,
}

impl Session {
    pub fn empty() -> Session {
        Session {
            caps: [0; CAPS_BYTES],
            hart: [0; HART_BYTES],
            outcome: Outcome::default(),
        }
    }

    // On a board, with a fresh hart.
    pub fn start(caps: [u8; CAPS_BYTES], pc: u64) -> Session {
        let empty = Session {
            caps,
            ..Session::empty()
        };
        empty.fresh(pc)
    }

    pub fn fresh(mut self, pc: u64) -> Session {
        self.outcome = vhart::vhart_fresh(&self.caps, &mut self.hart, pc);
        self
    }

    pub fn read(mut self, address: u64, host: Host) -> Session {
        let Host { time, seed, line } = host;
        self.outcome = vhart::vhart_read(&self.caps, &self.hart, address, time, seed, line);
        self
    }

    pub fn write(mut self, address: u64, value: u64) -> Session {
        self.outcome = vhart::vhart_write(&self.caps, &mut self.hart, address, value);
        self
    }

    pub fn pending(mut self) -> Session {
        self.outcome = vhart::vhart_pending(&self.caps, &self.hart);
        self
    }

    pub fn inject(mut self, number: u64) -> Session {
        self.outcome = vhart::vhart_inject(&self.caps, &mut self.hart, number);
        self
    }

    pub fn trap(mut self, info: TrapInfo) -> Session {
        let TrapInfo {
            mcause,
            mtval,
            mepc,
            mip,
            mstatus,
        } = info;
        self.outcome = vhart::vhart_trap(
            &self.caps,
            &mut self.hart,
            mcause,
            mtval,
            mepc,
            mip,
            mstatus,
        );
        self
    }

    pub fn mret(mut self) -> Session {
        self.outcome = vhart::vhart_mret(&self.caps, &mut self.hart);
        self
    }

    pub fn sret(mut self) -> Session {
        self.outcome = vhart::vhart_sret(&self.caps, &mut self.hart);
        self
    }

    pub fn explain(self, address: u64, value: u64, host: Host) -> Listing {
        vhart::vhart_explain(&self.caps, &self.hart, address, value, host.time, host.seed)
    }

    // Adds what the write loses to the totals.
    pub fn tally(self, address: u64, value: u64, host: Host, totals: &mut Totals) -> Outcome
        ensures { (result, totals.new) ≡ tally_of host.time host.seed address value self.caps self.hart totals.old }
    {
        vhart::vhart_tally(
            &self.caps, &self.hart, address, value, host.time, host.seed, totals,
        )
    }

    // The record, as the entries judge it.
    pub fn is_legal(self) -> bool {
        self.pending().outcome.refusal != u64::from(Refusal::BadHart)
    }

    pub fn get(self, w: Word) -> u64 {
        image::word(&self.hart, offset_of(w))
    }

    pub fn with(mut self, w: Word, v: u64) -> Session {
        put_word(&mut self.hart, w, v);
        self
    }

    // The text, and the word behind it.
    pub fn tell(self, rt: &impl Print, t: &[u8], w: Word) -> io::Result<()> {
        rt.write_all(t)?;
        print!(rt; "{:#x}", self.get(w))
    }

    pub fn get_x(self, i: u64) -> u64 {
        get_x(&self.hart, i)
    }

    // x0 too, for a record that isn't legal. There is none from x32 on.
    pub fn with_x(mut self, i: u64, v: u64) -> Session {
        if i < 32 {
            image::set_word(&mut self.hart, 8 * i as usize, v);
        }
        self
    }
}
