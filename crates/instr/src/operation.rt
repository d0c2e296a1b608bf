// The three operations on a CSR: what they write, and when they don't.
ghost use Rattle.std.specs.Prelude.{◌≡◌};
ghost use Rattle.instr.specs.Instructions.{is_written, written};

#[derive(Clone, Copy, Debug, PartialEq, Eq)]
pub enum Op {
    Csrrw,
    Csrrs,
    Csrrc,
}

impl Op {
    // `field` is the instruction's: the number of rs1, or the immediate.
    pub fn writes(self, field: u64) -> bool
        ensures { result ≡ is_written self field }
    {
        match self {
            Op::Csrrw => true,
            Op::Csrrs | Op::Csrrc => field != 0,
        }
    }

    // What is written, of the old value and the operand.
    pub fn value(self, old: u64, operand: u64) -> u64
        ensures { result ≡ written self old operand }
    {
        match self {
            Op::Csrrw => operand,
            Op::Csrrs => old | operand,
            Op::Csrrc => old & !operand,
        }
    }
}
