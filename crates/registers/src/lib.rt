// A CSR read and written where the record lies, alone and by an instruction: one word is stored,
// and rd. What is done is told by the CSR's row of the table: a processor then has no jump to
// guess, but for the writes that have a rule. The two images are lent side by side and not in a
// struct: a call changes the record alone, and its contract speaks of the two apart.
#![tactic(auto)]

ghost use Rattle.std.specs.Prelude.{◌≡◌, true, cond, Some, Result};
ghost use Rattle.csr.specs.Address.{address_of, csr_at};
ghost use Rattle.csr.specs.Line.{raises_seip, line_down};
ghost use Rattle.csr.specs.Access.{read_of, stored_of, left_by, read_at, apply, write_at};
ghost use Rattle.csr.specs.Inner.{shown_at};
ghost use Rattle.instr.specs.Instructions.{accepted_of, emulated};
ghost use Rattle.lent.specs.Images.{caps_at, hart_at};
ghost use Rattle.registers.specs.Inner.{changed_to, told};
ghost use Rattle.registers.specs.Operand.{operand_of};
ghost use Rattle.image.specs.Word.{word_at};
ghost use Rattle.registers.specs.Table.{row_of, place_at, is_word, word_in, left_in};

use crate::table::{Kind, MIP, RECORD, Row, row_of};
use csr::address::Csr;
use csr::line::is_line;
use csr::lookup::Found;
use csr::read::shown;
use csr::write::seip_change;
use hart::answer::{Answer, Effect, Refusal};
use hart::modes::Mode;
use hart::record::Host;
use instr::operation::Op;
use lent::images::{CAPS_BYTES, HART_BYTES, caps_at, get_x, hart_at, set_x};

mod table;

// The word of this number, of the capabilities or of the record.
fn word_in(caps: &[u8; CAPS_BYTES], hart: &[u8; HART_BYTES], n: u8) -> u64
    requires word { is_word n ≡ true }
    ensures { result ≡ word_in caps.now hart.now n }
{
    if n < RECORD {
        image::word(caps, 8 * n as usize)
    } else {
        image::word(hart, 8 * n as usize)
    }
}

// The old value of the CSR: what it reads with the controller's line down. It is chosen without a
// branch, but for sie and sip. `csr::read::get` has the same of a record by value, for explain: by
// its `match` a processor has a jump to guess.
fn value_of(caps: &[u8; CAPS_BYTES], hart: &[u8; HART_BYTES], o: Host, csr: Csr) -> u64
    ensures { result ≡ read_of (caps_at caps.now) (hart_at hart.now) (line_down o) csr }
{
    let Row {
        word,
        kind,
        shown,
        ..
    } = row_of(csr);
    let shown = bits::keep(word_in(caps, hart, word), shown);
    let timed = bits::select(kind == Kind::Time, o.time, shown);
    let seeded = bits::select(kind == Kind::Seed, o.seed, timed);
    let turned = bits::select(
        kind == Kind::Complement,
        rules::config::read_tselect(seeded),
        seeded,
    );
    if kind == Kind::Delegated {
        let h = hart_at(hart);
        rules::interrupts::read_delegated(turned, h.mideleg)
    } else {
        turned
    }
}

// What it shows with the line as it is, at this address.
fn shown_of(
    caps: &[u8; CAPS_BYTES],
    hart: &[u8; HART_BYTES],
    o: Host,
    address: u64,
    csr: Csr,
    old: u64,
) -> u64
    requires found { csr_at address ≡ Some csr }
    ensures { result ≡ shown_at (raises_seip (caps_at caps.now) o) (hart_at hart.now) address old }
{
    if row_of(csr).word == MIP {
        shown(caps_at(caps), hart_at(hart), o, address, old)
    } else {
        old
    }
}

// What the bits that the CSR's row takes leave of its old word and the value.
fn taken_of(csr: Csr, old: u64, v: u64) -> u64
    ensures { result ≡ left_in old v (row_of csr).taken }
{
    let taken = row_of(csr).taken;
    bits::select(taken == 0, old, bits::keep(v, taken))
}

// What a write of v to the CSR leaves where its word stands, which is `old`: by its rule, or by the
// bits that its row takes. `csr::write::stored` has the rules once more, of a record by value, for
// explain. A write by those is slower: the compiler keeps their words since the test of the images.
#[tactic(auto, unfolding(csr::specs::Access::stored_of, lent::specs::Images::hart_at))]
fn left_of(caps: &[u8; CAPS_BYTES], hart: &[u8; HART_BYTES], csr: Csr, old: u64, v: u64) -> u64
    requires { old ≡ word_at hart.now (place_at csr) }
    ensures { result ≡ left_by (stored_of (caps_at caps.now) (hart_at hart.now) csr v) old }
{
    let c = caps_at(caps);
    let h = hart_at(hart);
    match csr {
        Csr::Mstatus => c.legalize_mstatus(v),
        Csr::Mideleg => rules::interrupts::legalize_mideleg(v, c.interrupts),
        Csr::Mie => rules::interrupts::legalize_mie(v, c.interrupts),
        Csr::Mtvec => rules::addresses::write_tvec(old, v),
        Csr::Menvcfg => c.legalize_menvcfg(v),
        Csr::Mepc => c.write_epc(old, v),
        Csr::Mip => rules::interrupts::write_mip(old, v, c.interrupts, h.menvcfg),
        Csr::Sstatus => c.write_sstatus(old, v),
        Csr::Sie => rules::interrupts::write_sie(old, v, h.mideleg),
        Csr::Stvec => rules::addresses::write_tvec(old, v),
        Csr::Senvcfg => c.legalize_senvcfg(v),
        Csr::Sepc => c.write_epc(old, v),
        Csr::Sip => rules::interrupts::write_sip(old, v),
        Csr::Satp => rules::addresses::write_satp(old, v),
        _ => taken_of(csr, old, v),
    }
}

// Writes v to the CSR, or stores its word as it stands: so no branch hangs on whether it writes.
// Only a change of mip asks for anything.
fn commit(
    writes: bool,
    caps: &[u8; CAPS_BYTES],
    hart: &mut [u8; HART_BYTES],
    csr: Csr,
    v: u64,
) -> Effect
    ensures { (result, hart_at hart.new) ≡ changed_to (hart_at hart.old) (cond writes (apply (stored_of (caps_at caps.now) (hart_at hart.old) csr v) (hart_at hart.old)) (hart_at hart.old)) }
{
    let n = row_of(csr).word;
    let old = image::word(hart, 8 * n as usize);
    let left = left_of(caps, hart, csr, old, v);
    let new = bits::select(writes, left, old);
    image::set_word(hart, 8 * n as usize, new);
    if n == MIP {
        seip_change(old, new)
    } else {
        Effect::Nothing
    }
}

pub fn read(caps: &[u8; CAPS_BYTES], hart: &[u8; HART_BYTES], o: Host, found: Found) -> Answer
    ensures { result ≡ read_at (caps_at caps.now) (hart_at hart.now) o found.address }
{
    let csr = found.on(caps_at(caps))?;
    if !is_line(o.line) {
        return Err(Refusal::BadLine);
    }
    let old = value_of(caps, hart, o, csr);
    let v = shown_of(caps, hart, o, found.address, csr, old);
    Ok((v, Effect::Nothing))
}

#[tactic(auto, unfolding(crate::specs::Inner::told))]
pub fn write(caps: &[u8; CAPS_BYTES], hart: &mut [u8; HART_BYTES], found: Found, v: u64) -> Answer
    ensures { (result, hart_at hart.new) ≡ told (write_at (caps_at caps.now) (hart_at hart.old) found.address v) }
{
    let csr = found.on(caps_at(caps))?;
    let effect = commit(true, caps, hart, csr, v);
    Ok((0, effect))
}

// What the last field of an instruction is: the number of rs1, which holds the operand, or the
// operand itself.
#[derive(Clone, Copy, Debug, PartialEq, Eq)]
pub enum Form {
    Register,
    Immediate,
}

impl Form {
    pub fn operand(self, hart: &[u8; HART_BYTES], field: u64) -> u64
        ensures { result ≡ operand_of self (hart_at hart.now) field }
    {
        match self {
            Form::Register => get_x(hart, field),
            Form::Immediate => field,
        }
    }
}

// The CSR that an instruction is on. An absent CSR is refused before a bad operand, that before the
// mode, and that before a bad line.
fn accepted(
    caps: &[u8; CAPS_BYTES],
    hart: &[u8; HART_BYTES],
    found: Found,
    rd: u64,
    field: u64,
    line: u64,
) -> Result<Csr, Refusal>
    ensures { result ≡ accepted_of (caps_at caps.now) (hart_at hart.now).mode found.address rd field line }
{
    let csr = found.on(caps_at(caps))?;
    if (rd > 31) | (field > 31) {
        return Err(Refusal::BadOperand);
    }
    let h = hart_at(hart);
    if h.mode != Mode::M {
        return Err(Refusal::NotMachine);
    }
    if !is_line(line) {
        return Err(Refusal::BadLine);
    }
    Ok(csr)
}

#[tactic(auto, unfolding(crate::specs::Inner::told))]
pub fn emulate(
    op: Op,
    caps: &[u8; CAPS_BYTES],
    hart: &mut [u8; HART_BYTES],
    o: Host,
    found: Found,
    rd: u64,
    field: u64,
    operand: u64,
) -> Answer
    ensures { (result, hart_at hart.new) ≡ told (emulated op (caps_at caps.now) (hart_at hart.old) o found.address rd field operand) }
{
    let csr = accepted(caps, hart, found, rd, field, o.line)?;
    let old = value_of(caps, hart, o, csr);
    let v = shown_of(caps, hart, o, found.address, csr, old);
    let effect = commit(op.writes(field), caps, hart, csr, op.value(old, operand));
    set_x(hart, rd, v);
    Ok((v, effect))
}
