// The twenty-four entries, which vhart_c has once more for C. Fourteen are one call each on what
// was lent: bytes and numbers in, an outcome and the bytes of the hart image out. The instructions
// are six of them, and not one with a form and an operation: C has a name for each. The two checks
// say which word of an image is at fault; two read and write a board's settings file. Two are the
// read and the write once more, by the plain engine: their contracts are those of vhart_read and
// vhart_write. One explains which bits a write loses, and one adds these to totals. The last two
// replay a call log.
#![tactic(auto)]

ghost use Rattle.std.specs.Prelude.{◌≡◌};
ghost use Rattle.instr.specs.declared.operation.Op.TheVariants.{Csrrw, Csrrs, Csrrc};
ghost use Rattle.registers.specs.declared.Form.TheVariants.{Register, Immediate};
ghost use Rattle.calls.specs.Calls.{Fresh, Read, Write, Instruction, Pending, Take, host_of, trap_info_of};
ghost use Rattle.calls.specs.Entries.{entry_of};
ghost use Rattle.explain.specs.Explain.{explain_of};
ghost use Rattle.fault.specs.Fault.{checked_caps, checked_hart};
ghost use Rattle.replay.specs.Replay.{replay_of, end_of};
ghost use Rattle.settings.specs.Settings.{settings_read, settings_write};
ghost use Rattle.tally.specs.Totals.{tally_of};
ghost use Rattle.calls.specs.declared.steps.Taken.TheVariants.{Inject, Trap, Mret, Sret};

use calls::entries;
use calls::steps::Taken;
use explain::listing::Listing;
use fault::check;
use fault::fault::Fault;
use hart::record::Host;
use instr::operation::Op;
use lent::outcome::Outcome;
use registers::Form;
use settings::Settings;
use tally::totals::Totals;
use trap::context::TrapInfo;

pub fn vhart_fresh(caps: &[u8], hart: &mut [u8], pc: u64) -> Outcome
    ensures { (result, hart.new) ≡ entry_of (Fresh pc) caps.now hart.old }
{
    entries::fresh(caps, hart, pc).into()
}

pub fn vhart_read(
    caps: &[u8],
    hart: &[u8],
    address: u64,
    time: u64,
    seed: u64,
    line: u64,
) -> Outcome
    ensures { (result, hart.now) ≡ entry_of (Read (host_of time seed line) address) caps.now hart.now }
{
    entries::read(caps, hart, Host { time, seed, line }, address).into()
}

pub fn vhart_write(caps: &[u8], hart: &mut [u8], address: u64, value: u64) -> Outcome
    ensures { (result, hart.new) ≡ entry_of (Write address value) caps.now hart.old }
{
    entries::write(caps, hart, address, value).into()
}

pub fn vhart_csrrw(
    caps: &[u8],
    hart: &mut [u8],
    address: u64,
    rd: u64,
    rs1: u64,
    time: u64,
    seed: u64,
    line: u64,
) -> Outcome
    ensures { (result, hart.new) ≡ entry_of (Instruction Register Csrrw (host_of time seed line) address rd rs1) caps.now hart.old }
{
    entries::instruction(
        Form::Register,
        Op::Csrrw,
        caps,
        hart,
        Host { time, seed, line },
        address,
        rd,
        rs1,
    )
    .into()
}

pub fn vhart_csrrs(
    caps: &[u8],
    hart: &mut [u8],
    address: u64,
    rd: u64,
    rs1: u64,
    time: u64,
    seed: u64,
    line: u64,
) -> Outcome
    ensures { (result, hart.new) ≡ entry_of (Instruction Register Csrrs (host_of time seed line) address rd rs1) caps.now hart.old }
{
    entries::instruction(
        Form::Register,
        Op::Csrrs,
        caps,
        hart,
        Host { time, seed, line },
        address,
        rd,
        rs1,
    )
    .into()
}

pub fn vhart_csrrc(
    caps: &[u8],
    hart: &mut [u8],
    address: u64,
    rd: u64,
    rs1: u64,
    time: u64,
    seed: u64,
    line: u64,
) -> Outcome
    ensures { (result, hart.new) ≡ entry_of (Instruction Register Csrrc (host_of time seed line) address rd rs1) caps.now hart.old }
{
    entries::instruction(
        Form::Register,
        Op::Csrrc,
        caps,
        hart,
        Host { time, seed, line },
        address,
        rd,
        rs1,
    )
    .into()
}

pub fn vhart_csrrwi(
    caps: &[u8],
    hart: &mut [u8],
    address: u64,
    rd: u64,
    imm: u64,
    time: u64,
    seed: u64,
    line: u64,
) -> Outcome
    ensures { (result, hart.new) ≡ entry_of (Instruction Immediate Csrrw (host_of time seed line) address rd imm) caps.now hart.old }
{
    entries::instruction(
        Form::Immediate,
        Op::Csrrw,
        caps,
        hart,
        Host { time, seed, line },
        address,
        rd,
        imm,
    )
    .into()
}

pub fn vhart_csrrsi(
    caps: &[u8],
    hart: &mut [u8],
    address: u64,
    rd: u64,
    imm: u64,
    time: u64,
    seed: u64,
    line: u64,
) -> Outcome
    ensures { (result, hart.new) ≡ entry_of (Instruction Immediate Csrrs (host_of time seed line) address rd imm) caps.now hart.old }
{
    entries::instruction(
        Form::Immediate,
        Op::Csrrs,
        caps,
        hart,
        Host { time, seed, line },
        address,
        rd,
        imm,
    )
    .into()
}

pub fn vhart_csrrci(
    caps: &[u8],
    hart: &mut [u8],
    address: u64,
    rd: u64,
    imm: u64,
    time: u64,
    seed: u64,
    line: u64,
) -> Outcome
    ensures { (result, hart.new) ≡ entry_of (Instruction Immediate Csrrc (host_of time seed line) address rd imm) caps.now hart.old }
{
    entries::instruction(
        Form::Immediate,
        Op::Csrrc,
        caps,
        hart,
        Host { time, seed, line },
        address,
        rd,
        imm,
    )
    .into()
}

pub fn vhart_pending(caps: &[u8], hart: &[u8]) -> Outcome
    ensures { (result, hart.now) ≡ entry_of Pending caps.now hart.now }
{
    entries::pending(caps, hart).into()
}

pub fn vhart_inject(caps: &[u8], hart: &mut [u8], number: u64) -> Outcome
    ensures { (result, hart.new) ≡ entry_of (Take (Inject number)) caps.now hart.old }
{
    entries::step(caps, hart, Taken::Inject(number)).into()
}

pub fn vhart_trap(
    caps: &[u8],
    hart: &mut [u8],
    mcause: u64,
    mtval: u64,
    mepc: u64,
    mip: u64,
    mstatus: u64,
) -> Outcome
    ensures { (result, hart.new) ≡ entry_of (Take (Trap (trap_info_of mcause mtval mepc mip mstatus))) caps.now hart.old }
{
    let t = TrapInfo {
        mcause,
        mtval,
        mepc,
        mip,
        mstatus,
    };
    entries::step(caps, hart, Taken::Trap(t)).into()
}

pub fn vhart_mret(caps: &[u8], hart: &mut [u8]) -> Outcome
    ensures { (result, hart.new) ≡ entry_of (Take Mret) caps.now hart.old }
{
    entries::step(caps, hart, Taken::Mret).into()
}

pub fn vhart_sret(caps: &[u8], hart: &mut [u8]) -> Outcome
    ensures { (result, hart.new) ≡ entry_of (Take Sret) caps.now hart.old }
{
    entries::step(caps, hart, Taken::Sret).into()
}

pub fn vhart_check_caps(caps: &[u8]) -> Fault
    ensures { result ≡ checked_caps caps.now }
{
    check::check_caps(caps)
}

pub fn vhart_check_hart(caps: &[u8], hart: &[u8]) -> Fault
    ensures { result ≡ checked_hart caps.now hart.now }
{
    check::check_hart(caps, hart)
}

pub fn vhart_settings_read(file: &[u8]) -> Settings
    ensures { result ≡ settings_read file.now }
{
    settings::read(file).into()
}

pub fn vhart_settings_write(caps: &[u8], file: &mut [u8]) -> Outcome
    ensures { (result, file.new) ≡ settings_write caps.now file.old }
{
    settings::write(caps, file).into()
}

pub fn vhart_plain_read(
    caps: &[u8],
    hart: &[u8],
    address: u64,
    time: u64,
    seed: u64,
    line: u64,
) -> Outcome
    ensures { (result, hart.now) ≡ entry_of (Read (host_of time seed line) address) caps.now hart.now }
{
    plain::entries::read(caps, hart, Host { time, seed, line }, address).into()
}

pub fn vhart_plain_write(caps: &[u8], hart: &mut [u8], address: u64, value: u64) -> Outcome
    ensures { (result, hart.new) ≡ entry_of (Write address value) caps.now hart.old }
{
    plain::entries::write(caps, hart, address, value).into()
}

pub fn vhart_explain(
    caps: &[u8],
    hart: &[u8],
    address: u64,
    value: u64,
    time: u64,
    seed: u64,
) -> Listing
    ensures { result ≡ explain_of (host_of time seed 0) address value caps.now hart.now }
{
    let o = Host {
        time,
        seed,
        line: 0,
    };
    explain::entry::explain(caps, hart, o, address, value)
}

pub fn vhart_tally(
    caps: &[u8],
    hart: &[u8],
    address: u64,
    value: u64,
    time: u64,
    seed: u64,
    totals: &mut Totals,
) -> Outcome
    ensures { (result, totals.new) ≡ tally_of time seed address value caps.now hart.now totals.old }
{
    let o = Host {
        time,
        seed,
        line: 0,
    };
    tally::entry::tally(caps, hart, o, address, value, totals).into()
}

pub fn vhart_replay(
    caps: &[u8],
    hart: &mut [u8],
    wait: &mut [u8],
    fragment: &[u8],
    out: &mut [u8],
) -> Outcome
    ensures { (result, hart.new, wait.new, out.new) ≡ replay_of caps.now hart.old wait.old fragment.now out.old }
{
    replay::entries::replay(caps, hart, wait, fragment, out).into()
}

pub fn vhart_replay_end(caps: &[u8], hart: &[u8], wait: &[u8]) -> Outcome
    ensures { result ≡ end_of caps.now hart.now wait.now }
{
    replay::entries::replay_end(caps, hart, wait).into()
}
