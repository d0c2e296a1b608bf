// The twenty-four functions of crate vhart as C calls them: a static library's exports, each one
// call of the function of its name. A crate is a library or a static library, not both. So the
// parameters, results and clauses stand here once more, and tests/documents compares the two.
#![tactic(auto)]

ghost use Rattle.std.specs.Prelude.{◌≡◌};
ghost use Rattle.instr.specs.declared.operation.Op.TheVariants.{Csrrw, Csrrs, Csrrc};
ghost use Rattle.registers.specs.declared.Form.TheVariants.{Register, Immediate};
ghost use Rattle.calls.specs.Calls.{Fresh, Read, Write, Instruction, Pending, Take, host_of, trap_info_of};
ghost use Rattle.calls.specs.Entries.{entry_of};
ghost use Rattle.explain.specs.Explain.{explain_of};
ghost use Rattle.fault.specs.Fault.{checked_caps, checked_hart};
ghost use Rattle.replay.specs.Replay.{replay_of, end_of};
ghost use Rattle.settings.specs.Settings.{settings_read, settings_write};
ghost use Rattle.tally.specs.Totals.{tally_of};
ghost use Rattle.calls.specs.declared.steps.Taken.TheVariants.{Inject, Trap, Mret, Sret};

use explain::listing::Listing;
use fault::fault::Fault;
use lent::outcome::Outcome;
use settings::Settings;
use tally::totals::Totals;

#[unsafe(no_mangle)]
pub extern "C" fn vhart_fresh(caps: &[u8], hart: &mut [u8], pc: u64) -> Outcome
    ensures { (result, hart.new) ≡ entry_of (Fresh pc) caps.now hart.old }
{
    vhart::vhart_fresh(caps, hart, pc)
}

#[unsafe(no_mangle)]
pub extern "C" fn vhart_read(
    caps: &[u8],
    hart: &[u8],
    address: u64,
    time: u64,
    seed: u64,
    line: u64,
) -> Outcome
    ensures { (result, hart.now) ≡ entry_of (Read (host_of time seed line) address) caps.now hart.now }
{
    vhart::vhart_read(caps, hart, address, time, seed, line)
}

#[unsafe(no_mangle)]
pub extern "C" fn vhart_write(caps: &[u8], hart: &mut [u8], address: u64, value: u64) -> Outcome
    ensures { (result, hart.new) ≡ entry_of (Write address value) caps.now hart.old }
{
    vhart::vhart_write(caps, hart, address, value)
}

#[unsafe(no_mangle)]
pub extern "C" fn vhart_csrrw(
    caps: &[u8],
    hart: &mut [u8],
    address: u64,
    rd: u64,
    rs1: u64,
    time: u64,
    seed: u64,
    line: u64,
) -> Outcome
    ensures { (result, hart.new) ≡ entry_of (Instruction Register Csrrw (host_of time seed line) address rd rs1) caps.now hart.old }
{
    vhart::vhart_csrrw(caps, hart, address, rd, rs1, time, seed, line)
}

#[unsafe(no_mangle)]
pub extern "C" fn vhart_csrrs(
    caps: &[u8],
    hart: &mut [u8],
    address: u64,
    rd: u64,
    rs1: u64,
    time: u64,
    seed: u64,
    line: u64,
) -> Outcome
    ensures { (result, hart.new) ≡ entry_of (Instruction Register Csrrs (host_of time seed line) address rd rs1) caps.now hart.old }
{
    vhart::vhart_csrrs(caps, hart, address, rd, rs1, time, seed, line)
}

#[unsafe(no_mangle)]
pub extern "C" fn vhart_csrrc(
    caps: &[u8],
    hart: &mut [u8],
    address: u64,
    rd: u64,
    rs1: u64,
    time: u64,
    seed: u64,
    line: u64,
) -> Outcome
    ensures { (result, hart.new) ≡ entry_of (Instruction Register Csrrc (host_of time seed line) address rd rs1) caps.now hart.old }
{
    vhart::vhart_csrrc(caps, hart, address, rd, rs1, time, seed, line)
}

#[unsafe(no_mangle)]
pub extern "C" fn vhart_csrrwi(
    caps: &[u8],
    hart: &mut [u8],
    address: u64,
    rd: u64,
    imm: u64,
    time: u64,
    seed: u64,
    line: u64,
) -> Outcome
    ensures { (result, hart.new) ≡ entry_of (Instruction Immediate Csrrw (host_of time seed line) address rd imm) caps.now hart.old }
{
    vhart::vhart_csrrwi(caps, hart, address, rd, imm, time, seed, line)
}

#[unsafe(no_mangle)]
pub extern "C" fn vhart_csrrsi(
    caps: &[u8],
    hart: &mut [u8],
    address: u64,
    rd: u64,
    imm: u64,
    time: u64,
    seed: u64,
    line: u64,
) -> Outcome
    ensures { (result, hart.new) ≡ entry_of (Instruction Immediate Csrrs (host_of time seed line) address rd imm) caps.now hart.old }
{
    vhart::vhart_csrrsi(caps, hart, address, rd, imm, time, seed, line)
}

#[unsafe(no_mangle)]
pub extern "C" fn vhart_csrrci(
    caps: &[u8],
    hart: &mut [u8],
    address: u64,
    rd: u64,
    imm: u64,
    time: u64,
    seed: u64,
    line: u64,
) -> Outcome
    ensures { (result, hart.new) ≡ entry_of (Instruction Immediate Csrrc (host_of time seed line) address rd imm) caps.now hart.old }
{
    vhart::vhart_csrrci(caps, hart, address, rd, imm, time, seed, line)
}

#[unsafe(no_mangle)]
pub extern "C" fn vhart_pending(caps: &[u8], hart: &[u8]) -> Outcome
    ensures { (result, hart.now) ≡ entry_of Pending caps.now hart.now }
{
    vhart::vhart_pending(caps, hart)
}

#[unsafe(no_mangle)]
pub extern "C" fn vhart_inject(caps: &[u8], hart: &mut [u8], number: u64) -> Outcome
    ensures { (result, hart.new) ≡ entry_of (Take (Inject number)) caps.now hart.old }
{
    vhart::vhart_inject(caps, hart, number)
}

#[unsafe(no_mangle)]
pub extern "C" fn vhart_trap(
    caps: &[u8],
    hart: &mut [u8],
    mcause: u64,
    mtval: u64,
    mepc: u64,
    mip: u64,
    mstatus: u64,
) -> Outcome
    ensures { (result, hart.new) ≡ entry_of (Take (Trap (trap_info_of mcause mtval mepc mip mstatus))) caps.now hart.old }
{
    vhart::vhart_trap(caps, hart, mcause, mtval, mepc, mip, mstatus)
}

#[unsafe(no_mangle)]
pub extern "C" fn vhart_mret(caps: &[u8], hart: &mut [u8]) -> Outcome
    ensures { (result, hart.new) ≡ entry_of (Take Mret) caps.now hart.old }
{
    vhart::vhart_mret(caps, hart)
}

#[unsafe(no_mangle)]
pub extern "C" fn vhart_sret(caps: &[u8], hart: &mut [u8]) -> Outcome
    ensures { (result, hart.new) ≡ entry_of (Take Sret) caps.now hart.old }
{
    vhart::vhart_sret(caps, hart)
}

#[unsafe(no_mangle)]
pub extern "C" fn vhart_check_caps(caps: &[u8]) -> Fault
    ensures { result ≡ checked_caps caps.now }
{
    vhart::vhart_check_caps(caps)
}

#[unsafe(no_mangle)]
pub extern "C" fn vhart_check_hart(caps: &[u8], hart: &[u8]) -> Fault
    ensures { result ≡ checked_hart caps.now hart.now }
{
    vhart::vhart_check_hart(caps, hart)
}

#[unsafe(no_mangle)]
pub extern "C" fn vhart_settings_read(file: &[u8]) -> Settings
    ensures { result ≡ settings_read file.now }
{
    vhart::vhart_settings_read(file)
}

#[unsafe(no_mangle)]
pub extern "C" fn vhart_settings_write(caps: &[u8], file: &mut [u8]) -> Outcome
    ensures { (result, file.new) ≡ settings_write caps.now file.old }
{
    vhart::vhart_settings_write(caps, file)
}

#[unsafe(no_mangle)]
pub extern "C" fn vhart_plain_read(
    caps: &[u8],
    hart: &[u8],
    address: u64,
    time: u64,
    seed: u64,
    line: u64,
) -> Outcome
    ensures { (result, hart.now) ≡ entry_of (Read (host_of time seed line) address) caps.now hart.now }
{
    vhart::vhart_plain_read(caps, hart, address, time, seed, line)
}

#[unsafe(no_mangle)]
pub extern "C" fn vhart_plain_write(
    caps: &[u8],
    hart: &mut [u8],
    address: u64,
    value: u64,
) -> Outcome
    ensures { (result, hart.new) ≡ entry_of (Write address value) caps.now hart.old }
{
    vhart::vhart_plain_write(caps, hart, address, value)
}

#[unsafe(no_mangle)]
pub extern "C" fn vhart_explain(
    caps: &[u8],
    hart: &[u8],
    address: u64,
    value: u64,
    time: u64,
    seed: u64,
) -> Listing
    ensures { result ≡ explain_of (host_of time seed 0) address value caps.now hart.now }
{
    vhart::vhart_explain(caps, hart, address, value, time, seed)
}

#[unsafe(no_mangle)]
pub extern "C" fn vhart_tally(
    caps: &[u8],
    hart: &[u8],
    address: u64,
    value: u64,
    time: u64,
    seed: u64,
    totals: &mut Totals,
) -> Outcome
    ensures { (result, totals.new) ≡ tally_of time seed address value caps.now hart.now totals.old }
{
    vhart::vhart_tally(caps, hart, address, value, time, seed, totals)
}

#[unsafe(no_mangle)]
pub extern "C" fn vhart_replay(
    caps: &[u8],
    hart: &mut [u8],
    wait: &mut [u8],
    fragment: &[u8],
    out: &mut [u8],
) -> Outcome
    ensures { (result, hart.new, wait.new, out.new) ≡ replay_of caps.now hart.old wait.old fragment.now out.old }
{
    vhart::vhart_replay(caps, hart, wait, fragment, out)
}

#[unsafe(no_mangle)]
pub extern "C" fn vhart_replay_end(caps: &[u8], hart: &[u8], wait: &[u8]) -> Outcome
    ensures { result ≡ end_of caps.now hart.now wait.now }
{
    vhart::vhart_replay_end(caps, hart, wait)
}
