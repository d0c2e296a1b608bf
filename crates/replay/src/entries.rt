// The two calls on a call log: a fragment of it is replayed, and its end declared.
ghost use Rattle.std.specs.Prelude.{◌≡◌, ◌+◌, ◌*◌, ◌/◌, ◌≤◌, ◌<◌, length};
ghost use Rattle.lent.specs.Images.{caps_at, hart_at};
ghost use Rattle.lent.specs.Outcome.{outcome_of};
ghost use Rattle.replay.specs.Log.{entry_bytes, entries_from, rest_of};
ghost use Rattle.replay.specs.Replay.{held_in, wait_of, log_of, replay_of, end_of};
ghost use Rattle.replay.specs.Inner.{ran};

use crate::log::{ENTRY_BYTES, replay_one};
use crate::wait::{WAIT_BYTES, Waiting, held, keep};
use hart::answer::{Answer, Effect, Refusal};
use lent::images::{CAPS_BYTES, HART_BYTES};
use lent::judge::judge;

// Makes the first n entries of the log, one after the other.
fn run(
    caps: &[u8; CAPS_BYTES],
    hart: &mut [u8; HART_BYTES],
    waiting: Waiting,
    fragment: &[u8],
    out: &mut [u8],
    n: usize,
)
    requires whole { entry_bytes * n ≤ held_in waiting.bytes + length fragment.now }
    requires out { entry_bytes * n ≤ length out.old }
    ensures { (hart_at hart.new, out.new) ≡ ran (caps_at caps.now) (entries_from (log_of waiting.bytes fragment.now) 0 n) 0 (hart_at hart.old, out.old) }
{
    for i in 0..n {
        let at = ENTRY_BYTES * i;
        let e = waiting.entry(fragment, at);
        replay_one(caps, hart, e, out, at);
    }
}

// What is left behind n entries of the log waits.
fn keep_rest(wait: &mut [u8; WAIT_BYTES], fragment: &[u8], n: usize)
    requires held { held_in wait.old < entry_bytes }
    requires whole { n ≡ (held_in wait.old + length fragment.now) / entry_bytes }
    ensures { wait.new ≡ wait_of (rest_of (log_of wait.old fragment.now)) }
{
    let count = held(wait);
    if n == 0 {
        keep(wait, count, fragment);
    } else {
        keep(wait, 0, &fragment[ENTRY_BYTES * n - count..]);
    }
}

#[tactic(auto, using(lent::proofs::Judged::images_sized, crate::proofs::Tested::is_wait_lem, crate::proofs::Tested::replay_refused, crate::proofs::Tested::replay_unread))]
pub fn replay(
    caps: &[u8],
    hart: &mut [u8],
    wait: &mut [u8],
    fragment: &[u8],
    out: &mut [u8],
) -> Answer
    ensures { (outcome_of result, hart.new, wait.new, out.new) ≡ replay_of caps.now hart.old wait.old fragment.now out.old }
{
    judge(caps, hart)?;
    let waiting = Waiting::of(wait).ok_or(Refusal::BadHart)?;
    let n = waiting.completed(fragment.len());
    if out.len() / ENTRY_BYTES < n {
        return Err(Refusal::ShortBuffer);
    }
    run(
        caps.as_array().unwrap(),
        hart.as_mut_array().unwrap(),
        waiting,
        fragment,
        out,
        n,
    );
    keep_rest(wait.as_mut_array().unwrap(), fragment, n);
    Ok((n as u64, Effect::Nothing))
}

#[tactic(auto, using(crate::proofs::Tested::end_refused, crate::proofs::Tested::end_unread))]
pub fn replay_end(caps: &[u8], hart: &[u8], wait: &[u8]) -> Answer
    ensures { outcome_of result ≡ end_of caps.now hart.now wait.now }
{
    judge(caps, hart)?;
    let waiting = Waiting::of(wait).ok_or(Refusal::BadHart)?;
    if waiting.held() != 0 {
        return Err(Refusal::EntryWaits);
    }
    Ok((0, Effect::Nothing))
}
