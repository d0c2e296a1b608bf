// The bytes of an entry that isn't whole yet, as C lends them: how many they are, and then these.
ghost use Rattle.std.specs.Prelude.{◌≡◌, ◌++◌, ◌+◌, ◌/◌, ◌≤◌, ◌<◌, length, is_some, IfSome};
ghost use Rattle.image.specs.Word.{from};
ghost use Rattle.replay.specs.Log.{entry_bytes, entry_at};
ghost use Rattle.replay.specs.Replay.{is_wait, held_in, wait_of, log_of};

use crate::log::{ENTRY_BYTES, Entry, entry_at};

pub const WAIT_BYTES: usize = ENTRY_BYTES;

// How many bytes wait.
pub fn held(w: &[u8; WAIT_BYTES]) -> usize
    ensures { result ≡ held_in w.now }
{
    w[0] as usize
}

// Bytes that wait: fewer than an entry has.
#[derive(Clone, Copy)]
pub struct Waiting {
    pub bytes: [u8; WAIT_BYTES],
    ghost short: { held_in bytes < entry_bytes },
}

impl Waiting {
    #[tactic(auto, unfolding(crate::specs::Replay::is_wait))]
    pub fn of(w: &[u8]) -> Option<Waiting>
        ensures variant { is_some result ≡ is_wait w.now }
        ensures value { IfSome result (λ x. x.bytes ≡ w.now) }
    {
        let bytes: [u8; WAIT_BYTES] = *w.as_array()?;
        if held(&bytes) < ENTRY_BYTES {
            Some(Waiting { bytes })
        } else {
            None
        }
    }

    // How many they are.
    pub fn held(self) -> usize
        ensures { result ≡ held_in self.bytes }
    {
        held(&self.bytes)
    }

    // How many entries they and a fragment of this length complete.
    pub fn completed(self, len: usize) -> usize
        ensures { result ≡ (held_in self.bytes + len) / entry_bytes }
    {
        let missing = ENTRY_BYTES - self.held();
        if len < missing {
            0
        } else {
            1 + (len - missing) / ENTRY_BYTES
        }
    }

    // The first entry of the log: these bytes, and what is missing from the fragment.
    fn first(self, fragment: &[u8]) -> Entry
        requires { entry_bytes ≤ held_in self.bytes + length fragment.now }
        ensures { result ≡ entry_at (log_of self.bytes fragment.now) 0 }
    {
        let n = self.held();
        let waiting = self.bytes;
        let mut whole = [0u8; ENTRY_BYTES];
        image::put(&mut whole, 0, &waiting[1..1 + n]);
        image::put(&mut whole, n, &fragment[..ENTRY_BYTES - n]);
        entry_at(&whole, 0)
    }

    // The entry of the log, these bytes and then the fragment, at a multiple of 24.
    pub fn entry(self, fragment: &[u8], at: usize) -> Entry
        requires whole { at + entry_bytes ≤ held_in self.bytes + length fragment.now }
        requires cut { at < held_in self.bytes → at ≡ 0 }
        ensures { result ≡ entry_at (log_of self.bytes fragment.now) at }
    {
        let n = self.held();
        if at < n {
            self.first(fragment)
        } else {
            entry_at(fragment, at - n)
        }
    }
}

// Lets bytes wait behind the first n of those that do.
pub fn keep(w: &mut [u8; WAIT_BYTES], n: usize, rest: &[u8])
    requires { n + length rest.now < entry_bytes }
    ensures { w.new ≡ wait_of (from w.old 1 n ++ rest.now) }
{
    let all = n + rest.len();
    image::put(w, 1 + n, rest);
    image::clear(&mut w[1 + all..]);
    w[0] = all as u8;
}
