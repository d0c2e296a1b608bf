// The settings file of a board: a mark, a version and one zero byte before a capability image.
#![tactic(auto)]

ghost use Rattle.std.specs.Prelude.{◌≡◌};
ghost use Rattle.lent.specs.Outcome.{outcome_of};
ghost use Rattle.settings.specs.Settings.{is_marked, version_of, given, settings_read, settings_write};

use hart::answer::{Answer, Effect, Refusal};
use lent::images::{CAPS_BYTES, CAPS_WORDS};
use lent::judge::legal_caps;

// What a file begins with.
const MARK: [u8; 3] = *b"VHR";

// The version that is written, and the only one that is read.
const VERSION: u16 = 1;

// Mark, version, low byte first, and a zero byte.
const HEAD: [u8; HEAD_BYTES] = [
    MARK[0],
    MARK[1],
    MARK[2],
    VERSION as u8,
    (VERSION >> 8) as u8,
    0,
];

const HEAD_BYTES: usize = 6;

const FILE_BYTES: usize = HEAD_BYTES + CAPS_BYTES;

// What reading a file gives, by value: the words of its image, or zeros where it is refused.
#[repr(C)]
#[derive(Clone, Copy, Debug, PartialEq, Eq)]
pub struct Settings {
    pub refusal: u64,
    pub words: [u64; CAPS_WORDS],
}

impl From<Result<[u64; CAPS_WORDS], Refusal>> for Settings {
    ghost from_gives = { λ r s. s ≡ given r };

    fn from(r: Result<[u64; CAPS_WORDS], Refusal>) -> Settings {
        match r {
            Ok(words) => Settings { refusal: 0, words },
            Err(why) => Settings {
                refusal: why.into(),
                words: [0; CAPS_WORDS],
            },
        }
    }
}

fn is_marked(head: &[u8; HEAD_BYTES]) -> bool
    ensures { result ≡ is_marked head.now }
{
    head.starts_with(&MARK) && head[5] == 0
}

fn version(head: &[u8; HEAD_BYTES]) -> u16
    ensures { result ≡ version_of head.now }
{
    u16::from_le_bytes([head[3], head[4]])
}

#[tactic(auto, unfolding(crate::specs::Settings::settings_read), using(crate::proofs::File::marked_head, crate::proofs::File::version_head))]
pub fn read(file: &[u8]) -> Result<[u64; CAPS_WORDS], Refusal>
    ensures { given result ≡ settings_read file.now }
{
    let (head, caps) = file
        .split_first_chunk::<HEAD_BYTES>()
        .ok_or(Refusal::BadLength)?;
    if !is_marked(head) {
        return Err(Refusal::BadMark);
    }
    if version(head) != VERSION {
        return Err(Refusal::UnknownVersion);
    }
    let caps: &[u8; CAPS_BYTES] = caps.as_array().ok_or(Refusal::BadLength)?;
    legal_caps(caps)?;
    let mut words = [0; CAPS_WORDS];
    image::load(caps, 0, &mut words);
    Ok(words)
}

#[tactic(auto, unfolding(crate::specs::Settings::settings_write), using(lent::proofs::Views::caps_sized, crate::proofs::File::stored))]
pub fn write(caps: &[u8], file: &mut [u8]) -> Answer
    ensures { (outcome_of result, file.new) ≡ settings_write caps.now file.old }
{
    legal_caps(caps)?;
    if file.len() != FILE_BYTES {
        return Err(Refusal::BadLength);
    }
    image::put(file, 0, &HEAD);
    image::put(file, HEAD_BYTES, caps);
    Ok((0, Effect::Nothing))
}
