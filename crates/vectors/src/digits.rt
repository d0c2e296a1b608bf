// Hexadecimal numbers, in lower case, of one to sixteen digits. std's `from_str_radix` would take
// capitals and a sign too.
ghost use Rattle.vectors.specs.Text.{Worth, Spells};

// What a digit is worth.
pub fn worth(b: u8) -> Option<u64>
    ensures { Worth b result }
{
    match b {
        b'0'..=b'9' => Some(u64::from(b - b'0')),
        b'a'..=b'f' => Some(u64::from(b - b'a') + 10),
        _ => None,
    }
}

pub fn read_number(text: &str) -> Option<u64>
    ensures { Spells result text.now }
{
    if text.is_empty() || 16 < text.len() {
        return None;
    }
    let mut n = 0u64;
    for b in text.as_bytes() {
        n = 16 * n + worth(*b)?;
    }
    Some(n)
}
