// Masks and fields of 64-bit words. The crates above join tests by `&` and `|`, where the branch of
// `&&` or `||` could be mispredicted.
#![tactic(auto)]

ghost use Rattle.std.specs.Prelude.{◌≡◌, ◌==◌, ◌%◌, if◌then◌else◌};
ghost use Rattle.bits.specs.Masks.{kept, merged_word, only_if, field_set};
ghost use Rattle.bits.specs.Word.{bit};

// Whether bit `i` of `v` is 1. The place is taken modulo 64, as the machine's shift does.
pub fn bit(v: u64, i: u64) -> bool
    ensures { result ≡ bit (i % 64) v }
{
    (v >> (i % 64)) % 2 == 1
}

// The bits of `v` that `mask` has.
pub fn keep(v: u64, mask: u64) -> u64
    ensures { result ≡ kept v mask }
{
    v & mask
}

// The bits of `v` that `mask` has, and the others of `old`.
pub fn merge(old: u64, v: u64, mask: u64) -> u64
    ensures { result ≡ merged_word old v mask }
{
    (old & !mask) | (v & mask)
}

// `csr` with the bits of `filter` taken from `value`, shifted to `offset` modulo 64. Where the
// original's debug build stops, at a value wider than its field, the rest is lost.
pub fn set_csr_field(csr: u64, offset: u64, filter: u64, value: u64) -> u64
    ensures { result ≡ field_set csr offset filter value }
{
    merge(csr, value << (offset % 64), filter)
}

// `x` where `b`, else 0.
pub fn only(b: bool, x: u64) -> u64
    ensures { result ≡ only_if b x }
{
    if b { x } else { 0 }
}

// `x` where `b`, else `y`: chosen, where a branch could be mispredicted.
pub fn select(b: bool, x: u64, y: u64) -> u64
    ensures { result ≡ (if b then x else y) }
{
    if b { x } else { y }
}

// The bits in which `v` isn't `w`: none if they are the same.
pub fn differ(v: u64, w: u64) -> u64
    ensures { (result == 0) ≡ (v == w) }
{
    v ^ w
}

// A bit, unless `b`.
pub fn unless(b: bool) -> u64
    ensures { (result == 0) ≡ b }
{
    only(!b, 1)
}
