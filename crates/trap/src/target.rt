// Where a trap goes: mtvec's base, and for an interrupt in vectored mode the entry of its number.
ghost use Rattle.std.specs.Prelude.{◌≡◌, ◌+◌, ◌*◌, ◌%◌, ◌^◌};
ghost use Rattle.trap.specs.Target.{base_of, target_of};

const BASE_FILTER: u64 = 0xFFFF_FFFF_FFFF_FFFC;

const VECTORED: u64 = 1;

pub fn base(mtvec: u64) -> u64
    ensures { result ≡ base_of mtvec }
{
    mtvec & BASE_FILTER
}

// The entry of an interrupt, 4 times its code behind the base. The sum wraps at 64 bits, and
// `mcause << 2` too, which so loses the Interrupt bit.
fn vectored(base: u64, mcause: u64) -> u64
    ensures { result ≡ (base + 4 * (mcause % 2 ^ 63)) % 2 ^ 64 }
{
    std::num::wrapping_add_u64(base, mcause << 2)
}

pub fn target(mtvec: u64, mcause: u64) -> u64
    ensures { result ≡ target_of mtvec mcause }
{
    if (mtvec % 4 == VECTORED) & bits::bit(mcause, 63) {
        vectored(base(mtvec), mcause)
    } else {
        base(mtvec)
    }
}
