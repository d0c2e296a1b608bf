// Which interrupt comes first, by the original's functions; which numbers are interrupts; and what
// becomes of mcause and mip.
ghost use Rattle.std.specs.Prelude.{◌≡◌};
ghost use Rattle.trap.specs.Inner.{first_set};
ghost use Rattle.trap.specs.Interrupts.{next_of, is_interrupt, cause_of, trapped_mip};

const MEIE_OFFSET: u64 = 11;

const MSIE_OFFSET: u64 = 3;

const MTIE_OFFSET: u64 = 7;

const SEIE_OFFSET: u64 = 9;

const SSIE_OFFSET: u64 = 1;

const STIE_OFFSET: u64 = 5;

const LCOFIE_OFFSET: u64 = 13;

// mcause's Interrupt bit.
const INTERRUPT: u64 = 0x8000_0000_0000_0000;

// The bits of mip that stay virtual at a trap: SEIP, those of machine level and LCOFIP.
const SW_MASK: u64 = 0x2A88;

// The standard's order.
const ORDER: [u64; 7] = [
    MEIE_OFFSET,
    MSIE_OFFSET,
    MTIE_OFFSET,
    SEIE_OFFSET,
    SSIE_OFFSET,
    STIE_OFFSET,
    LCOFIE_OFFSET,
];

// The first of these interrupts, or 0: from the last on, each goes before those that were. So each
// is chosen without a branch, which `find` from the first on would make.
pub fn find_pending_interrupt_by_priority(ip: u64) -> u64
    ensures { result ≡ first_set ip }
{
    ORDER
        .iter()
        .rev()
        .fold(0, |first, n| bits::select(bits::bit(ip, *n), *n, first))
}

// Nearly always there is none, and then the order isn't looked at. None is 0, of which
// the laws speak, and which C is told.
pub fn get_next_interrupt(mie: u64, mip: u64, mideleg: u64) -> u64
    ensures { result ≡ next_of mie mip mideleg }
{
    let ip = mie & mip & !mideleg;
    if ip == 0 {
        0
    } else {
        find_pending_interrupt_by_priority(ip)
    }
}

pub fn is_interrupt(interrupts: u64, n: u64) -> bool
    ensures { result ≡ is_interrupt interrupts n }
{
    (n < 64) & bits::bit(interrupts, n)
}

// mcause for interrupt n.
pub fn cause(n: u64) -> u64
    ensures { result ≡ cause_of n }
{
    n | INTERRUPT
}

// mip after a trap that came with `trap`.
pub fn trap_mip(mip: u64, trap: u64) -> u64
    ensures { result ≡ trapped_mip mip trap }
{
    bits::merge(trap, mip, SW_MASK)
}
