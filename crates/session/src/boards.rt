// The boards that the programs run on: the capabilities of the examples a to q,
// and what differs from them in a thing or two.
use crate::CAPS_BYTES;

// RV64 with A, C, I, M and U.
const MISA: u64 = 0x8000_0000_0010_1105;

const C: u64 = 0x4;

const F: u64 = 0x20;

const S: u64 = 0x4_0000;

const V: u64 = 0x20_0000;

// menvcfg's bit that gives stimecmp to S.
pub const STCE: u64 = 0x8000_0000_0000_0000;

const ZFINX: u64 = 1;

const SSTC: u64 = 2;

const ZICBOM: u64 = 4;

// The highest valid address.
const HIGHEST: u64 = 0x8000_0000;

// What a board may have or not. F beside Zfinx isn't legal.
#[derive(Clone, Copy)]
pub struct Units {
    pub s: bool,
    pub f: bool,
    pub v: bool,
    pub zfinx: bool,
}

impl Units {
    pub const NONE: Units = Units {
        s: false,
        f: false,
        v: false,
        zfinx: false,
    };
}

fn board(misa: u64, interrupts: u64, flags: u64) -> [u8; CAPS_BYTES] {
    let mut caps = [0; CAPS_BYTES];
    image::store(&mut caps, 0, &[misa, interrupts, HIGHEST, flags]);
    caps
}

pub fn with_s_and_sstc() -> [u8; CAPS_BYTES] {
    board(MISA | S, 0xAAA, SSTC)
}

pub fn with_f() -> [u8; CAPS_BYTES] {
    board(MISA | S | F, 0xAAA, SSTC)
}

pub fn with_zicbom() -> [u8; CAPS_BYTES] {
    board(MISA | S, 0xAAA, SSTC | ZICBOM)
}

pub fn with_interrupts_of_s() -> [u8; CAPS_BYTES] {
    board(MISA | S, 0x222, SSTC)
}

pub fn without_c() -> [u8; CAPS_BYTES] {
    board((MISA | S) & !C, 0xAAA, SSTC)
}

pub fn with_s() -> [u8; CAPS_BYTES] {
    board(MISA | S, 0xAAA, 0)
}

pub fn without_s() -> [u8; CAPS_BYTES] {
    board(MISA, 0x888, 0)
}

pub fn with_units(units: Units) -> [u8; CAPS_BYTES] {
    let Units { s, f, v, zfinx } = units;
    let misa = MISA | bits::only(s, S) | bits::only(f, F) | bits::only(v, V);
    let interrupts = if s { 0xAAA } else { 0x888 };
    board(misa, interrupts, bits::only(zfinx, ZFINX))
}
