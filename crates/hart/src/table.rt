// The bits that menvcfg can have, as a table: a `match` of constants on a dense number becomes one
// load. The bits joined flag by flag took longer.
ghost use Rattle.std.specs.Prelude.{◌≡◌};
ghost use Rattle.hart.specs.Inner.{envcfg_bits};

// By the flags Sstc, Zicbom, Zicboz and Svpbmt.
#[tactic(auto, unfolding(crate::specs::Inner::envcfg_bits), using(crate::proofs::EnvcfgBits::by_key))]
pub fn envcfg_bits(flags: u64) -> u64
    ensures { result ≡ envcfg_bits flags }
{
    match (flags >> 1) % 16 {
        0 => 0x1,
        1 => 0x8000_0000_0000_0001,
        2 => 0x71,
        3 => 0x8000_0000_0000_0071,
        4 => 0x81,
        5 => 0x8000_0000_0000_0081,
        6 => 0xF1,
        7 => 0x8000_0000_0000_00F1,
        8 => 0x4000_0000_0000_0001,
        9 => 0xC000_0000_0000_0001,
        10 => 0x4000_0000_0000_0071,
        11 => 0xC000_0000_0000_0071,
        12 => 0x4000_0000_0000_0081,
        13 => 0xC000_0000_0000_0081,
        14 => 0x4000_0000_0000_00F1,
        _ => 0xC000_0000_0000_00F1,
    }
}
