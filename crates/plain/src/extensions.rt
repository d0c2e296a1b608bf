// The extensions that a row asks for and a hart has, a bit each: the rows ask whether one set is
// part of another. Zfinx is asked to be absent.
ghost use Rattle.std.specs.Prelude.{◌≡◌};
ghost use Rattle.plain.specs.Engine.{extensions_of};

use hart::caps::Caps;

pub const ANY: u64 = 0;

pub const S: u64 = 1;

pub const C: u64 = 2;

pub const F: u64 = 4;

pub const V: u64 = 8;

pub const NO_ZFINX: u64 = 0x10;

pub const SSTC: u64 = 0x20;

pub const ZICBOM: u64 = 0x40;

pub const ZICBOZ: u64 = 0x80;

pub const SVPBMT: u64 = 0x100;

pub fn extensions(c: Caps) -> u64
    ensures { result ≡ extensions_of c }
{
    bits::only(c.has_s(), S)
        | bits::only(c.has_c(), C)
        | bits::only(c.has_f(), F)
        | bits::only(c.has_v(), V)
        | bits::only(!c.has_zfinx(), NO_ZFINX)
        | bits::only(c.has_sstc(), SSTC)
        | bits::only(c.has_zicbom(), ZICBOM)
        | bits::only(c.has_zicboz(), ZICBOZ)
        | bits::only(c.has_svpbmt(), SVPBMT)
}
