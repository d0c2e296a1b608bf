// The interrupt controller's line for SEIP, which the host hands in as 0 or 1.
ghost use Rattle.std.specs.Prelude.{◌≡◌};
ghost use Rattle.csr.specs.Line.{is_line, raises_seip};

use hart::caps::Caps;
use hart::record::Host;

pub fn is_line(n: u64) -> bool
    ensures { result ≡ is_line n }
{
    n < 2
}

// Without S there is no such interrupt.
pub fn raises_seip(c: Caps, o: Host) -> bool
    ensures { result ≡ raises_seip c o }
{
    (o.line == 1) & c.has_s()
}
