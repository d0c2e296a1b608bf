// Items with a comma between them.
ghost use Rattle.std.specs.Iterator.{IsFinite};

use std::fmt;

pub fn write_joined<W: fmt::Write, T: fmt::Display + Copy, I: Iterator<Item = T> + Drop>(
    f: &mut fmt::Formatter<W>,
    items: I,
) -> fmt::Result
    requires can { I.can_next items }
    requires ends { IsFinite (I.remaining items) }
{
    let mut is_first = true;
    for item in items {
        if !is_first {
            f.write_str(", ")?;
        }
        write!(f, "{item}")?;
        is_first = false;
    }
    Ok(())
}
