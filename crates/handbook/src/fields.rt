// The fields of the words, by the manual's names.
use crate::joined::write_joined;
use hart::record::Word;
use plain::words::Source::{self, Record};
use std::fmt;

// The name, the highest bit and the lowest.
#[derive(Clone, Copy)]
pub struct Field(&'static str, u32, u32);

static MSTATUS: [Field; 19] = [
    Field("SIE", 1, 1),
    Field("MIE", 3, 3),
    Field("SPIE", 5, 5),
    Field("UBE", 6, 6),
    Field("MPIE", 7, 7),
    Field("SPP", 8, 8),
    Field("VS", 10, 9),
    Field("MPP", 12, 11),
    Field("FS", 14, 13),
    Field("XS", 16, 15),
    Field("MPRV", 17, 17),
    Field("SUM", 18, 18),
    Field("MXR", 19, 19),
    Field("TVM", 20, 20),
    Field("TW", 21, 21),
    Field("TSR", 22, 22),
    Field("UXL", 33, 32),
    Field("SXL", 35, 34),
    Field("SD", 63, 63),
];

static MIE: [Field; 6] = [
    Field("SSIE", 1, 1),
    Field("MSIE", 3, 3),
    Field("STIE", 5, 5),
    Field("MTIE", 7, 7),
    Field("SEIE", 9, 9),
    Field("MEIE", 11, 11),
];

static MIP: [Field; 3] = [
    Field("SSIP", 1, 1),
    Field("STIP", 5, 5),
    Field("SEIP", 9, 9),
];

static MIDELEG: [Field; 6] = [
    Field("SSI", 1, 1),
    Field("MSI", 3, 3),
    Field("STI", 5, 5),
    Field("MTI", 7, 7),
    Field("SEI", 9, 9),
    Field("MEI", 11, 11),
];

static TVEC: [Field; 2] = [Field("MODE", 1, 0), Field("BASE", 63, 2)];

static COUNTEREN: [Field; 3] = [Field("CY", 0, 0), Field("TM", 1, 1), Field("IR", 2, 2)];

static MCOUNTINHIBIT: [Field; 2] = [Field("CY", 0, 0), Field("IR", 2, 2)];

static MENVCFG: [Field; 6] = [
    Field("FIOM", 0, 0),
    Field("CBIE", 5, 4),
    Field("CBCFE", 6, 6),
    Field("CBZE", 7, 7),
    Field("PBMTE", 62, 62),
    Field("STCE", 63, 63),
];

static SENVCFG: [Field; 4] = [
    Field("FIOM", 0, 0),
    Field("CBIE", 5, 4),
    Field("CBCFE", 6, 6),
    Field("CBZE", 7, 7),
];

static SATP: [Field; 3] = [
    Field("PPN", 43, 0),
    Field("ASID", 59, 44),
    Field("MODE", 63, 60),
];

fn fields_of(word: Source) -> &'static [Field] {
    match word {
        Record(Word::Mstatus) => &MSTATUS,
        Record(Word::Mie) => &MIE,
        Record(Word::Mip) => &MIP,
        Record(Word::Mideleg) => &MIDELEG,
        Record(Word::Mtvec) | Record(Word::Stvec) => &TVEC,
        Record(Word::Mcounteren) | Record(Word::Scounteren) => &COUNTEREN,
        Record(Word::Mcountinhibit) => &MCOUNTINHIBIT,
        Record(Word::Menvcfg) => &MENVCFG,
        Record(Word::Senvcfg) => &SENVCFG,
        Record(Word::Satp) => &SATP,
        _ => &[],
    }
}

// The shifts wrap, since a tuple struct can't carry the fact that its numbers are below 64.
impl Field {
    fn bits(&self) -> u64 {
        let Field(_, high, low) = *self;
        u64::MAX.wrapping_shl(low) & u64::MAX.wrapping_shr(63u32.wrapping_sub(high))
    }

    // What a word holds in it.
    fn value(&self, word: u64) -> u64 {
        (word & self.bits()).wrapping_shr(self.2)
    }
}

impl fmt::Display for Field {
    fn fmt<W: fmt::Write>(&self, f: &mut fmt::Formatter<W>) -> fmt::Result {
        let Field(name, high, low) = *self;
        write!(f, "{name} {}", Run { high, low })
    }
}

// A bit, or the highest and the lowest of several.
#[derive(Clone, Copy)]
struct Run {
    high: u32,
    low: u32,
}

impl fmt::Display for Run {
    fn fmt<W: fmt::Write>(&self, f: &mut fmt::Formatter<W>) -> fmt::Result {
        if self.high != self.low {
            write!(f, "{}:", self.high)?;
        }
        write!(f, "{}", self.low)
    }
}

// Bits that no field names, run by run.
#[derive(Clone, Copy)]
struct Unnamed(u64);

impl fmt::Display for Unnamed {
    fn fmt<W: fmt::Write>(&self, f: &mut fmt::Formatter<W>) -> fmt::Result {
        let bits = self.0;
        f.write_str(if bits.is_power_of_two() {
            "bit "
        } else {
            "bits "
        })?;
        let lowest = (0..64).filter(|n| (bits & !(bits << 1)) >> n & 1 == 1);
        let highest = (0..64).filter(|n| (bits & !(bits >> 1)) >> n & 1 == 1);
        write_joined(f, lowest.zip(highest).map(|(low, high)| Run { high, low }))
    }
}

// Bits by the names of the word's fields, or as bits.
#[derive(Clone, Copy)]
struct Named(Source, u64);

impl fmt::Display for Named {
    fn fmt<W: fmt::Write>(&self, f: &mut fmt::Formatter<W>) -> fmt::Result {
        let Named(word, bits) = *self;
        let fields = fields_of(word);
        write_joined(f, fields.iter().filter(|field| bits & field.bits() != 0))?;
        let rest = fields.iter().fold(bits, |rest, field| rest & !field.bits());
        if rest != 0 {
            write!(f, "{}", Unnamed(rest))?;
        }
        Ok(())
    }
}

// The kept bits of a word: nearly all are written as such, and all unless the word has fields.
#[derive(Clone, Copy)]
pub struct Kept(pub Source, pub u64);

impl fmt::Display for Kept {
    fn fmt<W: fmt::Write>(&self, f: &mut fmt::Formatter<W>) -> fmt::Result {
        let Kept(word, bits) = *self;
        if bits == 0 {
            return f.write_str("-");
        }
        if bits == u64::MAX && fields_of(word).is_empty() {
            return f.write_str("all");
        }
        if bits != u64::MAX && bits >> 32 == u64::MAX >> 32 {
            return write!(f, "all but {}", Named(word, !bits));
        }
        write!(f, "{}", Named(word, bits))
    }
}

// A field, and what a word holds in it.
#[derive(Clone, Copy)]
struct Valued(Field, u64);

impl fmt::Display for Valued {
    fn fmt<W: fmt::Write>(&self, f: &mut fmt::Formatter<W>) -> fmt::Result {
        let Valued(field, word) = *self;
        write!(f, "{field} is {}", field.value(word))
    }
}

// The forced bits of a word, as the values of its fields.
#[derive(Clone, Copy)]
pub struct Forced(pub Source, pub u64);

impl fmt::Display for Forced {
    fn fmt<W: fmt::Write>(&self, f: &mut fmt::Formatter<W>) -> fmt::Result {
        let Forced(word, bits) = *self;
        if bits == 0 {
            return f.write_str("-");
        }
        let forced = fields_of(word)
            .iter()
            .filter(|field| bits & field.bits() != 0);
        write_joined(f, forced.map(|field| Valued(*field, bits)))
    }
}
