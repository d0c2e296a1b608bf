// mstatus and sstatus. Fields and filters have the original's names.
ghost use Rattle.std.specs.Prelude.{◌≡◌};
ghost use Rattle.bits.specs.Masks.{field_set};
ghost use Rattle.rules.specs.Inner.{field_read, with_legal_mpp, is_dirty};
ghost use Rattle.rules.specs.Status.{legal_mstatus, read_sstatus, merged_sstatus};

// A field: the place of its lowest bit, and the bits that it has.
#[derive(Clone, Copy)]
pub struct Field {
    pub offset: u64,
    pub filter: u64,
}

impl Field {
    pub fn get(self, csr: u64) -> u64
        ensures { result ≡ field_read self.offset self.filter csr }
    {
        (csr & self.filter) >> (self.offset % 64)
    }

    pub fn set(self, csr: u64, value: u64) -> u64
        ensures { result ≡ field_set csr self.offset self.filter value }
    {
        bits::set_csr_field(csr, self.offset, self.filter, value)
    }
}

pub const SIE: Field = Field {
    offset: 1,
    filter: 0x2,
};

pub const MIE: Field = Field {
    offset: 3,
    filter: 0x8,
};

pub const SPIE: Field = Field {
    offset: 5,
    filter: 0x20,
};

pub const MPIE: Field = Field {
    offset: 7,
    filter: 0x80,
};

pub const SPP: Field = Field {
    offset: 8,
    filter: 0x100,
};

pub const MPP: Field = Field {
    offset: 11,
    filter: MPP_FILTER,
};

pub const MPRV: Field = Field {
    offset: 17,
    filter: 0x2_0000,
};

pub const MPP_FILTER: u64 = 0x1800;

const MPP_LOWER: u64 = 0x800;

pub const MPP_UPPER: u64 = 0x1000;

const VS_FILTER: u64 = 0x600;

const VS_UPPER: u64 = 0x400;

const FS_FILTER: u64 = 0x6000;

const FS_UPPER: u64 = 0x4000;

const UXL_64: u64 = 0x2_0000_0000;

const SXL_64: u64 = 0x8_0000_0000;

const SD_FILTER: u64 = 0x8000_0000_0000_0000;

// The fields that a write copies on every hart: MIE, MPIE, MPP, MPRV, TW.
const WRITTEN: u64 = 0x22_1888;

// Those that exist with S alone: SIE, SPIE, SPP, SUM, MXR, TVM, TSR.
const WRITTEN_WITH_S: u64 = 0x5C_0122;

// The part of mstatus that sstatus shows.
pub const SSTATUS_FILTER: u64 = 0x8000_0003_000D_E762;

// With a reserved MPP made 0: 2 is the upper bit alone; and without S 1, the lower bit alone.
fn legalize_mpp(v: u64, has_s: bool) -> u64
    ensures { result ≡ with_legal_mpp has_s v }
{
    v & ((v << 1) | !MPP_UPPER) & ((v >> 1) | !bits::only(!has_s, MPP_LOWER))
}

// FS or VS is 3: the upper bit, and the one below it.
fn is_dirty(mstatus: u64) -> bool
    ensures { result ≡ is_dirty mstatus }
{
    (mstatus & (mstatus << 1) & (FS_UPPER | VS_UPPER)) != 0
}

pub fn legalize_mstatus(v: u64, has_s: bool, has_fs: bool, has_vs: bool) -> u64
    ensures { result ≡ legal_mstatus has_s has_fs has_vs v }
{
    let w = legalize_mpp(v, has_s)
        & (bits::only(has_s, WRITTEN_WITH_S)
            | bits::only(has_fs, FS_FILTER)
            | bits::only(has_vs, VS_FILTER)
            | WRITTEN);
    w | UXL_64 | bits::only(has_s, SXL_64) | bits::only(is_dirty(w), SD_FILTER)
}

#[tactic(auto, unfolding(crate::specs::Status::read_sstatus))]
pub fn read_sstatus(mstatus: u64) -> u64
    ensures { result ≡ read_sstatus mstatus }
{
    bits::keep(mstatus, SSTATUS_FILTER)
}

#[tactic(auto, unfolding(crate::specs::Status::merged_sstatus))]
pub fn merge_sstatus(mstatus: u64, v: u64) -> u64
    ensures { result ≡ merged_sstatus mstatus v }
{
    bits::merge(mstatus, v, SSTATUS_FILTER)
}
