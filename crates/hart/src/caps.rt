// The capabilities: what they say of the hart, the words legalized under them, and which are legal.
ghost use Rattle.std.specs.Prelude.{◌≡◌, ◌==◌};
ghost use Rattle.hart.specs.Caps.{has_c, has_f, has_s as has_s_of, has_v, has_zfinx, has_sstc, has_zicbom, has_zicboz, has_svpbmt, has_fs, has_vs, mstatus_of, sstatus_of, epc_of, menvcfg_of, senvcfg_of, legal_misa, legal_interrupts, legal_flags, legal_mvendorid, legal_caps};

use crate::table::envcfg_bits;

// MXL, U, N and H: 64 bits, with U, without N and H.
const MISA_TESTED: u64 = 0xC000_0000_0010_2080;

const MISA_LEGAL: u64 = 0x8000_0000_0010_0000;

// The flags that any hart may have, Zfinx, Zicbom and Zicboz, and those that go with S, Sstc and
// Svpbmt.
const FLAGS: u64 = 0xD;

const FLAGS_WITH_S: u64 = 0x12;

// The interrupts that any hart may have, those that a hart with S has, and the one that it may
// have.
const INTERRUPTS: u64 = 0x888;

const INTERRUPTS_OF_S: u64 = 0x222;

const LCOFI: u64 = 0x2000;

// The bits of menvcfg that senvcfg has too: all but PBMTE and STCE.
const SENVCFG_FILTER: u64 = 0xF1;

#[derive(Clone, Copy)]
pub struct Caps {
    pub misa: u64,
    pub interrupts: u64,
    pub highest: u64,
    pub flags: u64,
    pub mhartid: u64,
    pub mvendorid: u64,
    pub marchid: u64,
    pub mimpid: u64,
    pub mconfigptr: u64,
}

// The words of the image, by number.
#[derive(Clone, Copy, Debug, PartialEq, Eq)]
pub enum CapsWord {
    Misa,
    Interrupts,
    Highest,
    Flags,
    Mhartid,
    Mvendorid,
    Marchid,
    Mimpid,
    Mconfigptr,
}

impl Caps {
    pub fn has_c(self) -> bool
        ensures { result ≡ has_c self }
    {
        bits::bit(self.misa, 2)
    }

    pub fn has_f(self) -> bool
        ensures { result ≡ has_f self }
    {
        bits::bit(self.misa, 5)
    }

    pub fn has_s(self) -> bool
        ensures { result ≡ has_s_of self }
    {
        bits::bit(self.misa, 18)
    }

    pub fn has_v(self) -> bool
        ensures { result ≡ has_v self }
    {
        bits::bit(self.misa, 21)
    }

    pub fn has_zfinx(self) -> bool
        ensures { result ≡ has_zfinx self }
    {
        bits::bit(self.flags, 0)
    }

    pub fn has_sstc(self) -> bool
        ensures { result ≡ has_sstc self }
    {
        bits::bit(self.flags, 1)
    }

    pub fn has_zicbom(self) -> bool
        ensures { result ≡ has_zicbom self }
    {
        bits::bit(self.flags, 2)
    }

    pub fn has_zicboz(self) -> bool
        ensures { result ≡ has_zicboz self }
    {
        bits::bit(self.flags, 3)
    }

    pub fn has_svpbmt(self) -> bool
        ensures { result ≡ has_svpbmt self }
    {
        bits::bit(self.flags, 4)
    }

    // The fields of mstatus that tell of a unit: FS of floating point, VS of vectors.
    fn has_fs(self) -> bool
        ensures { result ≡ has_fs self }
    {
        (self.has_f() | self.has_s()) & !self.has_zfinx()
    }

    fn has_vs(self) -> bool
        ensures { result ≡ has_vs self }
    {
        self.has_v() | self.has_s()
    }

    #[tactic(auto, unfolding(crate::specs::Caps::mstatus_of))]
    pub fn legalize_mstatus(self, v: u64) -> u64
        ensures { result ≡ mstatus_of self v }
    {
        rules::status::legalize_mstatus(v, self.has_s(), self.has_fs(), self.has_vs())
    }

    pub fn write_sstatus(self, mstatus: u64, v: u64) -> u64
        ensures { result ≡ sstatus_of self mstatus v }
    {
        self.legalize_mstatus(rules::status::merge_sstatus(mstatus, v))
    }

    // mepc and sepc.
    pub fn write_epc(self, old: u64, v: u64) -> u64
        ensures { result ≡ epc_of self old v }
    {
        rules::addresses::write_epc(old, v, self.highest, self.has_c())
    }

    pub fn legalize_menvcfg(self, v: u64) -> u64
        ensures { result ≡ menvcfg_of self v }
    {
        rules::config::legalize_envcfg(v, envcfg_bits(self.flags))
    }

    pub fn legalize_senvcfg(self, v: u64) -> u64
        ensures { result ≡ senvcfg_of self v }
    {
        rules::config::legalize_envcfg(v, envcfg_bits(self.flags) & SENVCFG_FILTER)
    }

    // The bits at fault of each word that has a condition: of a legal one there are none. Whether
    // there is S is told, so that the compiler knows it; as an argument, since the checks of crate
    // fault know it only when they run.
    pub fn misa_faults(self) -> u64
        ensures { (result == 0) ≡ legal_misa self }
    {
        (self.misa & MISA_TESTED) ^ MISA_LEGAL
    }

    pub fn interrupts_faults(self, has_s: bool) -> u64
        requires { has_s_of self ≡ has_s }
        ensures { (result == 0) ≡ legal_interrupts self }
    {
        (self.interrupts ^ bits::only(has_s, INTERRUPTS_OF_S))
            & !(INTERRUPTS | bits::only(has_s, LCOFI))
    }

    pub fn flags_faults(self, has_s: bool) -> u64
        requires { has_s_of self ≡ has_s }
        ensures { (result == 0) ≡ legal_flags self }
    {
        (self.flags & !(FLAGS | bits::only(has_s, FLAGS_WITH_S)))
            | (self.flags & (self.misa >> 5) & 1)
    }

    pub fn mvendorid_faults(self) -> u64
        ensures { (result == 0) ≡ legal_mvendorid self }
    {
        self.mvendorid >> 32
    }

    // Those of all words.
    #[tactic(auto, unfolding(crate::specs::Caps::legal_caps), using(bits::proofs::Zero::joined))]
    fn faults(self, has_s: bool) -> u64
        requires { has_s_of self ≡ has_s }
        ensures { (result == 0) ≡ legal_caps self }
    {
        self.misa_faults()
            | self.interrupts_faults(has_s)
            | self.flags_faults(has_s)
            | self.mvendorid_faults()
    }

    pub fn legal(self) -> bool
        ensures { result ≡ legal_caps self }
    {
        if self.has_s() {
            self.faults(true) == 0
        } else {
            self.faults(false) == 0
        }
    }
}
