// The privilege mode. It is a number and no enum, since a record can hold any: `exists` tells which
// are modes. Code cites the numbers as `Mode::M`, a contract as `Mode.M`. Definitions have names of
// their own for them, in hart/specs/Modes.antt: `exists` says that the two agree.
ghost use Rattle.std.specs.Prelude.{◌≡◌};
ghost use Rattle.hart.specs.Modes.{mode_u, mode_s, mode_m, is_mode};

#[derive(Clone, Copy)]
pub struct Mode {
    pub number: u64,
}

impl Mode {
    pub const U: u64 = 0;

    pub const S: u64 = 1;

    pub const M: u64 = 3;

    // Whether a hart with or without S has this mode.
    #[tactic(auto, unfolding(crate::specs::Modes::is_mode))]
    pub fn exists(self, has_s: bool) -> bool
        ensures value { result ≡ is_mode has_s self.number }
        ensures numbers { (mode_u ≡ Mode.U) × (mode_s ≡ Mode.S) × (mode_m ≡ Mode.M) }
    {
        let n = self.number;
        (n == Mode::U) | ((n == Mode::S) & has_s) | (n == Mode::M)
    }
}
