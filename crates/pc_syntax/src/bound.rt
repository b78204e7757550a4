use super::limits::MAX_VARIABLES;
use arrayvec::ArrayVec;

/// What a slot stands for.
#[derive(Clone, Copy)]
pub enum Bound {
    /// A micro-op by its place in test order, from 0.
    Op(u8),
    /// A core's number.
    Core(u8),
}

/// What fills the room of an environment that isn't in use. `ArrayVec` asks for a default; no answer depends on it.
impl Default for Bound {
    ghost use Rattle.std.specs.Prelude.{◌≡◌};
    ghost use Rattle.pc_syntax.specs.declared.bound.Bound.TheVariants.{Core};

    ghost is_default = { λ b. b ≡ Core 0 };

    fn default() -> Self {
        Bound::Core(0)
    }
}

/// What the slots stand for, from the outermost binding.
pub type Env = ArrayVec<Bound, MAX_VARIABLES>;
