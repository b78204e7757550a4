ghost use Rattle.std.specs.Prelude.{◌+◌, ◌<◌};
ghost use Rattle.pc_common.specs.declared.limits.TheConstants.{MAX_CORE, MAX_OPS};
ghost use Rattle.pc_syntax.specs.declared.limits.TheConstants.{MAX_STAGE};

/// A node: a micro-op by its place in test order, a core and a stage's number, each from 0 to 63.
#[derive(Clone, Copy, PartialEq, Eq, Hash)]
pub struct NodeKey {
    pub op: u8,
    pub core: u8,
    pub stage: u8,
    pub ghost in_range: { (op < MAX_OPS) × (core < MAX_CORE + 1) × (stage < MAX_STAGE + 1) },
}
