// Laws of the definitions. The functions do nothing: their contracts are the laws.
ghost use Rattle.std.specs.Prelude.{◌≡◌};

use super::limits::{MAX_CERTIFICATE, MAX_CORE, MAX_NODES, MAX_OPS};

/// The limits are these numbers.
pub fn limits_are()
    ensures core { MAX_CORE ≡ 63 }
    ensures ops { MAX_OPS ≡ 64 }
    ensures nodes { MAX_NODES ≡ 262144 }
    ensures certificate { MAX_CERTIFICATE ≡ 67108864 }
{}
