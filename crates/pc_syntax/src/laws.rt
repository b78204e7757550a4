// Laws of the definitions. The functions do nothing: their contracts are the laws.
ghost use Rattle.std.specs.Prelude.{◌≡◌};

use super::limits::{MAX_HEIGHT, MAX_SIZE, MAX_STAGE, MAX_VARIABLES};

/// The limits are these numbers.
pub fn limits_are()
    ensures stage { MAX_STAGE ≡ 63 }
    ensures variables { MAX_VARIABLES ≡ 32 }
    ensures height { MAX_HEIGHT ≡ 512 }
    ensures size { MAX_SIZE ≡ 1000000 }
{}
