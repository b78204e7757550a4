// Laws of the definitions in specs/. Each function does nothing: its contract is the law.
ghost use Rattle.std.specs.Prelude.{◌≡◌};
ghost use Rattle.pc_front.specs.Laws.{HasModelOrFault, HasOneModel, HasOneModelFault, ModelExcludesFault};

use super::limits::MAX_FILE;

/// The limit is this number.
pub fn limits_are()
    ensures { MAX_FILE ≡ 1048576 }
{}

/// Bytes say a whole model without a fault, or have a first fault.
pub fn model_or_fault(bytes: &[u8])
    ensures { HasModelOrFault bytes.now }
{}

/// Bytes say one whole model at most.
pub fn one_model(bytes: &[u8])
    ensures { HasOneModel bytes.now }
{}

/// Bytes have one first fault at most as a whole model.
pub fn one_model_fault(bytes: &[u8])
    ensures { HasOneModelFault bytes.now }
{}

/// Bytes that say a whole model without a fault have no first fault.
pub fn no_model_fault(bytes: &[u8])
    ensures { ModelExcludesFault bytes.now }
{}
