// Laws of the definitions in specs/. Each function does nothing: its contract is the law.
ghost use Rattle.x86_litmus.specs.Laws.{HasCaseOrFault, HasOneCase, HasOneFault, ListingExcludesFault};

/// Bytes say a case or have a first fault.
pub fn case_or_fault(bytes: &[u8])
    ensures { HasCaseOrFault bytes.now }
{}

/// Bytes say one case at most.
pub fn one_case(bytes: &[u8])
    ensures { HasOneCase bytes.now }
{}

/// Bytes have one first fault at most.
pub fn one_fault(bytes: &[u8])
    ensures { HasOneFault bytes.now }
{}

/// Bytes that say a case have no fault.
pub fn no_fault(bytes: &[u8])
    ensures { ListingExcludesFault bytes.now }
{}
