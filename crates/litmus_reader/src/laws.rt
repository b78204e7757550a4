// Laws of the definitions in specs/. Each function does nothing: its contract is the law.
ghost use Rattle.litmus_reader.specs.Laws.{HasCaseOrFault, HasOneCase, HasOneFault, TestExcludesFault, HasFaultsWithin};

/// Bytes say a case or have a first fault.
pub fn case_or_fault(bytes: &[u8])
    ensures { HasCaseOrFault bytes.now }
{}

/// Bytes say one case at most.
pub fn one_case(bytes: &[u8])
    ensures { HasOneCase bytes.now }
{}

/// Bytes have one first fault at most.
pub fn one_fault(bytes: &[u8])
    ensures { HasOneFault bytes.now }
{}

/// Bytes that say a case have no fault.
pub fn no_fault(bytes: &[u8])
    ensures { TestExcludesFault bytes.now }
{}

/// A fault of the bytes stands at one of them, or at their end.
pub fn faults_within(bytes: &[u8])
    ensures { HasFaultsWithin bytes.now }
{}
