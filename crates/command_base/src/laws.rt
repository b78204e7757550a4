// Laws of the definitions in specs/. Each function does nothing: its contract is the law.
ghost use Rattle.std.specs.Prelude.{List, ℕ};
ghost use Rattle.litmus_reader.specs.Answer.{CaseOf};
ghost use Rattle.x86_litmus.specs.Answer.{CaseOf as ListingCaseOf};
ghost use Rattle.pc_front.specs.Front.{IsFirstFrontFault as IsTestFault};
ghost use Rattle.command_base.specs.Inputs.{Contents};
ghost use Rattle.command_base.specs.Listings.{IsFirstListingFault};
ghost use Rattle.command_base.specs.Laws.{HasOneFirstFault, HasCaseOrFault, HasOneCase, InputsExcludeFault, IsOneCommand};

/// A model's and a test's file have one first fault at most.
pub fn one_first_fault()
    ensures { (holds : Contents) → HasOneFirstFault CaseOf IsTestFault holds }
{}

/// A model's and a test's file that are read say a model and a case, or have a first fault.
pub fn case_or_first_fault()
    ensures { (holds : Contents) → HasCaseOrFault CaseOf IsTestFault holds }
{}

/// A model's and a test's file say one model and one case at most.
pub fn one_model_and_case()
    ensures { (holds : Contents) → HasOneCase CaseOf IsTestFault holds }
{}

/// A model's and a test's file that say a model and a case have no first fault.
pub fn no_first_fault()
    ensures { (holds : Contents) → InputsExcludeFault CaseOf IsTestFault holds }
{}

/// A model's and a listing's file have one first fault at most.
pub fn one_listing_fault()
    ensures { (holds : Contents) → HasOneFirstFault ListingCaseOf IsFirstListingFault holds }
{}

/// A model's and a listing's file that are read say a model and a case, or have a first fault.
pub fn listing_case_or_fault()
    ensures { (holds : Contents) → HasCaseOrFault ListingCaseOf IsFirstListingFault holds }
{}

/// A model's and a listing's file say one model and one case at most.
pub fn one_model_and_listing()
    ensures { (holds : Contents) → HasOneCase ListingCaseOf IsFirstListingFault holds }
{}

/// A model's and a listing's file that say a model and a case have no first fault.
pub fn no_listing_fault()
    ensures { (holds : Contents) → InputsExcludeFault ListingCaseOf IsFirstListingFault holds }
{}

/// Words are one command at most: the first word tells which.
pub fn one_command()
    ensures { (words : List (List ℕ)) → IsOneCommand words }
{}
