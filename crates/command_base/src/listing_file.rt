ghost use Rattle.x86_litmus.specs.Answer.{CaseOf};
ghost use Rattle.command_base.specs.Listings.{IsFirstListingFault};

use super::listing_parts::read_listing_parts;
use super::second_file::SecondFile;
use pc_front::FrontEnd;
use pc_ground::Parts;
use std::alloc::Global;

/// A listing, in the form of docs/tests.md.
pub struct ListingFile;

impl SecondFile for ListingFile {
    ghost case_of = { λ bytes c. CaseOf bytes c };

    ghost first_fault = { λ model bytes fault. IsFirstListingFault model bytes fault };

    fn parts(alloc: Global, model: &[u8], bytes: &[u8]) -> Result<Parts, FrontEnd> {
        read_listing_parts(alloc, model, bytes)
    }
}
