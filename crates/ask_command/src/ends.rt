// How the faults of the readers end the reading of a query.
ghost use Rattle.std.specs.Prelude.{◌≡◌, ◌<◌, ◌^◌, length};
ghost use Rattle.pc_front.specs.Front.{fault_at};
ghost use Rattle.ask_command.specs.Denials.{moved_end, parse_end};

use pc_common::{FaultKind, InputFault, Place, Which};
use pc_front::FrontEnd;
use uspec_lexer::Tokens;
use uspec_parser::{MAX_OPENERS, ParseFault};

/// A fault of this file.
fn fault_in(file: Which, kind: FaultKind, place: Place) -> InputFault
    ensures { result ≡ fault_at file kind place }
{
    InputFault { file, place, kind }
}

/// An end with its fault told of this file.
pub(crate) fn move_end(file: Which, end: FrontEnd) -> FrontEnd
    ensures { result ≡ moved_end file end }
{
    match end {
        FrontEnd::Refused(fault) => FrontEnd::Refused(fault_in(file, fault.kind, fault.place)),
        FrontEnd::Memory => FrontEnd::Memory,
    }
}

/// The first fault of a query whose tokens have no tree. The parser tells the number of a token, and the token's place
/// is found here.
pub(crate) fn no_tree(bytes: &[u8], tokens: &Tokens<'_>, fault: ParseFault) -> FrontEnd
    requires { length bytes.now < 2 ^ 32 }
    ensures { result ≡ parse_end bytes.now tokens.now fault }
{
    match fault {
        ParseFault::Syntax(k) => FrontEnd::Refused(fault_in(
            Which::Query,
            FaultKind::Syntax,
            tokens.place(bytes, k),
        )),
        ParseFault::Depth(k) => {
            let limit = u64::from(MAX_OPENERS);
            FrontEnd::Refused(fault_in(
                Which::Query,
                FaultKind::Depth { limit },
                tokens.place(bytes, k),
            ))
        }
        ParseFault::Memory => FrontEnd::Memory,
    }
}
