// How the fault of each reader ends the reading. Each becomes a `FrontEnd` here, so that a `?` hands it on.
ghost use Rattle.std.specs.Prelude.{◌≡◌, ◌<◌, ◌^◌, length};
ghost use Rattle.pc_front.specs.declared.model_front.FrontEnd.TheVariants.{Refused, Memory as no_memory};
ghost use Rattle.pc_common.specs.declared.fault.Which.TheVariants.{Model, Test};
ghost use Rattle.pc_front.specs.Front.{fault_at};
ghost use Rattle.pc_front.specs.Ends.{lexical_end, parse_end, macro_end, name_end, case_end};

use super::model_front::FrontEnd;
use litmus_reader::CaseFault;
use macro_expand::MacroFault;
use pc_common::{FaultKind, InputFault, Memory, Place, Which};
use scope_check::NameFault;
use uspec_lexer::{LexFault, Tokens};
use uspec_parser::{MAX_OPENERS, ParseFault};

impl From<Memory> for FrontEnd {
    ghost from_gives = { λ _ end. end ≡ no_memory };

    fn from(_: Memory) -> FrontEnd {
        FrontEnd::Memory
    }
}

/// This is a lexical fault of the model: the test's comes as a `CaseFault`.
impl From<LexFault> for FrontEnd {
    ghost from_gives = { λ fault end. end ≡ lexical_end fault };

    fn from(fault: LexFault) -> FrontEnd {
        match fault {
            LexFault::Lexical(place) => model_refusal(FaultKind::Lexical, place),
            LexFault::Memory => FrontEnd::Memory,
        }
    }
}

impl From<MacroFault> for FrontEnd {
    ghost from_gives = { λ fault end. end ≡ macro_end fault };

    fn from(fault: MacroFault) -> FrontEnd {
        match fault {
            MacroFault::Again { at, first, again } => {
                model_refusal(FaultKind::MacroAgain { first, again }, at)
            }
            MacroFault::ParameterAgain { at, first, again } => {
                model_refusal(FaultKind::ParameterAgain { first, again }, at)
            }
            MacroFault::Unknown { at } => model_refusal(FaultKind::MacroUnknown, at),
            MacroFault::Arguments { at, found, wanted } => {
                model_refusal(FaultKind::MacroArguments { found, wanted }, at)
            }
            MacroFault::TooDeep { at, limit } => model_refusal(FaultKind::TooDeep { limit }, at),
            MacroFault::TooBig { at, limit } => model_refusal(FaultKind::TooBig { limit }, at),
            MacroFault::Memory => FrontEnd::Memory,
        }
    }
}

impl From<NameFault> for FrontEnd {
    ghost from_gives = { λ fault end. end ≡ name_end fault };

    fn from(fault: NameFault) -> FrontEnd {
        match fault {
            NameFault::Unbound { at } => model_refusal(FaultKind::Unbound, at),
            NameFault::WrongSort { at } => model_refusal(FaultKind::WrongSort, at),
            NameFault::UnknownPredicate { at } => model_refusal(FaultKind::PredicateUnknown, at),
            NameFault::Arity { at, found, wanted } => {
                model_refusal(FaultKind::Arity { found, wanted }, at)
            }
            NameFault::UnknownStage { at } => model_refusal(FaultKind::StageUnknown, at),
            NameFault::CoreNumber { at, number } => model_refusal(
                FaultKind::CoreNumber { number },
                at,
            ),
            NameFault::TooManyVariables { at, limit } => {
                model_refusal(FaultKind::TooManyVariables { limit }, at)
            }
            NameFault::Memory => FrontEnd::Memory,
        }
    }
}

impl From<CaseFault> for FrontEnd {
    ghost from_gives = { λ fault end. end ≡ case_end fault };

    fn from(fault: CaseFault) -> FrontEnd {
        match fault {
            CaseFault::Lexical(place) => test_refusal(FaultKind::Lexical, place),
            CaseFault::Syntax(place) => test_refusal(FaultKind::Syntax, place),
            CaseFault::Content(kind, place) => test_refusal(kind, place),
            CaseFault::Memory => FrontEnd::Memory,
        }
    }
}

/// The first fault of a model whose tokens have no tree. The parser tells the number of a token, and the
/// token's place is found here.
pub(crate) fn parse_refusal(bytes: &[u8], tokens: &Tokens<'_>, fault: ParseFault) -> FrontEnd
    requires { length bytes.now < 2 ^ 32 }
    ensures { result ≡ parse_end bytes.now tokens.now fault }
{
    match fault {
        ParseFault::Syntax(k) => model_refusal(FaultKind::Syntax, tokens.place(bytes, k)),
        ParseFault::Depth(k) => {
            let limit = u64::from(MAX_OPENERS);
            model_refusal(FaultKind::Depth { limit }, tokens.place(bytes, k))
        }
        ParseFault::Memory => FrontEnd::Memory,
    }
}

/// The first fault of a model.
pub(crate) fn model_refusal(kind: FaultKind, place: Place) -> FrontEnd
    ensures { result ≡ Refused (fault_at Model kind place) }
{
    FrontEnd::Refused(InputFault {
        file: Which::Model,
        place,
        kind,
    })
}

/// The first fault of a test.
pub fn test_refusal(kind: FaultKind, place: Place) -> FrontEnd
    ensures { result ≡ Refused (fault_at Test kind place) }
{
    FrontEnd::Refused(InputFault {
        file: Which::Test,
        place,
        kind,
    })
}
