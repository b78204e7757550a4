// Laws of the definitions in specs/. Each function does nothing: its contract is the law.
ghost use Rattle.pc_syntax.specs.Written.{WrittenModel};
ghost use Rattle.ask_command.specs.Laws.{HasQueryOrFault, HasOneFormula, HasOneQueryFault, QueryExcludesFault};
ghost use Rattle.ask_command.specs.Words.{WordsAreTrue};

/// Bytes say a formula that may be asked of a model, or have a first fault as a query of it.
pub fn query_or_fault(bytes: &[u8])
    ensures { (m : WrittenModel) → HasQueryOrFault m bytes.now }
{}

/// Bytes say one formula at most.
pub fn one_query(bytes: &[u8])
    ensures { HasOneFormula bytes.now }
{}

/// Bytes have one first fault at most as a query of a model.
pub fn one_query_fault(bytes: &[u8])
    ensures { (m : WrittenModel) → HasOneQueryFault m bytes.now }
{}

/// Bytes that say a formula that may be asked of a model have no first fault.
pub fn no_query_fault(bytes: &[u8])
    ensures { (m : WrittenModel) → QueryExcludesFault m bytes.now }
{}

/// The word that two answers tell is true of the formula over the worlds in which the closed axioms are true.
pub fn words_are_true()
    ensures { WordsAreTrue }
{}
