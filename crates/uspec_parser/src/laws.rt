// Laws of the definitions in specs/. Each function does nothing: its contract is the law.
ghost use Rattle.std.specs.Prelude.{◌≡◌, ◌↔◌};
ghost use Rattle.ll_grammar.specs.Texts.{IsText};
ghost use Rattle.ll_grammar.specs.FirstFault.{HasAnswer, HasOneAnswer};
ghost use Rattle.pc_syntax.specs.Written.{Written, WrittenModel};
ghost use Rattle.uspec_parser.specs.Operands.{Operands, IsSplit, formula_of};
ghost use Rattle.uspec_parser.specs.Syntax.{DerivesModel, DerivesFormula};
ghost use Rattle.uspec_parser.specs.Marks.{IsMarkedModel, IsMarkedFormula};
ghost use Rattle.uspec_parser.specs.Answers.{terminals};

use super::level::MAX_OPENERS;
use uspec_lexer::Tokens;

/// The limit is this number.
pub fn limits_are()
    ensures { MAX_OPENERS ≡ 128 }
{}

/// A list of operands has one split, and grouping makes it.
pub fn split_of_operands()
    ensures { (l : Operands) (w : Written) → IsSplit l w ↔ (w ≡ formula_of l) }
{}

/// No tokens have two trees as a model.
pub fn one_model_tree(tokens: &Tokens<'_>)
    ensures { (m n : WrittenModel) → DerivesModel tokens.now m → DerivesModel tokens.now n → m ≡ n }
{}

/// No tokens have two trees as a formula.
pub fn one_formula_tree(tokens: &Tokens<'_>)
    ensures { (v w : Written) → DerivesFormula tokens.now v → DerivesFormula tokens.now w → v ≡ w }
{}

/// Tokens have a tree as a model exactly if their terminals are those of a text.
pub fn model_texts(tokens: &Tokens<'_>)
    ensures { ((m : WrittenModel) × DerivesModel tokens.now m) ↔ IsText IsMarkedModel (terminals tokens.now) }
{}

/// Tokens have a tree as a formula exactly if their terminals are those of a text.
pub fn formula_texts(tokens: &Tokens<'_>)
    ensures { ((w : Written) × DerivesFormula tokens.now w) ↔ IsText IsMarkedFormula (terminals tokens.now) }
{}

/// Tokens have an answer as a model and one as a formula: they are accepted, or have a first fault.
pub fn some_answer(tokens: &Tokens<'_>)
    ensures model { HasAnswer IsMarkedModel (terminals tokens.now) }
    ensures formula { HasAnswer IsMarkedFormula (terminals tokens.now) }
{}

/// Tokens have no two answers as a model, and no two as a formula.
pub fn one_answer(tokens: &Tokens<'_>)
    ensures model { HasOneAnswer IsMarkedModel (terminals tokens.now) }
    ensures formula { HasOneAnswer IsMarkedFormula (terminals tokens.now) }
{}
