ghost use Rattle.std.specs.Prelude.{◌≡◌, IfOk};
ghost use Rattle.uspec_parser.specs.Levels.{level_of};
ghost use Rattle.ll_grammar.specs.Predictions.{IsPush};
ghost use Rattle.uspec_parser.specs.Phrases.{rules as rules_spec, follow as follow_spec, is_predictable, has_texts as texts_spec};

use self::Phrase::*;
use super::level::{Level, MAX_OPENERS};
use super::terminal::Terminal::{self, *};
use ll_grammar::{Grammar, Prediction, Symbol, push};
use pc_common::Memory;

/// The phrases of the model language: the parts of its grammar.
#[derive(Clone, Copy)]
pub(crate) enum Phrase {
    /// The stages, axioms and macros of a model.
    Items,
    Parameters,
    Label,
    /// An operand and what follows it in its list, of this level; this many openers are open at its next token.
    Operand(Level, u8),
    /// What follows an operand in a list of this level.
    More(Level),
    Arguments,
    Argument,
    Node,
    /// A stage, or a core and a stage.
    Location,
    Edge,
    /// An edge's label and colour, with the commas before them.
    Labels,
    SecondLabel,
    SortWord,
    /// What follows the `[` of a list of nodes, or a `;` in it.
    Nodes,
    /// What follows a node in a list.
    MoreNodes,
    Edges,
    MoreEdges,
}

/// What waits on the recogniser's stack.
type Waiting = Symbol<Terminal, Phrase>;

impl Grammar<Terminal> for Phrase {
    ghost rules = { rules_spec };

    ghost follow = { follow_spec };

    ghost predictable = { is_predictable };

    ghost has_texts = { texts_spec };

    fn is_nullable(self) -> bool {
        matches!(
            self,
            Items | Parameters | More(_) | Arguments | Labels | SecondLabel
        )
    }

    fn push(
        self,
        class: Terminal,
        stack: &mut Vec<Symbol<Terminal, Phrase>>,
    ) -> Result<Prediction, Memory> {
        match self {
            Items => push_items(class, stack),
            Parameters => push_parameters(class, stack),
            Label => push_label(class, stack),
            Operand(level, opened) => push_operand(level, opened, class, stack),
            More(level) => push_more(level, class, stack),
            Arguments => push_arguments(class, stack),
            Argument => push_argument(class, stack),
            Node => push_node(class, stack),
            Location => push_location(class, stack),
            Edge => push_edge(class, stack),
            Labels => push_labels(class, stack),
            SecondLabel => push_second_label(class, stack),
            SortWord => push_sort_word(class, stack),
            Nodes => push_nodes(class, stack),
            MoreNodes => push_more_nodes(class, stack),
            Edges => push_edges(class, stack),
            MoreEdges => push_more_edges(class, stack),
        }
    }
}

/// A formula within this many openers.
fn formula_within(opened: u8) -> Phrase
    ensures { result ≡ Phrase.Operand (level_of opened) opened }
{
    Operand(Level::new(opened), opened)
}

fn push_items(class: Terminal, stack: &mut Vec<Waiting>) -> Result<Prediction, Memory>
    ensures { IfOk result (IsPush rules_spec Phrase.Items class stack.old.items stack.new.items) }
{
    match class {
        StageName => push!(stack; Number Quoted Dot [Items]),
        Axiom => push!(stack; [Label] Colon [formula_within(0)] Dot [Items]),
        DefineMacro => push!(stack; Quoted [Parameters] Colon [formula_within(0)] Dot [Items]),
        _ => Ok(Prediction::Absent),
    }
}

fn push_parameters(class: Terminal, stack: &mut Vec<Waiting>) -> Result<Prediction, Memory>
    ensures { IfOk result (IsPush rules_spec Phrase.Parameters class stack.old.items stack.new.items) }
{
    match class {
        Quoted => push!(stack; [Parameters]),
        _ => Ok(Prediction::Absent),
    }
}

fn push_label(class: Terminal, stack: &mut Vec<Waiting>) -> Result<Prediction, Memory>
    ensures { IfOk result (IsPush rules_spec Phrase.Label class stack.old.items stack.new.items) }
{
    match class {
        Quoted | Text => push!(stack;),
        _ => Ok(Prediction::Absent),
    }
}

fn push_operand(
    level: Level,
    opened: u8,
    class: Terminal,
    stack: &mut Vec<Waiting>,
) -> Result<Prediction, Memory>
    ensures { IfOk result (IsPush rules_spec (Phrase.Operand level opened) class stack.old.items stack.new.items) }
{
    match class {
        Open | Not | Forall | Exists if opened >= MAX_OPENERS => Ok(Prediction::Deep),
        OneEdge => push!(stack; [Edge] [More(level)]),
        EdgeList => push!(stack; OpenBracket [Edges] [More(level)]),
        OneNode => push!(stack; [Node] [More(level)]),
        NodeList => push!(stack; OpenBracket [Nodes] [More(level)]),
        ExpandMacro => push!(stack; Name [Arguments] [More(level)]),
        Name => push!(stack; [Arguments] [More(level)]),
        Open => push!(stack; [formula_within(opened + 1)] Close [More(level)]),
        Not => push!(stack; [Operand(level, opened + 1)]),
        Forall | Exists => push!(stack; [SortWord] Quoted Comma [formula_within(opened + 1)]),
        _ => Ok(Prediction::Absent),
    }
}

fn push_more(level: Level, class: Terminal, stack: &mut Vec<Waiting>) -> Result<Prediction, Memory>
    ensures { IfOk result (IsPush rules_spec (Phrase.More level) class stack.old.items stack.new.items) }
{
    match class {
        And if level.at_and >= MAX_OPENERS => Ok(Prediction::Deep),
        Or if level.at_or >= MAX_OPENERS => Ok(Prediction::Deep),
        Implies if level.at_implies >= MAX_OPENERS => Ok(Prediction::Deep),
        And => push!(stack; [Operand(level.deepen_and(), level.at_and + 1)]),
        Or => push!(stack; [Operand(level.deepen_or(), level.at_or + 1)]),
        Implies => push!(stack; [Operand(level.deepen_implies(), level.at_implies + 1)]),
        _ => Ok(Prediction::Absent),
    }
}

fn push_arguments(class: Terminal, stack: &mut Vec<Waiting>) -> Result<Prediction, Memory>
    ensures { IfOk result (IsPush rules_spec Phrase.Arguments class stack.old.items stack.new.items) }
{
    match class {
        Name | Number => push!(stack; [Arguments]),
        _ => Ok(Prediction::Absent),
    }
}

fn push_argument(class: Terminal, stack: &mut Vec<Waiting>) -> Result<Prediction, Memory>
    ensures { IfOk result (IsPush rules_spec Phrase.Argument class stack.old.items stack.new.items) }
{
    match class {
        Name | Number => push!(stack;),
        _ => Ok(Prediction::Absent),
    }
}

fn push_node(class: Terminal, stack: &mut Vec<Waiting>) -> Result<Prediction, Memory>
    ensures { IfOk result (IsPush rules_spec Phrase.Node class stack.old.items stack.new.items) }
{
    match class {
        Open => push!(stack; Name Comma [Location] Close),
        _ => Ok(Prediction::Absent),
    }
}

fn push_location(class: Terminal, stack: &mut Vec<Waiting>) -> Result<Prediction, Memory>
    ensures { IfOk result (IsPush rules_spec Phrase.Location class stack.old.items stack.new.items) }
{
    match class {
        Name => push!(stack;),
        Open => push!(stack; [Argument] Comma Name Close),
        _ => Ok(Prediction::Absent),
    }
}

fn push_edge(class: Terminal, stack: &mut Vec<Waiting>) -> Result<Prediction, Memory>
    ensures { IfOk result (IsPush rules_spec Phrase.Edge class stack.old.items stack.new.items) }
{
    match class {
        Open => push!(stack; [Node] Comma [Node] [Labels] Close),
        _ => Ok(Prediction::Absent),
    }
}

fn push_labels(class: Terminal, stack: &mut Vec<Waiting>) -> Result<Prediction, Memory>
    ensures { IfOk result (IsPush rules_spec Phrase.Labels class stack.old.items stack.new.items) }
{
    match class {
        Comma => push!(stack; [Label] [SecondLabel]),
        _ => Ok(Prediction::Absent),
    }
}

fn push_second_label(class: Terminal, stack: &mut Vec<Waiting>) -> Result<Prediction, Memory>
    ensures { IfOk result (IsPush rules_spec Phrase.SecondLabel class stack.old.items stack.new.items) }
{
    match class {
        Comma => push!(stack; [Label]),
        _ => Ok(Prediction::Absent),
    }
}

fn push_sort_word(class: Terminal, stack: &mut Vec<Waiting>) -> Result<Prediction, Memory>
    ensures { IfOk result (IsPush rules_spec Phrase.SortWord class stack.old.items stack.new.items) }
{
    match class {
        Microop | Core => push!(stack;),
        _ => Ok(Prediction::Absent),
    }
}

fn push_nodes(class: Terminal, stack: &mut Vec<Waiting>) -> Result<Prediction, Memory>
    ensures { IfOk result (IsPush rules_spec Phrase.Nodes class stack.old.items stack.new.items) }
{
    match class {
        CloseBracket => push!(stack;),
        Open => push!(stack; Name Comma [Location] Close [MoreNodes]),
        _ => Ok(Prediction::Absent),
    }
}

fn push_more_nodes(class: Terminal, stack: &mut Vec<Waiting>) -> Result<Prediction, Memory>
    ensures { IfOk result (IsPush rules_spec Phrase.MoreNodes class stack.old.items stack.new.items) }
{
    match class {
        CloseBracket => push!(stack;),
        Semicolon => push!(stack; [Nodes]),
        _ => Ok(Prediction::Absent),
    }
}

fn push_edges(class: Terminal, stack: &mut Vec<Waiting>) -> Result<Prediction, Memory>
    ensures { IfOk result (IsPush rules_spec Phrase.Edges class stack.old.items stack.new.items) }
{
    match class {
        CloseBracket => push!(stack;),
        Open => push!(stack; [Node] Comma [Node] [Labels] Close [MoreEdges]),
        _ => Ok(Prediction::Absent),
    }
}

fn push_more_edges(class: Terminal, stack: &mut Vec<Waiting>) -> Result<Prediction, Memory>
    ensures { IfOk result (IsPush rules_spec Phrase.MoreEdges class stack.old.items stack.new.items) }
{
    match class {
        CloseBracket => push!(stack;),
        Semicolon => push!(stack; [Edges]),
        _ => Ok(Prediction::Absent),
    }
}
