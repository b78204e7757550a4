ghost use Rattle.std.specs.Prelude.{◌≡◌, ◌≤◌, ◌↔◌, List, IsTrue, IfOk, OnOk, length};
ghost use Rattle.uspec_parser.specs.Terminals.{Lexeme};
ghost use Rattle.uspec_parser.specs.Descent.{next, begins_argument, behind, argument as argument_spec, Arguments, core_by, stage_by, behind_location_by, node as node_spec, behind_node, behind_label, edge as edge_spec, behind_edge, behind_semicolon, Elements};

use super::cursor::Cursor;
use super::terminal::Terminal;
use pc_common::{Listed, Memory, Shared};
use pc_syntax::{Arg, Args, EdgeTerm, NodeTerm, Word};
use std::alloc::Global;

impl Cursor<'_> {
    pub(crate) fn is_next(&self, terminal: Terminal) -> bool
        ensures { IsTrue result ↔ (next self.now ≡ terminal) }
    {
        self.next() == terminal
    }

    fn is_argument_next(&self) -> bool
        ensures { result ≡ begins_argument (next self.now) }
    {
        matches!(self.next(), Terminal::Name | Terminal::Number)
    }

    fn argument(&self, alloc: Global) -> Result<Arg, Memory>
        ensures { IfOk result (λ a. a ≡ argument_spec self.now) }
    {
        match self.next() {
            Terminal::Number => {
                let (value, at) = self.number();
                Ok(Arg::Number(value, at))
            }
            _ => Ok(Arg::Word(self.word(alloc)?)),
        }
    }

    /// Reads arguments up to the first token that is none.
    pub(crate) fn arguments(&mut self, alloc: Global) -> Result<Args, Memory>
        ensures { IfOk result (λ args. Arguments self.old args self.new) }
    {
        let mut args = Listed::new(alloc);
        while self.is_argument_next() {
            args.push(self.argument(alloc)?)?;
            self.skip();
        }
        Shared::from_listed(args)
    }

    /// Reads a node's core, if it has one, and its stage.
    fn location(&mut self, alloc: Global) -> Result<(Option<Arg>, Word), Memory>
        ensures core { IfOk result (λ l. l.0 ≡ core_by (next self.old) self.old) }
        ensures stage { IfOk result (λ l. l.1 ≡ stage_by (next self.old) self.old) }
        ensures rest { OnOk result (self.new ≡ behind_location_by (next self.old) self.old) }
    {
        match self.next() {
            Terminal::Open => {
                self.skip();
                let core = self.argument(alloc)?;
                self.skip();
                self.skip();
                let stage = self.word(alloc)?;
                self.skip();
                self.skip();
                Ok((Some(core), stage))
            }
            _ => {
                let stage = self.word(alloc)?;
                self.skip();
                Ok((None, stage))
            }
        }
    }

    pub(crate) fn node(&mut self, alloc: Global) -> Result<NodeTerm, Memory>
        ensures value { IfOk result (λ n. n ≡ node_spec self.old) }
        ensures rest { OnOk result (self.new ≡ behind_node self.old) }
    {
        self.skip();
        let op = self.word(alloc)?;
        self.skip();
        self.skip();
        let (core, stage) = self.location(alloc)?;
        self.skip();
        Ok(NodeTerm { op, core, stage })
    }

    /// Passes over an edge's label or colour, if one comes next.
    fn label(&mut self)
        ensures { self.new ≡ behind_label self.old }
    {
        match self.next() {
            Terminal::Comma => {
                self.skip();
                self.skip();
            }
            _ => {}
        }
    }

    pub(crate) fn edge(&mut self, alloc: Global) -> Result<EdgeTerm, Memory>
        ensures value { IfOk result (λ e. e ≡ edge_spec self.old) }
        ensures rest { OnOk result (self.new ≡ behind_edge self.old) }
    {
        self.skip();
        let from = self.node(alloc)?;
        self.skip();
        let to = self.node(alloc)?;
        self.label();
        self.label();
        self.skip();
        Ok(EdgeTerm { from, to })
    }

    fn semicolon(&mut self)
        ensures { self.new ≡ behind_semicolon self.old }
    {
        match self.next() {
            Terminal::Semicolon => self.skip(),
            _ => {}
        }
    }

    /// Reads the elements of a list whose `[` is read already, and its `]`.
    pub(crate) fn elements<E: Element>(&mut self, alloc: Global) -> Result<Shared<E>, Memory>
        ensures { IfOk result (λ es. Elements E.one E.behind_one self.old es self.new) }
    {
        let mut elements = Listed::new(alloc);
        while self.is_next(Terminal::Open) {
            elements.push(E::read(self, alloc)?)?;
            self.semicolon();
        }
        self.skip();
        Shared::from_listed(elements)
    }
}

/// What a list of a formula may have: nodes, or edges.
pub(crate) trait Element: Drop {
    /// The element that begins the tokens.
    ghost one: { List Lexeme → Self };

    /// The tokens after it.
    ghost behind_one: { List Lexeme → List Lexeme };

    fn read(cursor: &mut Cursor<'_>, alloc: Global) -> Result<Self, Memory>
        ensures value { IfOk result (λ e. e ≡ one cursor.old) }
        ensures rest { OnOk result (cursor.new ≡ behind_one cursor.old) }
        ensures shorter { OnOk result (length cursor.new ≤ length (behind cursor.old)) };
}

impl Element for NodeTerm {
    ghost one = { node_spec };

    ghost behind_one = { behind_node };

    fn read(cursor: &mut Cursor<'_>, alloc: Global) -> Result<NodeTerm, Memory> {
        cursor.node(alloc)
    }
}

impl Element for EdgeTerm {
    ghost one = { edge_spec };

    ghost behind_one = { behind_edge };

    fn read(cursor: &mut Cursor<'_>, alloc: Global) -> Result<EdgeTerm, Memory> {
        cursor.edge(alloc)
    }
}
