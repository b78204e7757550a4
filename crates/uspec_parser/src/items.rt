ghost use Rattle.std.specs.Prelude.{◌≡◌, ◌++◌, List, true, IsTrue, IfOk, OnOk, map};
ghost use Rattle.pc_syntax.specs.declared.model.StageItem.{StageItem as PlainStage};
ghost use Rattle.pc_syntax.specs.declared.term.Word.{Word};
ghost use Rattle.pc_syntax.specs.Written.{WrittenItem, written_item, axiom_};
ghost use Rattle.uspec_parser.specs.Terminals.{Lexeme, is_placed};
ghost use Rattle.uspec_parser.specs.Operands.{Operands, formula_of as formula_spec};
ghost use Rattle.uspec_parser.specs.Descent.{next, behind, after_tokens, place, is_quoted, Parameters, begins_item, stage_item, macro_item, Row, Item as ItemLine, Items as ItemLines};

use super::cursor::Cursor;
use super::terminal::Terminal;
use pc_common::{Listed, Memory, Shared};
use pc_syntax::{Item, Items, ModelFile, StageItem, StageItems, Words};
use std::alloc::Global;

impl Cursor<'_> {
    fn is_parameter_next(&self) -> bool
        ensures { result ≡ is_quoted (next self.now) }
    {
        matches!(self.next(), Terminal::Quoted)
    }

    /// Reads the names of parameters up to the first token that is none.
    fn parameters(&mut self, alloc: Global) -> Result<Words, Memory>
        ensures { IfOk result (λ ws. Parameters self.old ws self.new) }
    {
        let mut words = Listed::new(alloc);
        while self.is_parameter_next() {
            words.push(self.word(alloc)?)?;
            self.skip();
        }
        Shared::from_listed(words)
    }

    fn stage(&mut self, alloc: Global) -> Result<StageItem, Memory>
        ensures value { IfOk result (λ s. s ≡ stage_item self.old) }
        ensures rest { OnOk result (self.new ≡ after_tokens 4 self.old) }
    {
        self.skip();
        let (number, number_at) = self.number();
        self.skip();
        let name = self.word(alloc)?;
        self.skip();
        self.skip();
        Ok(StageItem {
            number,
            number_at,
            name,
        })
    }

    fn axiom(&mut self, alloc: Global) -> Result<Item, Memory>
        requires { IsTrue (is_placed (next self.old)) }
        ensures { IfOk result (λ i. (l : Operands) × (rest : List Lexeme)
            × Row (after_tokens 3 self.old) l rest
            × (written_item i ≡ axiom_ (place self.old) (formula_spec l)) × (self.new ≡ behind rest)) }
    {
        let at = self.place();
        self.skip();
        self.skip();
        self.skip();
        let body = self.formula(alloc)?;
        self.skip();
        Ok(Item::Axiom { at, body })
    }

    fn macro_definition(&mut self, alloc: Global) -> Result<Item, Memory>
        ensures { IfOk result (λ i. (ws : List Word) × (between : List Lexeme) × (l : Operands) × (rest : List Lexeme)
            × Parameters (after_tokens 2 self.old) ws between × Row (behind between) l rest
            × (written_item i ≡ macro_item self.old ws l) × (self.new ≡ behind rest)) }
    {
        self.skip();
        let name = self.word(alloc)?;
        self.skip();
        let parameters = self.parameters(alloc)?;
        self.skip();
        let body = self.formula(alloc)?;
        self.skip();
        Ok(Item::Macro {
            name,
            parameters,
            body,
        })
    }

    fn is_item_next(&self) -> bool
        ensures { result ≡ begins_item (next self.now) }
    {
        matches!(
            self.next(),
            Terminal::StageName | Terminal::Axiom | Terminal::DefineMacro
        )
    }

    /// Reads one item into the file.
    fn item(&mut self, alloc: Global, file: &mut ModelFile) -> Result<(), Memory>
        requires { begins_item (next self.old) ≡ true }
        ensures { OnOk result ((ss : List PlainStage) × (is : List WrittenItem) × ItemLine self.old ss is self.new
            × (file.new.stages ≡ file.old.stages ++ ss)
            × (map written_item file.new.items ≡ map written_item file.old.items ++ is)) }
    {
        match self.next() {
            Terminal::StageName => {
                let stage = self.stage(alloc)?;
                file.stages.push(stage)?;
                Ok(())
            }
            Terminal::Axiom => {
                let axiom = self.axiom(alloc)?;
                file.items.push(axiom)?;
                Ok(())
            }
            _ => {
                let definition = self.macro_definition(alloc)?;
                file.items.push(definition)?;
                Ok(())
            }
        }
    }

    /// Reads items to the tokens' end.
    pub(crate) fn model(&mut self, alloc: Global) -> Result<ModelFile, Memory>
        ensures { IfOk result (λ m. ItemLines self.old m.stages (map written_item m.items)) }
    {
        let mut file = ModelFile {
            stages: StageItems::new(alloc),
            items: Items::new(alloc),
        };
        while self.is_item_next() {
            self.item(alloc, &mut file)?;
        }
        Ok(file)
    }
}
