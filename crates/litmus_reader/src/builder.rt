ghost use Rattle.std.specs.Prelude.{◌≡◌, ◌≤◌, [], ◌∷◌, ◌++◌, List, length, map, vec_len, IfOk, IfErr, OnOk};
ghost use Rattle.pc_common.specs.Case.{Expectation};
ghost use Rattle.pc_common.specs.declared.place.Place.{Place as PlaceAt};
ghost use Rattle.pc_case.specs.Plain.{micro_op, dependency, expectation};
ghost use Rattle.pc_common.specs.declared.limits.TheConstants.{MAX_CORE, MAX_OPS};
ghost use Rattle.litmus_reader.specs.Items.{op_of, dependency_of, expectation_among, case_of};
ghost use Rattle.litmus_reader.specs.Content.{Never, AgainStated, ValueFault, AgainExpected, IsFaultOf, IsClean};
ghost use Rattle.litmus_reader.specs.Rows.{Answers};
ghost use Rattle.litmus_reader.specs.Lists.{case_by, AreLists};
ghost use Rattle.litmus_reader.specs.Builder.{stated_of, word_of, stated_expectations, HasLines, AddsMicroop, AddsRelationship, IsLineFault};
ghost use Rattle.litmus_reader.specs.declared.item.ValueLine.{ValueLine as ValueLineText};
ghost use Rattle.litmus_reader.specs.declared.item.Item.{Item as ItemText};

use super::content_fault::ContentFault;
use super::fault::CaseFault;
use super::item::{Action, Head, Item, Microop, Relationship, ValueLine};
use super::lists::CaseLists;
use super::marks::mark_fault;
use super::rows::{microop_fault, place_of, relationship_fault};
use super::values::Values;
use pc_case::{Access, Dependencies, Dependency, Expect, Op, OpId, Ops, StatedValues};
use pc_common::{FaultKind, Listed, Memory, Place, Value};
use std::alloc::Global;

/// An expectation, and where its word stands.
#[derive(Clone, Copy)]
pub(crate) struct StatedExpectation {
    pub(crate) expect: Expect,
    pub(crate) at: Place,
}

/// The case of the lines so far.
#[derive(Drop)]
pub(crate) struct CaseBuilder {
    pub(crate) heads: Vec<Head>,
    pub(crate) ops: Ops,
    pub(crate) dependencies: Dependencies,
    pub(crate) initial: Values,
    pub(crate) final_values: Values,
    pub(crate) expected: Option<StatedExpectation>,
}

fn op_from(microop: Microop) -> Op
    requires { microop.head.core.value ≤ MAX_CORE }
    ensures { micro_op result ≡ op_of microop }
{
    let (access, memop) = match microop.action {
        Action::Read(touch) => (Access::Read, Some(touch.memop())),
        Action::Write(touch) => (Access::Write, Some(touch.memop())),
        Action::Fence => (Access::Fence, None),
    };
    Op {
        id: OpId {
            g: microop.head.g.value,
            n: microop.head.n,
        },
        core: microop.head.core.value as u8,
        thread: microop.head.thread.value,
        types: microop.types,
        access,
        memop,
    }
}

#[tactic(auto, using(crate::proofs::BuilderFacts::place_in_within))]
fn dependency_from(heads: &[Head], relationship: Relationship) -> Dependency
    requires { length heads.now ≤ MAX_OPS }
    ensures { dependency result ≡ dependency_of heads.now relationship }
{
    Dependency {
        kind: relationship.kind,
        source: place_of(heads, relationship.source) as u8,
        target: place_of(heads, relationship.target) as u8,
    }
}

/// Which value of an address a line states.
#[derive(Clone, Copy)]
enum When {
    Initial,
    Final,
}

/// What is wrong where such a value is stated again.
fn again_kind(when: When, first: Value, again: Value) -> FaultKind
    ensures { result ≡ word_of when first again }
{
    match when {
        When::Initial => FaultKind::AgainInitial { first, again },
        When::Final => FaultKind::AgainFinal { first, again },
    }
}

fn again_fault(when: When, values: &Values, line: ValueLine) -> Option<ContentFault>
    ensures { (before : List ValueLineText) → values.now ≡ map stated_of before
        → Answers (AgainStated (word_of when) before line) result }
{
    match values.get(line.pa) {
        None => None,
        Some(first) => Some(ContentFault {
            kind: again_kind(when, first, line.value.value()),
            place: line.at,
        }),
    }
}

fn value_fault(when: When, values: &Values, line: ValueLine) -> Option<ContentFault>
    ensures { (before : List ValueLineText) → values.now ≡ map stated_of before
        → Answers (ValueFault (word_of when) before line) result }
{
    if let Some(fault) = again_fault(when, values, line) {
        return Some(fault);
    }
    mark_fault(line.value)
}

fn expectation_fault(expected: Option<StatedExpectation>, at: Place) -> Option<ContentFault>
    ensures { Answers (AgainExpected (stated_expectations expected) at) result }
{
    match expected {
        None => None,
        Some(first) => Some(ContentFault {
            kind: FaultKind::AgainExpectation {
                first: first.at,
                again: at,
            },
            place: at,
        }),
    }
}

fn expect_of(expected: Option<StatedExpectation>) -> Expect
    ensures { expectation result ≡ expectation_among (stated_expectations expected) }
{
    match expected {
        None => Expect::Unstated,
        Some(expected) => expected.expect,
    }
}

impl CaseBuilder {
    pub(crate) fn new(alloc: Global) -> Self
        ensures { HasLines result [] }
    {
        CaseBuilder {
            heads: Vec::new(alloc),
            ops: Listed::new(alloc),
            dependencies: Listed::new(alloc),
            initial: Values::new(alloc),
            final_values: Values::new(alloc),
            expected: None,
        }
    }

    /// The fault of a line after those so far.
    fn fault(&self, item: &Item) -> Option<ContentFault>
        ensures { (before : List ItemText) → HasLines self.now before → Answers (IsFaultOf before item.now) result }
    {
        match item {
            Item::Microop(microop) => microop_fault(&self.heads, microop.head, microop.action),
            Item::Relationship(line) => relationship_fault(&self.heads, line.source, line.target),
            Item::Initial(line) => value_fault(When::Initial, &self.initial, *line),
            Item::Final(line) => value_fault(When::Final, &self.final_values, *line),
            Item::Permitted(at) => expectation_fault(self.expected, *at),
            Item::Forbidden(at) => expectation_fault(self.expected, *at),
        }
    }

    fn add_microop(&mut self, microop: Microop) -> Result<(), Memory>
        requires { microop.head.core.value ≤ MAX_CORE }
        ensures { OnOk result (AddsMicroop self.old self.new microop) }
    {
        self.heads.push(microop.head)?;
        self.ops.push(op_from(microop))
    }

    fn add_relationship(&mut self, relationship: Relationship) -> Result<(), Memory>
        requires { vec_len self.old.heads ≤ MAX_OPS }
        ensures { OnOk result (AddsRelationship self.old self.new relationship) }
    {
        let line = dependency_from(&self.heads, relationship);
        self.dependencies.push(line)
    }

    /// Takes one more line, or names its fault. After an `Err` the lines are not to be read on.
    pub(crate) fn add(&mut self, item: Item) -> Result<(), CaseFault>
        requires { (before : List ItemText) × HasLines self.old before × IsClean before }
        ensures ok { OnOk result ((before : List ItemText) → HasLines self.old before → IsClean before
            → Never (IsFaultOf before item) × HasLines self.new (before ++ item ∷ [])) }
        ensures err { IfErr result (λ e. (before : List ItemText) → HasLines self.old before
            → IsLineFault before item e) }
    {
        if let Some(fault) = self.fault(&item) {
            return Err(CaseFault::Content(fault.kind, fault.place));
        }
        self.append(item)?;
        Ok(())
    }

    /// Takes one more line, which has no fault.
    fn append(&mut self, item: Item) -> Result<(), Memory>
        requires { (before : List ItemText) × HasLines self.old before × IsClean before
            × Never (IsFaultOf before item) }
        ensures { OnOk result ((before : List ItemText) → HasLines self.old before → IsClean before
            → Never (IsFaultOf before item) → HasLines self.new (before ++ item ∷ [])) }
    {
        match item {
            Item::Microop(microop) => self.add_microop(microop),
            Item::Relationship(relationship) => self.add_relationship(relationship),
            Item::Initial(line) => self.initial.add(line.pa, line.value.value()),
            Item::Final(line) => self.final_values.add(line.pa, line.value.value()),
            Item::Permitted(at) => {
                self.expected = Some(StatedExpectation {
                    expect: Expect::Permitted,
                    at,
                });
                Ok(())
            }
            Item::Forbidden(at) => {
                self.expected = Some(StatedExpectation {
                    expect: Expect::Forbidden,
                    at,
                });
                Ok(())
            }
        }
    }

    /// The values that the lines state before and after the test.
    fn values(&self, alloc: Global) -> Result<(StatedValues, StatedValues), Memory>
        ensures { IfOk result (λ r. (r.0 ≡ self.now.initial) × (r.1 ≡ self.now.final_values)) }
    {
        Ok((
            self.initial.listed(alloc)?,
            self.final_values.listed(alloc)?,
        ))
    }

    /// The lists that the lines say.
    pub(crate) fn lists(self, alloc: Global) -> Result<CaseLists, Memory>
        requires { (items : List ItemText) × HasLines self items × IsClean items }
        ensures said { IfOk result (λ l. (items : List ItemText) → HasLines self items → IsClean items
            → case_by l ≡ case_of items) }
        ensures kept { IfOk result AreLists }
    {
        let (initial, final_values) = self.values(alloc)?;
        let expect = expect_of(self.expected);
        Ok(CaseLists {
            ops: self.ops,
            dependencies: self.dependencies,
            initial,
            final_values,
            expect,
        })
    }
}
