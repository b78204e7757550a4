ghost use Rattle.std.specs.Prelude.{◌≡◌, ◌+◌, ◌<◌, ◌≤◌, ◌++◌, ◌∷◌, [], IfOk, IfErr, MatchBool, Some, None, length, map, option_map};
ghost use Rattle.std.specs.List.{find};
ghost use Rattle.pc_common.specs.declared.fault.FaultKind.TheVariants.{TooManyVariables};
ghost use Rattle.pc_common.specs.Names.{same_name};
ghost use Rattle.pc_syntax.specs.declared.limits.TheConstants.{MAX_VARIABLES};
ghost use Rattle.pc_syntax.specs.Scope.{binding_of, sort_of_arg, quantified_in, bound_in};
ghost use Rattle.pc_syntax.specs.NameFaults.{scope_fault};
ghost use Rattle.scope_check.specs.Bindings.{binding};
ghost use Rattle.scope_check.specs.FirstFault.{Answers, name_fault_of};
ghost use Rattle.scope_check.specs.declared.fault.NameFault.TheVariants.{Memory as refused};

use super::fault::NameFault;
use arrayvec::ArrayVec;
use pc_common::Place;
use pc_syntax::{Arg, Args, MAX_VARIABLES, Name, Names, Sort};
use std::alloc::Global;
use std::marker::Model;

/// A bound name, lent from the axiom.
#[derive(Clone, Copy)]
pub(crate) struct Variable<'a> {
    name: &'a [u8],
    pub(crate) sort: Sort,
    /// How many bindings came before it, from 0.
    pub(crate) slot: u8,
}

/// What fills the room of a scope that isn't in use. `ArrayVec` asks for a default; no answer depends on it.
impl<'a> Default for Variable<'a> {
    ghost use Rattle.std.specs.Prelude.{◌≡◌, []};
    ghost use Rattle.pc_syntax.specs.declared.term.Sort.TheVariants.{Core};

    ghost is_default = { λ v. (v.name.now ≡ []) × (v.sort ≡ Core) × (v.slot ≡ 0) };

    fn default() -> Self {
        Variable {
            name: b"",
            sort: Sort::Core,
            slot: 0,
        }
    }
}

/// The variables at a place of a formula, innermost first. They lie in a box, so that a scope takes little of the
/// stack in the functions that nest.
pub(crate) struct Scope<'a> {
    variables: Box<ArrayVec<Variable<'a>, MAX_VARIABLES>>,
}

// By hand: docs/DECISIONS.md, "Drops are written by hand".
impl Drop for Scope<'_> {
    fn drop(self) {
        let Scope { variables: _ } = self;
    }
}

impl<'a> Model for Scope<'a> {
    ghost use Rattle.std.specs.Prelude.{List, map};
    ghost use Rattle.pc_syntax.specs.Scope.{Binding};
    ghost use Rattle.scope_check.specs.Bindings.{binding as binding_seen};

    ghost Value = { List Binding };

    ghost view = { λ s. map binding_seen s.variables.value.items };
}

impl<'a> Scope<'a> {
    /// No variables. An `Err` says that memory was refused.
    #[inline(never)]
    pub(crate) fn new(alloc: Global) -> Result<Self, NameFault>
        ensures ok { IfOk result (λ s. s ≡ []) }
        ensures err { IfErr result (λ fault. fault ≡ refused) }
    {
        Ok(Scope {
            variables: Box::new(alloc, ArrayVec::new())?,
        })
    }

    /// The variables, innermost first.
    fn variables(&self) -> &[Variable<'a>]
        ensures { map binding result.now ≡ self.now }
    {
        self.variables.as_slice()
    }

    /// The variable that a name stands for: the innermost of its bindings, if it has one.
    pub(crate) fn find(&self, name: &[u8]) -> Option<Variable<'a>>
        ensures { option_map binding result ≡ binding_of self.now name.now }
    {
        first_named(self.variables(), name)
    }

    /// The sort of an argument: a number is a core, and so is a name without binding.
    fn sort_of(&self, arg: &Arg) -> Sort
        ensures { result ≡ sort_of_arg self.now arg.now }
    {
        match arg {
            Arg::Word(word) => match self.find(word.name.as_slice()) {
                Some(variable) => variable.sort,
                None => Sort::Core,
            },
            Arg::Number(..) => Sort::Core,
        }
    }

    /// How many variables are in scope: 0 to 32.
    fn len(&self) -> usize
        ensures value { result ≡ length self.now }
        ensures fits { length self.now ≤ MAX_VARIABLES }
    {
        self.variables.len()
    }

    /// Whether so many variables more may be in scope.
    fn has_room(&self, count: usize) -> bool
        ensures { MatchBool result (length self.now + count ≤ MAX_VARIABLES)
            (MAX_VARIABLES < length self.now + count) }
    {
        count <= MAX_VARIABLES - self.len()
    }

    /// Puts a variable outside all others.
    fn push(&mut self, name: &'a [u8], sort: Sort, slot: u8)
        requires { length self.old < MAX_VARIABLES }
        ensures { self.new ≡ self.old ++ record { name = name.now; sort = sort; slot = slot } ∷ [] }
    {
        self.variables.push(Variable { name, sort, slot });
    }

    /// Puts the variables of another scope outside all others, in their order.
    fn extend(&mut self, outer: &Scope<'a>)
        requires { length self.old + length outer.now ≤ MAX_VARIABLES }
        ensures { self.new ≡ self.old ++ outer.now }
    {
        if self
            .variables
            .try_extend_from_slice(outer.variables())
            .is_err()
        {
            unreachable!()
        }
    }

    /// The scope inside a quantifier at `at`, whose variable takes the next slot. An `Err` is that there are too many
    /// variables, unless memory was refused.
    #[inline(never)]
    pub(crate) fn enter_quantifier(
        &self,
        alloc: Global,
        at: Place,
        sort: Sort,
        name: &'a Name,
    ) -> Result<Scope<'a>, NameFault>
        ensures ok { let inside = quantified_in self.now name.now sort in
            IfOk result (λ s. (scope_fault at inside ≡ None) × (s ≡ inside)) }
        ensures err { IfErr result (Answers (scope_fault at (quantified_in self.now name.now sort))) }
    {
        if !self.has_room(1) {
            return Err(too_many_variables(at));
        }
        let mut inside = Scope::new(alloc)?;
        inside.push(name.as_slice(), sort, self.len() as u8);
        inside.extend(self);
        Ok(inside)
    }

    /// The scope inside a binding at `at`, of each name to its argument. Both lists are read as far as
    /// the shorter one goes. The names take the next slots in their order, and have the sorts that their
    /// arguments have out here. An `Err` is that there are too many variables, unless memory was refused.
    #[inline(never)]
    pub(crate) fn enter_binding(
        &self,
        alloc: Global,
        at: Place,
        names: &'a Names,
        args: &Args,
    ) -> Result<Scope<'a>, NameFault>
        ensures ok { let inside = bound_in self.now names.now args.now in
            IfOk result (λ s. (scope_fault at inside ≡ None) × (s ≡ inside)) }
        ensures err { IfErr result (Answers (scope_fault at (bound_in self.now names.now args.now))) }
    {
        let count = names.len().min(args.len());
        if !self.has_room(count) {
            return Err(too_many_variables(at));
        }
        let mut inside = Scope::new(alloc)?;
        for k in 0..count {
            let sort = self.sort_of(args.get(k));
            inside.push(names.get(k).as_slice(), sort, (self.len() + k) as u8);
        }
        inside.extend(self);
        Ok(inside)
    }
}

/// The first of these variables that has the name.
fn first_named<'a>(variables: &[Variable<'a>], name: &[u8]) -> Option<Variable<'a>>
    ensures { result ≡ find (λ v. same_name v.name.now name.now) variables.now }
{
    for k in 0..variables.len() {
        let variable = variables[k];
        if variable.name == name {
            return Some(variable);
        }
    }
    None
}

fn too_many_variables(at: Place) -> NameFault
    ensures { name_fault_of result ≡ Some (TooManyVariables MAX_VARIABLES, at) }
{
    NameFault::TooManyVariables {
        at,
        limit: MAX_VARIABLES as u64,
    }
}
