ghost use Rattle.std.specs.Prelude.{◌≡◌, ◌<◌, Some, length, slice_get};
ghost use Rattle.std.specs.List.{find};
ghost use Rattle.pc_common.specs.Names.{same_name};
ghost use Rattle.pc_syntax.specs.Predicates.{pred_name, pred_with_name, takes_of};

/// The static predicates, named as models spell them.
#[derive(Clone, Copy, PartialEq, Eq)]
pub enum Pred {
    True,
    False,
    IsAnyRead,
    IsAnyWrite,
    IsAnyFence,
    AccessType,
    OnCore,
    SameCore,
    SameThread,
    SameMicroop,
    SameInstruction,
    SameIntra,
    ProgramOrder,
    SameVirtualAddress,
    SamePhysicalAddress,
    SameVirtualTag,
    SamePhysicalTag,
    SameIndex,
    SameData,
    DataFromInitialStateAtPA,
    DataFromFinalStateAtPA,
    HasDependency,
    EntryOf,
    MapsTagOf,
    MarkedAccessed,
    MarkedDirty,
}

/// What a predicate takes at a place: a micro-op, a core, or a name that isn't looked up.
#[derive(Clone, Copy, PartialEq, Eq)]
pub enum Takes {
    Op,
    Core,
    Plain,
}

/// The predicates' names, as models spell them, in the order of their declaration.
static NAMES: [&[u8]; 26] = [
    b"True",
    b"False",
    b"IsAnyRead",
    b"IsAnyWrite",
    b"IsAnyFence",
    b"AccessType",
    b"OnCore",
    b"SameCore",
    b"SameThread",
    b"SameMicroop",
    b"SameInstruction",
    b"SameIntra",
    b"ProgramOrder",
    b"SameVirtualAddress",
    b"SamePhysicalAddress",
    b"SameVirtualTag",
    b"SamePhysicalTag",
    b"SameIndex",
    b"SameData",
    b"DataFromInitialStateAtPA",
    b"DataFromFinalStateAtPA",
    b"HasDependency",
    b"EntryOf",
    b"MapsTagOf",
    b"MarkedAccessed",
    b"MarkedDirty",
];

impl Pred {
    /// All predicates, in the order of their declaration.
    pub const ALL: [Pred; 26] = [
        Pred::True,
        Pred::False,
        Pred::IsAnyRead,
        Pred::IsAnyWrite,
        Pred::IsAnyFence,
        Pred::AccessType,
        Pred::OnCore,
        Pred::SameCore,
        Pred::SameThread,
        Pred::SameMicroop,
        Pred::SameInstruction,
        Pred::SameIntra,
        Pred::ProgramOrder,
        Pred::SameVirtualAddress,
        Pred::SamePhysicalAddress,
        Pred::SameVirtualTag,
        Pred::SamePhysicalTag,
        Pred::SameIndex,
        Pred::SameData,
        Pred::DataFromInitialStateAtPA,
        Pred::DataFromFinalStateAtPA,
        Pred::HasDependency,
        Pred::EntryOf,
        Pred::MapsTagOf,
        Pred::MarkedAccessed,
        Pred::MarkedDirty,
    ];

    /// What the predicate takes, in order.
    fn taken(self) -> &'static [Takes]
        ensures { result.now ≡ takes_of self }
    {
        use Takes::{Core, Op, Plain};
        match self {
            Pred::True | Pred::False => &[],
            Pred::IsAnyRead
            | Pred::IsAnyWrite
            | Pred::IsAnyFence
            | Pred::DataFromInitialStateAtPA
            | Pred::DataFromFinalStateAtPA
            | Pred::MarkedAccessed
            | Pred::MarkedDirty => &[Op],
            Pred::AccessType => &[Plain, Op],
            Pred::OnCore => &[Core, Op],
            Pred::SameCore
            | Pred::SameThread
            | Pred::SameMicroop
            | Pred::SameInstruction
            | Pred::SameIntra
            | Pred::ProgramOrder
            | Pred::SameVirtualAddress
            | Pred::SamePhysicalAddress
            | Pred::SameVirtualTag
            | Pred::SamePhysicalTag
            | Pred::SameIndex
            | Pred::SameData
            | Pred::EntryOf
            | Pred::MapsTagOf => &[Op, Op],
            Pred::HasDependency => &[Plain, Op, Op],
        }
    }

    /// The name. That no other predicate has it is said once, by `name`.
    fn spelling(self) -> &'static [u8]
        ensures { result.now ≡ pred_name self }
    {
        NAMES[self as usize]
    }

    /// The name, as models spell it. No other predicate has it.
    pub fn name(self) -> &'static [u8]
        ensures value { result.now ≡ pred_name self }
        ensures found { pred_with_name result.now ≡ Some self }
    {
        self.spelling()
    }

    /// The predicate that models spell so, if there is one.
    #[tactic(auto, unfolding(crate::specs::Predicates::all_preds))]
    pub fn of_name(name: &[u8]) -> Option<Pred>
        ensures { result ≡ pred_with_name name.now }
    {
        first_named(&Pred::ALL, name)
    }

    /// How many arguments the predicate takes: 0 to 3.
    pub fn arity(self) -> usize
        ensures { result ≡ length (takes_of self) }
    {
        self.taken().len()
    }

    /// What the predicate takes at the place `k`, from 0.
    pub fn takes(self, k: usize) -> Takes
        requires { k < length (takes_of self) }
        ensures { slice_get (takes_of self) k ≡ Some result }
    {
        self.taken()[k]
    }
}

/// The first of these predicates that models spell so.
fn first_named(preds: &[Pred], name: &[u8]) -> Option<Pred>
    ensures { result ≡ find (λ p. same_name (pred_name p) name.now) preds.now }
{
    preds.iter().copied().find(|pred| pred.spelling() == name)
}
