// Why a call refuses: the first of its tests that holds.
ghost use Rattle.std.specs.Prelude.{◌≡◌};
ghost use Rattle.number.specs.Refused.{refusal_number};
ghost use Rattle.number.specs.declared.refusal.Refusal.TheVariants.{UnknownKind};

use algebra::UnknownKind;

// The refusals, in the order of their numbers (docs/RULES.md, "Refusals").
#[derive(Clone, Copy, Debug, PartialEq, Eq)]
pub enum Refusal {
    DegreeZero,
    DegreeTooHigh,
    SumTooLarge,
    WrongParity,
    FoldsFull,
    FoldsTooLow,
    IntervalUnordered,
    NodesMiscounted,
    IndexOutOfRange,
    ScaleTooWide,
    ModulusOutOfRange,
    LineMalformed,
    CoefficientsShort,
    BoundariesShort,
    StepsShort,
    Unwalkable,
    NothingFits,
    ListsMismatched,
    ListsOfNone,
    MembersMiscounted,
    MembersUnlike,
    ConversionTooHigh,
    NotWhole,
    UnknownKind,
}

impl From<Refusal> for u8 {
    ghost from_gives = { λ refusal n. n ≡ refusal_number refusal };

    fn from(refusal: Refusal) -> u8 {
        match refusal {
            Refusal::DegreeZero => 1,
            Refusal::DegreeTooHigh => 2,
            Refusal::SumTooLarge => 3,
            Refusal::WrongParity => 4,
            Refusal::FoldsFull => 5,
            Refusal::FoldsTooLow => 6,
            Refusal::IntervalUnordered => 7,
            Refusal::NodesMiscounted => 8,
            Refusal::IndexOutOfRange => 9,
            Refusal::ScaleTooWide => 10,
            Refusal::ModulusOutOfRange => 11,
            Refusal::LineMalformed => 12,
            Refusal::CoefficientsShort => 21,
            Refusal::BoundariesShort => 22,
            Refusal::StepsShort => 23,
            Refusal::Unwalkable => 24,
            Refusal::NothingFits => 31,
            Refusal::ListsMismatched => 33,
            Refusal::ListsOfNone => 34,
            Refusal::MembersMiscounted => 35,
            Refusal::MembersUnlike => 36,
            Refusal::ConversionTooHigh => 37,
            Refusal::NotWhole => 38,
            Refusal::UnknownKind => 43,
        }
    }
}

impl From<UnknownKind> for Refusal {
    ghost from_gives = { λ _ refusal. refusal ≡ UnknownKind };

    fn from(_: UnknownKind) -> Refusal {
        Refusal::UnknownKind
    }
}
