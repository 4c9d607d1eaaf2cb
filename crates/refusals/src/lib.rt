// The refusals of all jobs: what is wrong, each with the number that is told of it.
#![tactic(auto)]

ghost use Rattle.std.specs.Prelude.{◌≡◌};
ghost use Rattle.refusals.specs.Refusals.{number_of};

// In the order of their numbers, from 1.
#[derive(Clone, Copy, Debug, PartialEq, Eq)]
pub enum Refusal {
    LeafLimit,
    Target,
    Areas,
    EarlyEnd,
    Sizes,
    Value,
    WideGate,
    BytesBehind,
    OpenLoop,
    Unreached,
    LeadsNowhere,
    Unmet,
    Layout,
    NoCut,
    WrongTable,
    Unfed,
    NegativeCount,
    LongChain,
    NoRecord,
    LoaderArea,
    NoSection,
    UnmetForward,
    LongCapture,
}

impl From<Refusal> for u8 {
    ghost from_gives = { λ r n. n ≡ number_of r };

    fn from(r: Refusal) -> u8 {
        match r {
            Refusal::LeafLimit => 1,
            Refusal::Target => 2,
            Refusal::Areas => 3,
            Refusal::EarlyEnd => 4,
            Refusal::Sizes => 5,
            Refusal::Value => 6,
            Refusal::WideGate => 7,
            Refusal::BytesBehind => 8,
            Refusal::OpenLoop => 9,
            Refusal::Unreached => 10,
            Refusal::LeadsNowhere => 11,
            Refusal::Unmet => 12,
            Refusal::Layout => 13,
            Refusal::NoCut => 14,
            Refusal::WrongTable => 15,
            Refusal::Unfed => 16,
            Refusal::NegativeCount => 17,
            Refusal::LongChain => 18,
            Refusal::NoRecord => 19,
            Refusal::LoaderArea => 20,
            Refusal::NoSection => 21,
            Refusal::UnmetForward => 22,
            Refusal::LongCapture => 23,
        }
    }
}
