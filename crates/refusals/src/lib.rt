// Why a call refuses, by name. Document 01 has a number for each (docs/RULES.md); 0 is none.
#![tactic(auto)]

ghost use Rattle.std.specs.Prelude.{◌≡◌, ◌<◌};
ghost use Rattle.refusals.specs.Numbers.{number_of, number_if};

// In the order of their numbers, from 1 on.
#[derive(Clone, Copy, PartialEq, Eq)]
pub enum Refusal {
    Unsound,
    StoreShort,
    ReportShort,
    ParameterLong,
    ParameterCut,
    OctetGoesOn,
    SequenceOctet,
    ContextUnknown,
    AddressLong,
    NoPlaceFree,
    RegistryBad,
    TimerBad,
    StepBack,
    DataLong,
    AddressUnwanted,
    ReferenceLarge,
    InstructionLarge,
    RoomBad,
    NoSuchSegment,
    AreaShort,
    NoRowUnused,
    TotalLarge,
    ContextPadded,
}

impl From<Refusal> for u8 {
    ghost from_gives = { λ r n. n ≡ number_of r };

    fn from(r: Refusal) -> u8 {
        match r {
            Refusal::Unsound => 1,
            Refusal::StoreShort => 2,
            Refusal::ReportShort => 3,
            Refusal::ParameterLong => 4,
            Refusal::ParameterCut => 5,
            Refusal::OctetGoesOn => 6,
            Refusal::SequenceOctet => 7,
            Refusal::ContextUnknown => 8,
            Refusal::AddressLong => 9,
            Refusal::NoPlaceFree => 10,
            Refusal::RegistryBad => 11,
            Refusal::TimerBad => 12,
            Refusal::StepBack => 13,
            Refusal::DataLong => 14,
            Refusal::AddressUnwanted => 15,
            Refusal::ReferenceLarge => 16,
            Refusal::InstructionLarge => 17,
            Refusal::RoomBad => 18,
            Refusal::NoSuchSegment => 19,
            Refusal::AreaShort => 20,
            Refusal::NoRowUnused => 21,
            Refusal::TotalLarge => 22,
            Refusal::ContextPadded => 23,
        }
    }
}

// The number that a call answers: of a judgement that refuses, or 0.
pub fn number_if(judged: Result<(), Refusal>) -> u8
    ensures { result ≡ number_if judged }
{
    match judged {
        Ok(()) => 0,
        Err(r) => u8::from(r),
    }
}
