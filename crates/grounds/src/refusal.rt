// Why a call says no.
ghost use Rattle.std.specs.Prelude.{◌≡◌};
ghost use Rattle.grounds.specs.Refusals.{number_of};

// The ground on which a call is refused. The papers name each by a number.
#[derive(Clone, Copy, Debug, PartialEq, Eq)]
pub enum Refusal {
    // There is no asset, or more than the call takes.
    Assets,
    // A default probability, a correlation or a recovery above one.
    Probability,
    Correlation,
    Recovery,
    // The upper attachment is above the pool.
    UpperAttachment,
    // The lower attachment is not below the upper.
    Attachments,
    // Some slice of the store is too short, that of a column, or, below, that of a shift list.
    Store,
    Column,
    // There is no such row.
    Row,
    Shifts,
    // More assets than the quote screen takes.
    ScreenAssets,
    // The beta-binomial has no value at full correlation.
    FullCorrelation,
    // No tranche, or more than eight.
    TrancheCount,
    // Not 1 ≤ i ≤ j ≤ n.
    Layer,
    // The head of the store is not what the desk expects.
    Head,
    // The row is above the desk's ceiling.
    Ceiling,
    // The file has no room for a head, or not the length that its head gives it.
    FileLength,
    // An entry is no kept number.
    UnkeptEntry,
}

impl From<Refusal> for u32 {
    ghost from_gives = { λ refusal number. number ≡ number_of refusal };

    fn from(refusal: Refusal) -> u32 {
        match refusal {
            Refusal::Assets => 1,
            Refusal::Probability => 2,
            Refusal::Correlation => 3,
            Refusal::Recovery => 4,
            Refusal::UpperAttachment => 5,
            Refusal::Attachments => 6,
            Refusal::Store => 7,
            Refusal::Column => 8,
            Refusal::Row => 9,
            Refusal::Shifts => 10,
            Refusal::ScreenAssets => 11,
            Refusal::FullCorrelation => 12,
            Refusal::TrancheCount => 13,
            Refusal::Layer => 14,
            Refusal::Head => 15,
            Refusal::Ceiling => 16,
            Refusal::FileLength => 17,
            Refusal::UnkeptEntry => 18,
        }
    }
}
