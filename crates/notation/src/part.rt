// The part of a leg's text that cannot be read.
#[derive(Clone, Copy, PartialEq, Eq)]
pub enum LegPart {
    Side,
    Lots,
    Root,
    Kind,
    Month,
    Strike,
    Underlying,
    Core,
    LotSize,
    Tick,
    State,
    SessionEnd,
    // Something follows.
    End,
}
