// The type of a strategy: two characters, each A to Z or 0 to 9, or `--` for what is no entry.
#[derive(Clone, Copy, PartialEq, Eq)]
pub struct StrategyType {
    pub first: u8,
    pub second: u8,
}
