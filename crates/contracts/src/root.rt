// The root of a contract: three characters, each A to Z or 0 to 9.
ghost use Rattle.std.specs.Prelude.{◌≡◌, MatchOption};
ghost use Rattle.contracts.specs.Ranges.{RootRange, code_character};

#[derive(Clone, Copy, PartialEq, Eq, PartialOrd, Ord)]
pub struct Root {
    pub first: u8,
    pub second: u8,
    pub third: u8,
    ghost range: { RootRange first second third },
}

// A to Z or 0 to 9.
pub fn is_code_character(c: u8) -> bool
    ensures { result ≡ code_character c }
{
    c.is_ascii_uppercase() || c.is_ascii_digit()
}

impl Root {
    pub fn new(first: u8, second: u8, third: u8) -> Option<Root>
        ensures { MatchOption result (RootRange first second third → ⊥) (λ t. (t.first ≡ first) × (t.second ≡ second) × (t.third ≡ third)) }
    {
        if is_code_character(first) && is_code_character(second) && is_code_character(third) {
            Some(Root {
                first,
                second,
                third,
            })
        } else {
            None
        }
    }
}
