// What the checks answer where something is broken.
ghost use Rattle.std.specs.Prelude.{◌≡◌};
ghost use Rattle.accept.specs.Given.{number_of_rule};

// The rules by name, in the order of their numbers, 1 to 15.
#[derive(Clone, Copy, PartialEq, Eq)]
pub enum Rule {
    Short,
    Long,
    Magic,
    Version,
    Flags,
    Abi,
    Fixed,
    Sizes,
    EntryInfo,
    RepeatSize,
    RowsInside,
    RowInfo,
    RowsRising,
    Sorted,
    RowSum,
}

// The first rule that a section breaks, and the entry's index, 0 for the header's rules and the sum.
#[derive(Clone, Copy)]
pub struct Refusal {
    pub rule: Rule,
    pub index: u64,
}

impl Rule {
    #[tactic(auto, unfolding(crate::specs::Given::number_of_rule))]
    pub fn number(self) -> u64
        ensures { result ≡ number_of_rule self }
    {
        match self {
            Rule::Short => 1,
            Rule::Long => 2,
            Rule::Magic => 3,
            Rule::Version => 4,
            Rule::Flags => 5,
            Rule::Abi => 6,
            Rule::Fixed => 7,
            Rule::Sizes => 8,
            Rule::EntryInfo => 9,
            Rule::RepeatSize => 10,
            Rule::RowsInside => 11,
            Rule::RowInfo => 12,
            Rule::RowsRising => 13,
            Rule::Sorted => 14,
            Rule::RowSum => 15,
        }
    }
}
