// What an asked address is answered.
use accept::verdict::Rule;
use section::row::Row;

// The function landed on, by its index, and its row, with the row's number in the function. The row stands behind the numbers: in
// their place, two of its parts would be read back as one word, and wait for both to be written.
#[derive(Clone, Copy)]
pub struct AskFound {
    pub function: u64,
    pub compared: u64,
    pub number: u64,
    pub row: Row,
}

// Why there is no row. Each case carries what request 05 says that it carries.
#[derive(Clone, Copy)]
pub enum AskRefusal {
    // 1 to 8: the header breaks a rule.
    Unsound(Rule),
    // 45: the section does not have the sorted flag.
    Unsorted,
    // 21: no function was landed on, or it does not cover.
    NoFunction { compared: u64 },
    // 23: the function landed on has no row there.
    NoRow { function: u64, compared: u64 },
    // 44: the function landed on covers and breaks one of 9 to 13.
    Damaged { function: u64, compared: u64 },
}
