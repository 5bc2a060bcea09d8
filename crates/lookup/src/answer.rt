// What a lookup answers.
use section::row::Row;

// The one function that covers, by its index, and its row, with the row's number in the function.
#[derive(Clone, Copy)]
pub struct Found {
    pub row: Row,
    pub function: u64,
    pub number: u64,
}

// Why there is no row. Each case carries what the specification says that it carries.
#[derive(Clone, Copy)]
pub enum Unfound {
    // 21: no function covers.
    NoFunction,
    // 22: two or more cover; the two lowest indexes.
    Dispute { first: u64, second: u64 },
    // 23: the one function that covers has no row there.
    NoRow { function: u64 },
}

// What is found in an accepted section, and the number of entries compared.
#[derive(Clone, Copy)]
pub struct Answer {
    pub outcome: Result<Found, Unfound>,
    pub compared: u64,
}
