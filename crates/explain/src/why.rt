// What an explanation says: the numbers that were compared, and nothing that does not follow from them. Each call has an enumeration of
// its own, nested in that of the calls which rest on it.
use accept::verdict::Refusal;
use caller::place::Needed;
use caller::registers::Registers;
use numbers::offset::Offset;
use section::row::Row;

// A covered address, as an offset from the section's first byte, with the lowest function that covers it.
#[derive(Clone, Copy)]
pub struct Covered {
    pub offset: Offset,
    pub function: u64,
}

// The row that was found: its function, the offset that rows were compared with, the row with its number, and where the next row of the
// same function starts, if there is one.
#[derive(Clone, Copy)]
pub struct FoundRow {
    pub row: Row,
    pub function: u64,
    pub number: u64,
    pub offset: u64,
    pub next: Option<u64>,
}

// Why no row was found.
#[derive(Clone, Copy)]
pub enum NotFound {
    // 21: nothing at the PC is covered, and these are the nearest addresses that are, if any on a side is.
    NoFunction {
        below: Option<Covered>,
        above: Option<Covered>,
    },
    // 22: which functions cover stands beside, in `Coverers`.
    Dispute,
    // 23: the function, the offset used, and where its first row starts, if it has rows.
    NoRow {
        function: u64,
        offset: u64,
        first: Option<u64>,
    },
}

// How many functions cover, and of these the first 16, rising. An enum holds no array, so this stands beside one; where there is no
// dispute it is empty.
#[derive(Clone, Copy)]
pub struct Coverers {
    pub count: u64,
    pub indexes: [u64; 16],
}

// Why a lookup gives its answer, in a section that is accepted.
#[derive(Clone, Copy)]
pub struct LookedWhy {
    pub looked: Result<FoundRow, NotFound>,
    pub coverers: Coverers,
}

// What a row comes to.
#[derive(Clone, Copy)]
pub enum RowReason {
    // The caller: its registers, CFA, and RA as it was read. Where RA and FP came from stands in the row.
    Caller {
        caller: Registers,
        cfa: u64,
        ra: u64,
    },
    // 24: the signed bit and the mask.
    Signed {
        signed: bool,
        mask: u64,
    },
    // 25: the base register's value and the offset, whose sum is no address.
    CfaOutside {
        base: u64,
        offset: Offset,
    },
    // 26: the caller's SP and SP, and the mark.
    CfaLow {
        callersp: u64,
        sp: u64,
        first: u64,
    },
    // 27: RA has no place, and the mark.
    RaLost {
        first: u64,
    },
    // 28: which word, CFA and the offset whose sum is its address, and the window's first address and length.
    WordOutside {
        word: Needed,
        cfa: u64,
        offset: Offset,
        stack: u64,
        length: u64,
    },
}

// Why a step gives its answer.
#[derive(Clone, Copy)]
pub enum StepReason {
    // 41: the two numbers whose sum is above 2^64.
    Window {
        stack: u64,
        length: u64,
    },
    // 1 to 15, as of a lookup.
    Unsound(Refusal),
    // 21: PC is 0 without the mark, and nothing is looked up.
    NothingAsked,
    // 21 to 23, as of a lookup, with the PC looked up.
    NotFound {
        pc: u64,
        why: NotFound,
    },
    // The row found at the PC looked up, and what it comes to: 24 to 28, or a caller.
    FromRow {
        found: FoundRow,
        reason: RowReason,
        pc: u64,
    },
}

#[derive(Clone, Copy)]
pub struct StepWhy {
    pub reason: StepReason,
    pub coverers: Coverers,
}
