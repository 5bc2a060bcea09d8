// The lookup that reads the header, the entries that the halving rule compares, and the rows of the one function that it lands on.
ghost use Rattle.std.specs.Prelude.{◌≡◌, ◌≤◌, ◌<◌};
ghost use Rattle.numbers.specs.Start.{distance};
ghost use Rattle.lookup.specs.Inner.Requires.{HeaderOf};
ghost use Rattle.ask.specs.Computed.Ask.{where_landed, ask_in, ask_of};
ghost use Rattle.ask.specs.Inner.Parts.{with_sought, past_function};
ghost use Rattle.accept.specs.Told.{rows_told};
ghost use Rattle.ask.specs.Told.{ask_told};

use crate::answer::{AskFound, AskRefusal};
use crate::rows::seek_row;
use accept::header_check::check_header;
use accept::verdict::Rule;
use lookup::rows::Hit;
use lookup::search::{Landing, land, past_in};
use lookup::table::entry_in;
use section::header::{Layout, layout_at, order_at};
use section::shape::shape_of;

#[tactic(auto, unfolding(crate::specs::Computed::Ask::with_row, crate::specs::Inner::Parts::with_sought))]
fn with_sought(
    function: u64,
    compared: u64,
    sought: Result<Option<Hit>, Rule>,
) -> Result<AskFound, AskRefusal>
    ensures { ask_told result ≡ with_sought function compared (rows_told sought) }
{
    match sought {
        Err(_) => Err(AskRefusal::Damaged { function, compared }),
        Ok(None) => Err(AskRefusal::NoRow { function, compared }),
        Ok(Some(Hit { row, number })) => Ok(AskFound {
            function,
            compared,
            number: number as u64,
            row,
        }),
    }
}

// Function i was landed on, and the PC is so far past its start.
fn in_function(
    section: &[u8],
    layout: Layout,
    i: u64,
    past: u64,
    compared: u64,
) -> Result<AskFound, AskRefusal>
    requires { HeaderOf section.now layout × (i < layout.functions) }
    ensures { ask_told result ≡ past_function section.now i past compared }
{
    let entry = entry_in(section, layout, order_at(section), i);
    let abi = layout.abi;
    let from = layout.area as usize;
    with_sought(
        i,
        compared,
        seek_row(&section[from..], shape_of(abi), entry, past),
    )
}

// The answer by where the halving landed: the function landed on is the one before `low`.
#[tactic(auto, unfolding(crate::specs::Computed::Ask::where_landed))]
fn where_landed(
    section: &[u8],
    layout: Layout,
    landing: Landing,
    address: u64,
    pc: u64,
) -> Result<AskFound, AskRefusal>
    requires { HeaderOf section.now layout × (landing.low ≤ layout.functions) }
    ensures { ask_told result ≡ where_landed section.now (distance address pc) landing.compared landing.low }
{
    let Landing { low, compared } = landing;
    if low == 0 {
        return Err(AskRefusal::NoFunction { compared });
    }
    match past_in(section, layout, low - 1, address, pc) {
        None => Err(AskRefusal::NoFunction { compared }),
        Some(past) => in_function(section, layout, low - 1, past, compared),
    }
}

// The answer on a section whose header is sound.
#[tactic(auto, unfolding(crate::specs::Computed::Ask::ask_in))]
fn ask_in(section: &[u8], layout: Layout, address: u64, pc: u64) -> Result<AskFound, AskRefusal>
    requires { HeaderOf section.now layout }
    ensures { ask_told result ≡ ask_in section.now (distance address pc) }
{
    if layout.sorted {
        return where_landed(
            section,
            layout,
            land(section, layout, address, pc),
            address,
            pc,
        );
    }
    Err(AskRefusal::Unsorted)
}

// The answer on any bytes: the header's checks first, and no other of the section.
#[tactic(auto, unfolding(crate::specs::Computed::Ask::ask_after, crate::specs::Computed::Ask::ask_of))]
pub fn ask(section: &[u8], address: u64, pc: u64) -> Result<AskFound, AskRefusal>
    ensures { ask_told result ≡ ask_of section.now address pc }
{
    match check_header(section) {
        Err(rule) => Err(AskRefusal::Unsound(rule)),
        Ok(()) => ask_in(section, layout_at(section), address, pc),
    }
}
