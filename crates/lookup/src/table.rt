// The function table of a section whose header is sound, and entries by their index.
ghost use Rattle.std.specs.Prelude.{◌≡◌, ◌<◌};
ghost use Rattle.section.specs.Meaning.{entry_in};
ghost use Rattle.lookup.specs.Inner.Requires.{TableOf, HeaderOf};

use numbers::field::Order;
use section::entry::{Entry, entry_at};
use section::header::{Layout, order_at};

// A section with its own layout and byte order.
#[derive(Clone, Copy)]
pub struct Table<'a> {
    pub section: &'a [u8],
    pub layout: Layout,
    pub order: Order,
    pub ghost sound: { TableOf section.now layout order },
}

// The table of a section whose header was checked before.
pub(crate) fn table_in<'a>(section: &'a [u8], layout: Layout) -> Table<'a>
    requires { HeaderOf section.now layout }
    ensures section { result.section.now ≡ section.now }
    ensures layout { result.layout ≡ layout }
{
    Table {
        section,
        layout,
        order: order_at(section),
    }
}

// Entry i. It is inlined, so that a loop reads no more of an entry than it looks at.
#[inline(always)]
pub fn entry_in(section: &[u8], layout: Layout, order: Order, i: u64) -> Entry
    requires { TableOf section.now layout order × (i < layout.functions) }
    ensures { result ≡ entry_in section.now i }
{
    entry_at(section, order, (layout.table + 20 * i) as u32)
}
