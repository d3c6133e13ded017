//! How many bytes the parts of an image's symbols have.
ghost use Rattle.std.specs.Prelude.{◌≡◌};
ghost use Rattle.sym_out.specs.Sizes.{sizes_of};

use crate::entry::strings_size;
use crate::locals::local_strings_size;
use crate::ranges::ImageSymbols;
use slot_plan::Slots;

/// How many bytes the parts of an image's symbols have.
#[derive(Debug, Clone, Copy, PartialEq, Eq)]
pub struct SymbolSizes {
    /// The symbols.
    pub symbols: u128,
    /// The indirect table.
    pub indirect: u128,
    /// The names, with the zeros behind them.
    pub strings: u128,
}

impl<'a> ImageSymbols<'a> {
    /// How many bytes the parts have, from which it follows where they stand in `__LINKEDIT`. Takes no memory.
    pub fn sizes(&self, slots: &Slots) -> SymbolSizes
        ensures { result ≡ sizes_of slots.now self.now }
    {
        let symbols = self.locals.len() as u128
            + self.exported.len() as u128
            + self.undefined.len() as u128;
        let numbers = slots.stubs.len() as u128 + slots.got.len() as u128 + slots.tlv.len() as u128;
        let strings = 1
            + local_strings_size(self.locals.as_slice())
            + strings_size(self.exported.as_slice())
            + strings_size(self.undefined.as_slice());
        SymbolSizes {
            symbols: 16 * symbols,
            indirect: 4 * numbers,
            strings: strings + (8 - strings % 8) % 8,
        }
    }
}
