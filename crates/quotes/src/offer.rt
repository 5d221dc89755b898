// An offer, taken item by item from its lines.

ghost use Rattle.std.specs.Prelude.{◌≡◌, map, string_bytes};
ghost use Rattle.quotes.specs.Answers.{Answers};
ghost use Rattle.quotes.specs.Offers.{Asked, adder_laid, asked, cap_laid, item_taken, nothing, offer_read};

use super::fault::{LineFault, OfferFault};
use super::lines::{Item, at_line};
use super::readings::{Reading, read_lines};
use offers::Block;
use std::alloc::Global;

// What lies on the blocks.
#[derive(Clone, Copy)]
pub enum Pile {
    Bare,
    Cap { limit: i64 },
    Adder { added: i64 },
    CapOverAdder { limit: i64, added: i64 },
    AdderOverCap { added: i64, limit: i64 },
}

#[derive(Drop)]
pub struct Offer {
    pub blocks: Vec<Block>,
    pub pile: Pile,
    pub markets: Vec<i64>,
}

impl Pile {
    // A function of a pile and of what is laid would have as many arms as these two.
    fn with_cap(self, limit: i64) -> Result<Pile, LineFault>
        ensures { result ≡ cap_laid limit self }
    {
        match self {
            Pile::Bare => Ok(Pile::Cap { limit }),
            Pile::Adder { added } => Ok(Pile::CapOverAdder { limit, added }),
            _ => Err(LineFault::SecondCap),
        }
    }

    fn with_adder(self, added: i64) -> Result<Pile, LineFault>
        ensures { result ≡ adder_laid added self }
    {
        match self {
            Pile::Bare => Ok(Pile::Adder { added }),
            Pile::Cap { limit } => Ok(Pile::AdderOverCap { added, limit }),
            _ => Err(LineFault::SecondAdder),
        }
    }
}

impl Offer {
    pub(crate) fn new(heap: Global) -> Offer
        ensures { asked result ≡ nothing }
    {
        Offer {
            blocks: Vec::new(heap),
            pile: Pile::Bare,
            markets: Vec::new(heap),
        }
    }
}

impl Reading for Offer {
    type Item = Item;

    type Fault = OfferFault;

    ghost Asked = { Asked };

    ghost asked = { asked };

    ghost of_offer = { λ fault. fault };

    ghost taking = { item_taken };

    fn take(&mut self, _heap: Global, number: u64, item: Item) -> Result<(), OfferFault> {
        match item {
            Item::Block(block) => self.blocks.push(block)?,
            Item::Market(price) => self.markets.push(price)?,
            Item::Cap(limit) => self.pile = at_line(number, self.pile.with_cap(limit))?,
            Item::Adder(added) => self.pile = at_line(number, self.pile.with_adder(added))?,
        }
        Ok(())
    }

    ghost converts_by = { λ fault own same. same };
}

// The offer that the lines make, or the first fault.
pub fn read_offer(heap: Global, lines: &[String]) -> Result<Offer, OfferFault>
    ensures { Answers asked result (offer_read 1 nothing (map string_bytes lines.now)) }
{
    read_lines(heap, lines, Offer::new(heap))
}
