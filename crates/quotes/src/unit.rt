// A unit, read line by line: its offers, and the records that are to be settled.

ghost use Rattle.std.specs.Prelude.{◌≡◌, map, string_bytes};
ghost use Rattle.quotes.specs.Answers.{Answers, at_line};
ghost use Rattle.quotes.specs.declared.unit_fault.UnitFault.TheVariants.{Offer as OfAnOffer};
ghost use Rattle.quotes.specs.UnitAnswers.{UnitAnswers};
ghost use Rattle.quotes.specs.Offers.{asked};
ghost use Rattle.quotes.specs.Units.{UnitAsked, current_asked, offer_taken, only_one_of_kind, unit_asked, unit_item_taken, unit_read, untold};

use super::fault::OfferFault;
use super::lines::Item;
use super::offer::Offer;
use super::readings::{Reading, read_lines};
use super::unit_fault::UnitFault;
use super::unit_lines::UnitItem;
use market::{DayAheadRecord, RucRecord};
use std::alloc::Global;

// The offers of a unit, and the records to settle on them.
#[derive(Drop)]
pub struct Unit {
    pub committed: Offer,
    pub current: Option<Offer>,
    pub day_ahead: Option<DayAheadRecord>,
    pub ruc: Option<RucRecord>,
}

// The first of its kind takes the free place; where there is one, this is a second one.
fn put<T: Drop>(place: &mut Option<T>, x: T, second: UnitFault) -> Result<(), UnitFault>
    ensures { UnitAnswers (λ _. place.new) result (only_one_of_kind place.old x second) }
{
    match place {
        Some(_) => Err(second),
        None => {
            *place = Some(x);
            Ok(())
        }
    }
}

impl Unit {
    // Without a current offer, that at commitment stands.
    pub fn current_offer(&self) -> &Offer
        ensures { asked result.now ≡ current_asked (unit_asked self.now) }
    {
        self.current.as_ref().unwrap_or(&self.committed)
    }

    fn new(heap: Global) -> Unit
        ensures { unit_asked result ≡ untold }
    {
        Unit {
            committed: Offer::new(heap),
            current: None,
            day_ahead: None,
            ruc: None,
        }
    }

    // An item of an offer goes to the current offer once that is started.
    fn take_offer_item(&mut self, heap: Global, number: u64, item: Item) -> Result<(), OfferFault>
        ensures { Answers (λ _. unit_asked self.new) result (at_line number (offer_taken item (unit_asked self.old))) }
    {
        match &mut self.current {
            Some(current) => current.take(heap, number, item),
            None => self.committed.take(heap, number, item),
        }
    }
}

impl Reading for Unit {
    type Item = UnitItem;

    type Fault = UnitFault;

    ghost Asked = { UnitAsked };

    ghost asked = { unit_asked };

    ghost of_offer = { OfAnOffer };

    ghost taking = { unit_item_taken };

    fn take(&mut self, heap: Global, number: u64, item: UnitItem) -> Result<(), UnitFault> {
        match item {
            UnitItem::Offer(item) => Ok(self.take_offer_item(heap, number, item)?),
            UnitItem::Current => put(
                &mut self.current,
                Offer::new(heap),
                UnitFault::SecondCurrent(number),
            ),
            UnitItem::DayAhead(hour) => put(
                &mut self.day_ahead,
                hour,
                UnitFault::SecondDayAhead(number),
            ),
            UnitItem::Ruc(interval) => put(&mut self.ruc, interval, UnitFault::SecondRuc(number)),
        }
    }

    ghost converts_by = { λ fault own same. same };
}

// The unit that the lines make, or the first fault.
pub fn read_unit(heap: Global, lines: &[String]) -> Result<Unit, UnitFault>
    ensures { UnitAnswers unit_asked result (unit_read 1 untold (map string_bytes lines.now)) }
{
    read_lines(heap, lines, Unit::new(heap))
}
