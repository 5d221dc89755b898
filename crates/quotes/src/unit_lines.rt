// The item that a line of a unit gives.

ghost use Rattle.std.specs.Prelude.{◌≡◌, map};
ghost use Rattle.quotes.specs.UnitLines.{current_of, unit_item_from};

use super::fault::LineFault;
use super::lines::{FromWords, Item};
use super::records::{day_ahead_of, ruc_of};
use market::{DayAheadRecord, RucRecord};

// What one line gives: an item of an offer, the start of the current offer, or a record to settle.
#[derive(Clone, Copy)]
pub enum UnitItem {
    Offer(Item),
    Current,
    DayAhead(DayAheadRecord),
    Ruc(RucRecord),
}

// The word alone starts the current offer.
fn current_of(words: &[&str]) -> Result<UnitItem, LineFault>
    ensures { result ≡ current_of (map (λ x. x.now) words.now) }
{
    match words {
        [] => Ok(UnitItem::Current),
        _ => Err(LineFault::WordCount),
    }
}

impl FromWords for UnitItem {
    ghost from_words = { unit_item_from };

    fn from_words(kind: &str, words: &[&str]) -> Result<UnitItem, LineFault> {
        match kind {
            "current" => current_of(words),
            "day-ahead" => Ok(UnitItem::DayAhead(day_ahead_of(words)?)),
            "ruc" => Ok(UnitItem::Ruc(ruc_of(words)?)),
            _ => Ok(UnitItem::Offer(Item::from_words(kind, words)?)),
        }
    }
}
