// What is read from lines, one after another.

ghost use Rattle.std.specs.Prelude.{◌≡◌, ℕ, Result, map, string_bytes};
ghost use Rattle.quotes.specs.declared.fault.OfferFault.{OfferFault};
ghost use Rattle.quotes.specs.declared.fault.OfferFault.TheVariants.{Memory};
ghost use Rattle.quotes.specs.Answers.{AnswersUnless};
ghost use Rattle.quotes.specs.Readings.{line_step, read_from};

use super::fault::OfferFault;
use super::lines::{FromWords, read_line};
use std::alloc::Global;

// What the items of lines make. In proofs `asked` is what it asks for, `taking` what an item does to that, and `of_offer` the
// fault that a fault of an offer is here.
pub(crate) trait Reading: Drop {
    type Item: FromWords;

    type Fault: From<OfferFault>;

    ghost Asked: { Type 0 };

    ghost asked: { Self → Asked };

    ghost of_offer: { OfferFault → Self.Fault };

    ghost taking: { ℕ → Self.Item → Asked → Result Asked Self.Fault };

    // Takes the item of the line with this number.
    fn take(&mut self, heap: Global, number: u64, item: Self::Item) -> Result<(), Self::Fault>
        ensures { AnswersUnless (of_offer Memory) (λ _. asked self.new) result (taking number item (asked self.old)) };

    // So `?` turns a fault of an offer into one of this reading.
    ghost converts_by: { (fault : OfferFault) (own : Self.Fault) → Self.Fault.from_gives fault own → own ≡ of_offer fault };
}

// Takes the item of a line, where it has one.
fn take_line<R: Reading>(
    reading: &mut R,
    heap: Global,
    number: u64,
    text: &str,
) -> Result<(), R::Fault>
    ensures { AnswersUnless (R.of_offer Memory) (λ _. R.asked reading.new) result (line_step R.Item.from_words R.of_offer R.taking number (R.asked reading.old) text.now) }
{
    match read_line(heap, number, text)? {
        Some(item) => reading.take(heap, number, item),
        None => Ok(()),
    }
}

// What the lines make, or the first fault.
pub(crate) fn read_lines<R: Reading>(
    heap: Global,
    lines: &[String],
    mut reading: R,
) -> Result<R, R::Fault>
    ensures { AnswersUnless (R.of_offer Memory) R.asked result (read_from (line_step R.Item.from_words R.of_offer R.taking) 1 (R.asked reading) (map string_bytes lines.now)) }
{
    for (number, line) in (1..).zip(lines) {
        take_line(&mut reading, heap, number, line)?;
    }
    Ok(reading)
}
