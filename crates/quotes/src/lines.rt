// The text of one line, and the item that it gives.

ghost use Rattle.std.specs.Prelude.{◌≡◌, ℕ, List, Result, map, IfOk};
ghost use Rattle.quotes.specs.Answers.{Answers, at_line};
ghost use Rattle.quotes.specs.declared.fault.LineFault.{LineFault};
ghost use Rattle.quotes.specs.Lines.{block_of, item_from, item_of, number_of, only_number, width_of, words_of};

use super::fault::{LineFault, OfferFault};
use offers::Block;
use std::alloc::{AllocError, Global};

// What a line may give, by its first word, the kind, and the words after that.
pub(crate) trait FromWords: Sized {
    ghost from_words: { List ℕ → List (List ℕ) → Result Self LineFault };

    fn from_words(kind: &str, words: &[&str]) -> Result<Self, LineFault>
        ensures { result ≡ from_words kind.now (map (λ x. x.now) words.now) };
}

// One item of an offer.
#[derive(Clone, Copy, Debug, PartialEq)]
pub enum Item {
    Block(Block),
    Adder(i64),
    Cap(i64),
    Market(i64),
}

// What stands between blanks.
fn words(heap: Global, text: &str) -> Result<Vec<&str>, AllocError>
    ensures { IfOk result (λ v. map (λ x. x.now) v.items ≡ words_of text.now) }
{
    text.split(' ')
        .filter(|word| !word.is_empty())
        .collect(heap)
}

// A number may have a minus and a width has none, so each follows a definition of its own; one function of both would need a
// trait with two impls to choose it.
pub(crate) fn number(word: &str) -> Result<i64, LineFault>
    ensures { result ≡ number_of word.now }
{
    word.parse::<i64>().map_err(|_| LineFault::NotANumber)
}

fn width(word: &str) -> Result<u64, LineFault>
    ensures { result ≡ width_of word.now }
{
    word.parse::<u64>().map_err(|_| LineFault::NotANumber)
}

fn only_number(words: &[&str]) -> Result<i64, LineFault>
    ensures { result ≡ only_number (map (λ x. x.now) words.now) }
{
    match words {
        [word] => number(word),
        _ => Err(LineFault::WordCount),
    }
}

fn block_of(words: &[&str]) -> Result<Block, LineFault>
    ensures { result ≡ block_of (map (λ x. x.now) words.now) }
{
    match words {
        [tenths, price] => Ok(Block {
            width: width(tenths)?,
            price: number(price)?,
        }),
        _ => Err(LineFault::WordCount),
    }
}

impl FromWords for Item {
    ghost from_words = { item_from };

    fn from_words(kind: &str, words: &[&str]) -> Result<Item, LineFault> {
        match kind {
            "block" => Ok(Item::Block(block_of(words)?)),
            "adder" => Ok(Item::Adder(only_number(words)?)),
            "cap" => Ok(Item::Cap(only_number(words)?)),
            "market" => Ok(Item::Market(only_number(words)?)),
            _ => Err(LineFault::UnknownItem),
        }
    }
}

// The item that a line's words give: none for a blank line and a comment.
fn item_of<T: FromWords>(words: &[&str]) -> Result<Option<T>, LineFault>
    ensures { result ≡ item_of T.from_words (map (λ x. x.now) words.now) }
{
    let [kind, rest @ ..] = words else {
        return Ok(None);
    };
    if kind.starts_with('#') {
        return Ok(None);
    }
    Ok(Some(T::from_words(kind, rest)?))
}

// Puts a fault under the number of its line.
pub(crate) fn at_line<T>(number: u64, answer: Result<T, LineFault>) -> Result<T, OfferFault>
    ensures { result ≡ at_line number answer }
{
    answer.map_err(|fault| OfferFault::Line { number, fault })
}

// The item of a line, or its fault under the line's number.
pub(crate) fn read_line<T: FromWords>(
    heap: Global,
    number: u64,
    text: &str,
) -> Result<Option<T>, OfferFault>
    ensures { Answers (λ x. x) result (at_line number (item_of T.from_words (words_of text.now))) }
{
    let words = words(heap, text)?;
    at_line(number, item_of(&words))
}
