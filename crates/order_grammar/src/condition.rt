//! The versions of order files, and the condition that a line of version 2 may have before its
//! order.
ghost use Rattle.std.specs.Prelude.{◌≡◌};
ghost use Rattle.order_grammar.specs.Condition.{
  condition_if_read,
  condition_of,
  conditional_reading,
  ordered_reading,
  price_condition,
  price_reading,
  put_conditional,
  put_ordered,
  reading_of_one,
  under,
  play_reading,
};
ghost use Rattle.order_grammar.specs.Words.{texts_of};

use crate::class::{Class, Reading};
use crate::fault::Fault;
use crate::form::{Grammar, read_nearest};
use crate::keyword::Keyword;
use crate::order::{Order, Value};
use crate::words::{Words, is_word};
use tables::{Amount, Company, Kind};

/// A version of order files.
#[derive(Clone, Copy, Debug, PartialEq, Eq)]
pub enum Version {
    /// `GAME 1830 1`: orders without conditions.
    One,
    /// `GAME 1830 2`: an order may have a condition.
    Two,
}

/// What an order depends on. It is checked when the line is reached.
#[derive(Clone, Copy, Debug, PartialEq, Eq)]
pub enum Condition {
    /// `IF PRICE co >= n`: the company has a price, which is at least this many dollars.
    Price(Company, Amount),
    /// `IF PHASE kind`: the phase is the one of this kind of train, or a later one.
    Phase(Kind),
    /// `IF FLOATED co`: the company has floated.
    Floated(Company),
}

/// Overwrites `order` with the order that the words of a line of version 2 spell, and returns its
/// condition. The error says why they spell none.
pub(crate) fn read_ordered(words: &Words, order: &mut Order) -> Result<Option<Condition>, Fault>
    ensures { put_ordered result order.new ≡ ordered_reading (texts_of words.now) }
{
    let mut rest = words.duplicate();
    let Some(first) = rest.next() else {
        *order = Order::Blank;
        return Ok(None);
    };
    if is_word(first.text, Keyword::If.text()) {
        return read_conditional(&mut rest, order).map(Some);
    }
    read_nearest(Grammar::OrderFile, first.text, &rest, order)?;
    Ok(None)
}

/// Overwrites `order` with the order that the words after IF spell, and returns its condition.
fn read_conditional(words: &mut Words, order: &mut Order) -> Result<Condition, Fault>
    ensures { put_conditional result order.new ≡ conditional_reading (texts_of words.old) }
{
    let Some(first) = words.next() else {
        return Err(Fault::WrongWords);
    };
    if is_word(first.text, Keyword::Price.text()) {
        return read_price(words, order);
    }
    if is_word(first.text, Keyword::Phase.text()) {
        return read_of_one(Class::Kind, words, order);
    }
    if is_word(first.text, Keyword::Floated.text()) {
        return read_of_one(Class::Company, words, order);
    }
    Err(Fault::WrongWords)
}

/// Overwrites `order` with the order that the words after PRICE spell, and returns its condition.
fn read_price(words: &mut Words, order: &mut Order) -> Result<Condition, Fault>
    ensures { put_conditional result order.new ≡ price_reading (texts_of words.old) }
{
    let Some(company) = words.next() else {
        return Err(Fault::WrongWords);
    };
    let Some(at_least) = words.next() else {
        return Err(Fault::WrongWords);
    };
    let Some(price) = words.next() else {
        return Err(Fault::WrongWords);
    };
    if !is_word(at_least.text, Keyword::AtLeast.text()) {
        return Err(Fault::WrongWords);
    }
    let company = Class::Company.read(company.text);
    let price = Class::Number.read(price.text);
    read_under(price_condition(company, price), words, order)
}

/// Overwrites `order` with the order that the words after PHASE or FLOATED spell, and returns its
/// condition. The first of the words gives the condition.
fn read_of_one(class: Class, words: &mut Words, order: &mut Order) -> Result<Condition, Fault>
    ensures { put_conditional result order.new ≡ reading_of_one class (texts_of words.old) }
{
    let Some(word) = words.next() else {
        return Err(Fault::WrongWords);
    };
    read_under(condition_of(class.read(word.text)), words, order)
}

/// Returns the condition on the price of a company. The error is `NumberTooLarge` if only the price
/// does not fit.
fn price_condition(company: Reading, price: Reading) -> Result<Condition, Fault>
    ensures { result ≡ price_condition company price }
{
    match (company, price) {
        (Reading::Value(Value::Company(company)), Reading::Value(Value::Number(price))) => {
            Ok(Condition::Price(company, price))
        }
        (Reading::Value(Value::Company(_)), Reading::TooLarge) => Err(Fault::NumberTooLarge),
        _ => Err(Fault::WrongWords),
    }
}

/// Returns the condition that one word gives: a kind of train gives a phase, and a company that it
/// has floated.
fn condition_of(word: Reading) -> Result<Condition, Fault>
    ensures { result ≡ condition_of word }
{
    match word {
        Reading::Value(Value::Kind(kind)) => Ok(Condition::Phase(kind)),
        Reading::Value(Value::Company(company)) => Ok(Condition::Floated(company)),
        _ => Err(Fault::WrongWords),
    }
}

/// Overwrites `order` with the order that the words after a condition spell, and returns the
/// condition. A word that begins no order is wrong there, and so is a missing word.
fn read_under(
    condition: Result<Condition, Fault>,
    words: &Words,
    order: &mut Order,
) -> Result<Condition, Fault>
    ensures { put_conditional result order.new
        ≡ under condition (play_reading (texts_of words.now)) }
{
    let mut rest = words.duplicate();
    let Some(first) = rest.next() else {
        return Err(Fault::WrongWords);
    };
    let read = read_nearest(Grammar::Play, first.text, &rest, order);
    condition_if_read(condition, read)
}

/// Returns a condition, if it and an order after it were read; otherwise the fault of the two
/// together.
fn condition_if_read(
    condition: Result<Condition, Fault>,
    read: Result<(), Fault>,
) -> Result<Condition, Fault>
    ensures { result ≡ condition_if_read condition read }
{
    match (condition, read) {
        (Ok(condition), Ok(())) => Ok(condition),
        (Ok(_), Err(Fault::NumberTooLarge)) => Err(Fault::NumberTooLarge),
        (Err(Fault::NumberTooLarge), Ok(())) => Err(Fault::NumberTooLarge),
        (Err(Fault::NumberTooLarge), Err(Fault::NumberTooLarge)) => Err(Fault::NumberTooLarge),
        _ => Err(Fault::WrongWords),
    }
}
