//! The one spelling of an order, with its condition if it has one.
ghost use Rattle.std.specs.Prelude.{◌≡◌, ◌++◌, ◌∷◌, [], false, IfOk, List, OnErr, OnOk, map};
ghost use Rattle.std.specs.Option.{option_copied};
ghost use Rattle.map_tables.specs.Text.{text_of_place};
ghost use Rattle.map_tables.specs.declared.place.Place.{Place as MapPlace};
ghost use Rattle.order_grammar.specs.Condition.{condition_values};
ghost use Rattle.order_grammar.specs.Keyword.{text_of_keyword};
ghost use Rattle.order_grammar.specs.Print.{AddsPrefix, condition_text, conditional_spelling, joined, places_line};
ghost use Rattle.order_grammar.specs.Print.{places_text, spaced, spelling_of, text_of_round, text_of_value};
ghost use Rattle.order_grammar.specs.Print.{words_text};
ghost use Rattle.order_grammar.specs.declared.keyword.Keyword.TheVariants.{If, Players};
ghost use Rattle.order_grammar.specs.declared.order.Order.TheVariants.{Play, Run};
ghost use Rattle.order_grammar.specs.declared.order.Value.TheVariants.{Number};
ghost use Rattle.order_grammar.specs.declared.play.PlayOrder.TheVariants.{BuyTrain, Lay as LayOrder};
ghost use Rattle.order_grammar.specs.declared.play.PlayOrder.TheVariants.{Offer as OfferOrder};

use crate::condition::Condition;
use crate::keyword::Keyword;
use crate::name::Name;
use crate::order::{Offer, Order, TrainSource, Value};
use crate::play::PlayOrder;
use itoa::Integer;
use map_tables::{Lay, Place};
use std::alloc::{AllocError, Global};
use tables::{Kind, Round};

/// Returns the one spelling of an order: upper case, single spaces, no leading zeros. `Marks` has
/// none: its digits are in the line itself. Fails only if allocation fails.
pub fn print_line(alloc: Global, order: &Order) -> Result<Vec<u8>, AllocError>
    ensures { IfOk result (λ text. text.items ≡ spelling_of order.now) }
{
    let mut text = Vec::new(alloc);
    print_order(&mut text, order)?;
    Ok(text)
}

/// Returns the one spelling of an order with its condition, if it has one: upper case, single
/// spaces, no leading zeros. Fails only if allocation fails.
pub fn print_conditional(
    alloc: Global,
    condition: Option<&Condition>,
    order: &Order,
) -> Result<Vec<u8>, AllocError>
    ensures { IfOk result
        (λ text. text.items ≡ conditional_spelling (option_copied condition.entry) order.now) }
{
    let mut text = Vec::new(alloc);
    print_condition(&mut text, condition)?;
    print_order(&mut text, order)?;
    Ok(text)
}

/// Adds IF, the words of a condition and a space; nothing if there is no condition. If allocation
/// fails, a prefix of that may have been added.
pub fn print_condition(text: &mut Vec<u8>, condition: Option<&Condition>) -> Result<(), AllocError>
    ensures ok { OnOk result (text.new.items
        ≡ text.old.items ++ condition_text (option_copied condition.entry)) }
    ensures err { OnErr result (AddsPrefix text.old.items text.new.items
        (condition_text (option_copied condition.entry))) }
{
    let Some(condition) = condition else {
        return Ok(());
    };
    print_words_of_condition(text, *condition)?;
    text.push(b' ')?;
    Ok(())
}

/// Adds IF and the words of a condition.
fn print_words_of_condition(text: &mut Vec<u8>, condition: Condition) -> Result<(), AllocError>
    ensures ok { OnOk result (text.new.items
        ≡ text.old.items ++ words_text If (condition_values condition)) }
    ensures err { OnErr result (AddsPrefix text.old.items text.new.items
        (words_text If (condition_values condition))) }
{
    match condition {
        Condition::Price(company, price) => print_words(
            text,
            Keyword::If,
            &[
                Value::Word(Keyword::Price),
                Value::Company(company),
                Value::Word(Keyword::AtLeast),
                Value::Number(price),
            ],
        ),
        Condition::Phase(kind) => {
            let phase = Value::Word(Keyword::Phase);
            print_words(text, Keyword::If, &[phase, Value::Kind(kind)])
        }
        Condition::Floated(company) => {
            let floated = Value::Word(Keyword::Floated);
            print_words(text, Keyword::If, &[floated, Value::Company(company)])
        }
    }
}

/// Adds the spelling of an order: upper case, single spaces, no leading zeros. If allocation fails,
/// a prefix of that may have been added.
pub fn print_order(text: &mut Vec<u8>, order: &Order) -> Result<(), AllocError>
    ensures ok { OnOk result (text.new.items ≡ text.old.items ++ spelling_of order.now) }
    ensures err { OnErr result (AddsPrefix text.old.items text.new.items (spelling_of order.now)) }
{
    match order {
        Order::Blank => Ok(()),
        Order::Game { game, version } => {
            let numbers = [Value::Number(*game), Value::Number(*version)];
            print_words(text, Keyword::Game, &numbers)
        }
        Order::Players(names) => print_players(text, names.as_slice()),
        Order::Sheet { name, round } => {
            let head = [Value::Name(*name), Value::Round(*round)];
            print_words(text, Keyword::Sheet, &head)
        }
        Order::Turn => print_words(text, Keyword::Turn, &[]),
        Order::Company(company) => {
            print_words(text, Keyword::Company, &[Value::Company(*company)])
        }
        Order::Play(order) => print_play_order(text, *order),
        Order::Run { kind, run } => print_of_places(text, Keyword::Run, *kind, run.as_slice()),
        Order::Certs => print_words(text, Keyword::Certs, &[Value::Word(Keyword::One)]),
        Order::Cert {
            round,
            company,
            revenue,
        } => {
            let (round, company) = (Value::Round(*round), Value::Company(*company));
            print_words(
                text,
                Keyword::Cert,
                &[round, company, Value::Number(*revenue)],
            )
        }
        Order::Claim { kind, run } => print_of_places(text, Keyword::Claim, *kind, run.as_slice()),
        Order::Marks => print_words(text, Keyword::Marks, &[Value::HexDigits]),
    }
}

/// Adds the PLAYERS line.
fn print_players(text: &mut Vec<u8>, names: &[Name]) -> Result<(), AllocError>
    ensures ok { OnOk result (text.new.items
        ≡ text.old.items ++ joined (text_of_keyword Players ∷ names.now)) }
    ensures err { OnErr result (AddsPrefix text.old.items text.new.items
        (joined (text_of_keyword Players ∷ names.now))) }
{
    print_words(text, Keyword::Players, &[])?;
    print_names(text, names)
}

/// Adds a line that has a kind of train and the places of a run.
fn print_of_places(
    text: &mut Vec<u8>,
    keyword: Keyword,
    kind: Kind,
    places: &[Place],
) -> Result<(), AllocError>
    ensures ok { OnOk result (text.new.items
        ≡ text.old.items ++ places_line keyword kind places.now) }
    ensures err { OnErr result (AddsPrefix text.old.items text.new.items
        (places_line keyword kind places.now)) }
{
    print_words(text, keyword, &[Value::Kind(kind)])?;
    print_places(text, places)
}

/// Adds the prefix of an order to run a train of a kind; its places follow, each with a space
/// before it. Fails only if allocation fails.
pub fn print_run_prefix(text: &mut Vec<u8>, kind: Kind) -> Result<(), AllocError>
    ensures { OnOk result ((run : List MapPlace) →
        text.new.items ++ places_text run ≡ text.old.items ++ spelling_of (Run kind run)) }
{
    print_words(text, Keyword::Run, &[Value::Kind(kind)])
}

/// Adds the spelling of an order of play in few bytes: upper case, single spaces, no leading zeros.
/// If allocation fails, a prefix of that may have been added.
pub fn print_play_order(text: &mut Vec<u8>, order: PlayOrder) -> Result<(), AllocError>
    ensures ok { OnOk result (text.new.items
        ≡ text.old.items ++ spelling_of (Play order)) }
    ensures err { OnErr result (AddsPrefix text.old.items text.new.items
        (spelling_of (Play order))) }
{
    match order {
        PlayOrder::BuyPrivate(private) => {
            print_words(text, Keyword::Buy, &[Value::Private(private)])
        }
        PlayOrder::Bid { private, amount } => {
            print_amount(text, Keyword::Bid, Value::Private(private), amount)
        }
        PlayOrder::Limit { private, amount } => {
            print_amount(text, Keyword::Limit, Value::Private(private), amount)
        }
        PlayOrder::Par { company, price } => {
            print_amount(text, Keyword::Par, Value::Company(company), price)
        }
        PlayOrder::BuyShare { company, from } => {
            let shares = [Value::Company(company), Value::Word(from.keyword())];
            print_words(text, Keyword::Buy, &shares)
        }
        PlayOrder::Sell { company, shares } => {
            print_amount(text, Keyword::Sell, Value::Company(company), shares)
        }
        PlayOrder::ExchangeMohawk => {
            print_words(text, Keyword::Exchange, &[Value::Word(Keyword::Mohawk)])
        }
        PlayOrder::Lay(lay) => print_lay(text, lay),
        PlayOrder::Token(place) => print_words(text, Keyword::Token, &[Value::Place(place)]),
        PlayOrder::RunBest => print_words(text, Keyword::Run, &[Value::Word(Keyword::Best)]),
        PlayOrder::Pay => print_words(text, Keyword::Pay, &[]),
        PlayOrder::Withhold => print_words(text, Keyword::Withhold, &[]),
        PlayOrder::BuyTrain { kind, from } => print_purchase(text, kind, from),
        PlayOrder::Discard { company, kind } => {
            let train = [Value::Company(company), Value::Kind(kind)];
            print_words(text, Keyword::Discard, &train)
        }
        PlayOrder::BuyOwnedPrivate { private, price } => {
            print_amount(text, Keyword::Private, Value::Private(private), price)
        }
        PlayOrder::Raise { company, shares } => {
            print_amount(text, Keyword::Raise, Value::Company(company), shares)
        }
        PlayOrder::Offer(offer) => print_offer(text, offer),
    }
}

/// Adds an order that names one thing and an amount of dollars or shares.
fn print_amount(
    text: &mut Vec<u8>,
    keyword: Keyword,
    of: Value,
    amount: u32,
) -> Result<(), AllocError>
    ensures ok { OnOk result (text.new.items
        ≡ text.old.items ++ words_text keyword (of ∷ Number amount ∷ [])) }
    ensures err { OnErr result (AddsPrefix text.old.items text.new.items
        (words_text keyword (of ∷ Number amount ∷ []))) }
{
    print_words(text, keyword, &[of, Value::Number(amount)])
}

/// Adds the order of a lay.
fn print_lay(text: &mut Vec<u8>, lay: Lay) -> Result<(), AllocError>
    ensures ok { OnOk result (text.new.items ≡ text.old.items ++ spelling_of (Play (LayOrder lay))) }
    ensures err { OnErr result (AddsPrefix text.old.items text.new.items
        (spelling_of (Play (LayOrder lay)))) }
{
    let (tile, hex) = (Value::Tile(lay.tile), Value::Hex(lay.hex));
    let rotation = Value::Rotation(lay.rot);
    if lay.swap {
        let swap = Value::Word(Keyword::Swap);
        print_words(text, Keyword::Lay, &[tile, hex, rotation, swap])
    } else {
        print_words(text, Keyword::Lay, &[tile, hex, rotation])
    }
}

/// Adds the order to buy a train.
fn print_purchase(text: &mut Vec<u8>, kind: Kind, from: TrainSource) -> Result<(), AllocError>
    ensures ok { OnOk result (text.new.items
        ≡ text.old.items ++ spelling_of (Play (BuyTrain kind from))) }
    ensures err { OnErr result (AddsPrefix text.old.items text.new.items
        (spelling_of (Play (BuyTrain kind from)))) }
{
    let (kind, bank) = (Value::Kind(kind), Value::Word(Keyword::Bank));
    match from {
        TrainSource::Bank => print_words(text, Keyword::Train, &[kind, bank]),
        TrainSource::Trade(other) => {
            let trade = Value::Word(Keyword::Trade);
            print_words(
                text,
                Keyword::Train,
                &[kind, bank, trade, Value::Kind(other)],
            )
        }
        TrainSource::BankPool => {
            print_words(text, Keyword::Train, &[kind, Value::Word(Keyword::Pool)])
        }
        TrainSource::Company { seller, price } => {
            let (seller, price) = (Value::Company(seller), Value::Number(price));
            print_words(text, Keyword::Train, &[kind, seller, price])
        }
    }
}

/// Adds the consent to a sale.
fn print_offer(text: &mut Vec<u8>, offer: Offer) -> Result<(), AllocError>
    ensures ok { OnOk result (text.new.items
        ≡ text.old.items ++ spelling_of (Play (OfferOrder offer))) }
    ensures err { OnErr result (AddsPrefix text.old.items text.new.items
        (spelling_of (Play (OfferOrder offer)))) }
{
    match offer {
        Offer::Private {
            private,
            buyer,
            price,
        } => {
            let of = [
                Value::Word(Keyword::Private),
                Value::Private(private),
                Value::Company(buyer),
                Value::Number(price),
            ];
            print_words(text, Keyword::Offer, &of)
        }
        Offer::Train {
            kind,
            seller,
            buyer,
            price,
        } => {
            let of = [
                Value::Word(Keyword::Train),
                Value::Kind(kind),
                Value::Company(seller),
                Value::Company(buyer),
                Value::Number(price),
            ];
            print_words(text, Keyword::Offer, &of)
        }
    }
}

/// Adds a literal word, and words of values, each with a space before it.
fn print_words(text: &mut Vec<u8>, keyword: Keyword, values: &[Value]) -> Result<(), AllocError>
    ensures ok { OnOk result (text.new.items
        ≡ text.old.items ++ words_text keyword values.now) }
    ensures err { OnErr result (AddsPrefix text.old.items text.new.items
        (words_text keyword values.now)) }
{
    text.extend_from_slice(keyword.text())?;
    print_values(text, values)
}

/// Adds words of values, each with a space before it.
fn print_values(text: &mut Vec<u8>, values: &[Value]) -> Result<(), AllocError>
    ensures ok { OnOk result (text.new.items ≡ text.old.items ++ spaced (map text_of_value values.now)) }
    ensures err { OnErr result (AddsPrefix text.old.items text.new.items
        (spaced (map text_of_value values.now))) }
{
    for value in values {
        text.push(b' ')?;
        print_value(text, value)?;
    }
    Ok(())
}

/// Adds names, each with a space before it.
fn print_names(text: &mut Vec<u8>, names: &[Name]) -> Result<(), AllocError>
    ensures ok { OnOk result (text.new.items ≡ text.old.items ++ spaced names.now) }
    ensures err { OnErr result (AddsPrefix text.old.items text.new.items (spaced names.now)) }
{
    for name in names {
        text.push(b' ')?;
        text.extend_from_slice(name.text())?;
    }
    Ok(())
}

/// Adds places, each with a space before it.
fn print_places(text: &mut Vec<u8>, places: &[Place]) -> Result<(), AllocError>
    ensures ok { OnOk result (text.new.items ≡ text.old.items ++ places_text places.now) }
    ensures err { OnErr result (AddsPrefix text.old.items text.new.items (places_text places.now)) }
{
    for place in places {
        text.push(b' ')?;
        print_place(text, *place)?;
    }
    Ok(())
}

/// Adds a place. If allocation fails, the text does not change.
fn print_place(text: &mut Vec<u8>, place: Place) -> Result<(), AllocError>
    ensures ok { OnOk result (text.new.items ≡ text.old.items ++ text_of_place place) }
    ensures err { OnErr result (text.new.items ≡ text.old.items) }
{
    text.extend_from_slice(place.text().as_slice())
}

/// Adds the word of a value. If allocation fails, a prefix of that may have been added.
fn print_value(text: &mut Vec<u8>, value: &Value) -> Result<(), AllocError>
    ensures ok { OnOk result (text.new.items ≡ text.old.items ++ text_of_value value.now) }
    ensures err { OnErr result
        (AddsPrefix text.old.items text.new.items (text_of_value value.now)) }
{
    match value {
        Value::Number(number) => print_number(text, *number),
        Value::Name(name) => text.extend_from_slice(name.text()),
        Value::Round(round) => print_round(text, round),
        Value::Private(private) => text.extend_from_slice(private.code().as_bytes()),
        Value::Company(company) => text.extend_from_slice(company.code().as_bytes()),
        Value::Kind(kind) => text.extend_from_slice(kind.code().as_bytes()),
        Value::Tile(tile) => print_number(text, tile.number()),
        Value::Hex(hex) => text.extend_from_slice(hex.text().as_slice()),
        Value::Rotation(rotation) => print_number(text, rotation.turns()),
        Value::Place(place) => text.extend_from_slice(place.text().as_slice()),
        Value::HexDigits => Ok(()),
        Value::Word(keyword) => text.extend_from_slice(keyword.text()),
    }
}

/// Adds a round: `PR1`, `SR1` or `OR1.1`. If allocation fails, a prefix of that may have been
/// added.
pub fn print_round(text: &mut Vec<u8>, round: &Round) -> Result<(), AllocError>
    ensures ok { OnOk result (text.new.items ≡ text.old.items ++ text_of_round round.now) }
    ensures err { OnErr result
        (AddsPrefix text.old.items text.new.items (text_of_round round.now)) }
{
    match round {
        Round::Opening(number) => {
            text.extend_from_slice(b"PR")?;
            print_number(text, *number)
        }
        Round::Stock(number) => {
            text.extend_from_slice(b"SR")?;
            print_number(text, *number)
        }
        Round::Operating { set, number } => {
            text.extend_from_slice(b"OR")?;
            print_number(text, *set)?;
            text.push(b'.')?;
            print_number(text, *number)
        }
    }
}

/// Adds a number in digits, with a minus sign if it is negative. If allocation fails, the text does
/// not change.
pub fn print_number<I: Integer>(text: &mut Vec<u8>, number: I) -> Result<(), AllocError>
    ensures ok { OnOk result (text.new.items ≡ text.old.items ++ I.text number) }
    ensures err { OnErr result (text.new.items ≡ text.old.items) }
{
    let mut buffer = itoa::Buffer::new();
    text.extend_from_slice(buffer.format(number).as_bytes())
}
