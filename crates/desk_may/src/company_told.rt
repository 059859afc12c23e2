//! What is said about the rows of a company's turn: the trains and privates that it may buy if
//! everybody asked consents, and those of the bank and of players that it may not.
ghost use Rattle.std.specs.Prelude.{◌≡◌};
ghost use Rattle.desk_may.specs.CompanyTold.{giver_of, not_of_private, not_of_train, not_told};
ghost use Rattle.desk_may.specs.CompanyTold.{note_of_private, note_of_train, other_giver, rule_if_given};
ghost use Rattle.desk_may.specs.CompanyTold.{told_of_bank, told_of_private, told_of_train, told_private};
ghost use Rattle.desk_may.specs.CompanyTold.{told_private_at, told_train, up_to_twice};
ghost use Rattle.moves.specs.PriceLaws.{cash_of_company};

use crate::offerers::as_offered;
use crate::teller::Teller;
use crate::told::{Held, Note, Told, lacks_money, not_by};
use forced_purchase::Operator;
use history::{History, Holder, Party, Refusal};
use moves::{Answer, Row};
use order_grammar::{PlayOrder, TrainSource};
use purchases::{Consents, is_president, judge_private, sells};
use tables::{Amount, Company, Kind, Money, Private, Seat, face, train};

/// A company whose turn has come, once it has withheld, and who presided as the round began.
#[derive(Clone, Copy)]
pub(crate) struct TrainTeller<'a> {
    pub(crate) history: &'a History,
    pub(crate) by: Operator,
    pub(crate) presidents: &'a [Option<Seat>],
}

impl Teller for TrainTeller<'_> {
    ghost told = { λ teller row.
        told_of_train teller.presidents.now teller.history.now teller.by row };

    fn tell(&self, row: &Row) -> Option<Told> {
        told_of_train(self.presidents, self.history, self.by, row)
    }
}

/// A company in its turn.
#[derive(Clone, Copy)]
pub(crate) struct PrivateTeller<'a> {
    pub(crate) history: &'a History,
    pub(crate) by: Operator,
}

impl Teller for PrivateTeller<'_> {
    ghost told = { λ teller row. told_of_private teller.history.now teller.by row };

    fn tell(&self, row: &Row) -> Option<Told> {
        told_of_private(self.history, self.by, row)
    }
}

/// Returns what is said about the row of a train.
fn told_of_train(
    presidents: &[Option<Seat>],
    history: &History,
    by: Operator,
    row: &Row,
) -> Option<Told>
    ensures { result ≡ told_of_train presidents.now history.now by row.now }
{
    match row.order {
        PlayOrder::BuyTrain { kind, from } => {
            told_train(history, by, kind, from, as_offered(presidents, row.answer))
        }
        _ => None,
    }
}

/// Returns what is said about the purchase of a train with this outcome, if no offer comes too
/// late.
fn told_train(
    history: &History,
    by: Operator,
    kind: Kind,
    from: TrainSource,
    answer: Answer,
) -> Option<Told>
    ensures { result ≡ told_train history.now by kind from answer }
{
    match answer {
        Answer::Obeyed { price } => {
            let note = note_of_train(history, by, from);
            Some(Told::May { price, note })
        }
        Answer::WithConsent { price, .. } => {
            let note = note_of_train(history, by, from);
            Some(Told::May { price, note })
        }
        Answer::Refused(rule) => not_of_train(history, by, kind, from, rule),
    }
}

/// Returns what is said of a train that may be bought: for another company's train the greatest
/// price, and who must offer it.
fn note_of_train(history: &History, by: Operator, from: TrainSource) -> Note
    ensures { result ≡ note_of_train history.now by from }
{
    match from {
        TrainSource::Company { seller, .. } => {
            let most = cash_of_company(history, by.company);
            let giver = other_giver(history.now().president(seller), by.president);
            Note::UpTo { most, giver }
        }
        _ => Note::Nothing,
    }
}

/// Returns what is said about a train that a rule refuses: only about one that the bank sells,
/// without a trade-in.
fn not_of_train(
    history: &History,
    by: Operator,
    kind: Kind,
    from: TrainSource,
    rule: Refusal,
) -> Option<Told>
    ensures { result ≡ not_of_train history.now by kind from rule }
{
    match from {
        TrainSource::Bank => told_of_bank(history, by.company, kind, rule),
        _ => None,
    }
}

/// Returns what is said about a train that a rule refuses, if the bank sells it.
fn told_of_bank(history: &History, company: Company, kind: Kind, rule: Refusal) -> Option<Told>
    ensures { result ≡ told_of_bank history.now company kind rule }
{
    if !sells(&history.now(), kind) {
        return None;
    }
    Some(not_told(history, company, train(kind).price, rule))
}

/// Returns what is said about an order of a company that a rule refuses; if the company has too
/// little money, also the price and its cash.
fn not_told(history: &History, company: Company, price: Amount, rule: Refusal) -> Told
    ensures { result ≡ not_told history.now company price rule }
{
    if !lacks_money(rule) {
        return not_by(rule);
    }
    let held = Held::ItsCash(cash_of_company(history, company));
    let price = Some(Money::from(price));
    Told::Not { rule, price, held }
}

/// Returns a company's cash, in dollars.
fn cash_of_company(history: &History, company: Company) -> Money
    ensures { result ≡ cash_of_company history.now company }
{
    history.cash(Party::of_company(company))
}

/// Returns who must offer something, unless it is this player.
fn other_giver(giver: Option<Seat>, seat: Seat) -> Option<Seat>
    ensures { result ≡ other_giver giver seat }
{
    if is_president(giver, seat) {
        None
    } else {
        giver
    }
}

/// Returns what is said about the row of a private.
fn told_of_private(history: &History, by: Operator, row: &Row) -> Option<Told>
    ensures { result ≡ told_of_private history.now by row.now }
{
    match row.order {
        PlayOrder::BuyOwnedPrivate { private, price } => {
            told_private_at(history, by, private, price, row.answer)
        }
        _ => None,
    }
}

/// Returns what is said about a private at a price: only at the lowest, half of its face value.
fn told_private_at(
    history: &History,
    by: Operator,
    private: Private,
    price: Amount,
    answer: Answer,
) -> Option<Told>
    ensures { result ≡ told_private_at history.now by private price answer }
{
    if price != face(private) / 2 {
        return None;
    }
    told_private(history, by, private, price, answer)
}

/// Returns what is said about the purchase of a private with this outcome.
fn told_private(
    history: &History,
    by: Operator,
    private: Private,
    least: Amount,
    answer: Answer,
) -> Option<Told>
    ensures { result ≡ told_private history.now by private least answer }
{
    match answer {
        Answer::Obeyed { price } => {
            let note = note_of_private(history, by, private);
            Some(Told::May { price, note })
        }
        Answer::WithConsent { price, .. } => {
            let note = note_of_private(history, by, private);
            Some(Told::May { price, note })
        }
        Answer::Refused(rule) => not_of_private(history, by.company, private, least, rule),
    }
}

/// Returns what is said of a private that may be bought: the greatest price, and who must offer it.
fn note_of_private(history: &History, by: Operator, private: Private) -> Note
    ensures { result ≡ note_of_private history.now by private }
{
    let most = up_to_twice(face(private), cash_of_company(history, by.company));
    let giver = other_giver(giver_of(history, private), by.president);
    Note::UpTo { most, giver }
}

/// Returns twice a face value, in dollars, or the cash, if that is less.
fn up_to_twice(face: Amount, cash: Money) -> Money
    ensures { result ≡ up_to_twice face cash }
{
    let twice = 2 * Money::from(face);
    if twice <= cash { twice } else { cash }
}

/// Returns the player who owns a private; `None` if no player does.
fn giver_of(history: &History, private: Private) -> Option<Seat>
    ensures { result ≡ giver_of history.now.events private }
{
    match history.owner(private) {
        Some(Holder::Seat(giver)) => Some(giver),
        _ => None,
    }
}

/// Returns what is said about a private that a rule refuses, if a player owns it.
fn not_of_private(
    history: &History,
    company: Company,
    private: Private,
    price: Amount,
    rule: Refusal,
) -> Option<Told>
    ensures { result ≡ not_of_private history.now company private price rule }
{
    if giver_of(history, private).is_none() {
        return None;
    }
    let rule = rule_if_given(history, company, private, price, rule);
    Some(not_told(history, company, price, rule))
}

/// Returns the first rule that the purchase of a private breaks if its owner consents; this rule if
/// it breaks none then.
fn rule_if_given(
    history: &History,
    company: Company,
    private: Private,
    price: Amount,
    rule: Refusal,
) -> Refusal
    ensures { result ≡ rule_if_given history.now company private price rule }
{
    match judge_private(history, company, private, price, Consents::All) {
        Some(broken) => Refusal::Private(broken),
        None => rule,
    }
}
