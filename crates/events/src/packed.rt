//! Orders and rulings as events keep them, in few bytes. A conditional order is in a box with its
//! condition.
ghost use Rattle.std.specs.Prelude.{◌≡◌, ◌++◌, None, Some, MatchResult, OnOk};
ghost use Rattle.std.specs.Option.{option_copied};
ghost use Rattle.events.specs.Event.{acts, order_obeyed};
ghost use Rattle.events.specs.Packed.{TakesBox, order_in, play_in, ruling_by, verdict_in};
ghost use Rattle.events.specs.Offers.{offer_obeyed, offer_said, same_offer, same_terms};
ghost use Rattle.events.specs.Orders.{limit_obeyed, limit_said, par_of_baltimore_in, par_of_baltimore_obeyed};
ghost use Rattle.events.specs.RulingText.{order_text, verdict_of};
ghost use Rattle.events.specs.declared.ruling.Ruling.TheVariants.{Faulty, Obeyed, Refused};
ghost use Rattle.order_grammar.specs.Condition.{ordered};
ghost use Rattle.order_grammar.specs.Print.{spelling_of};
ghost use Rattle.order_grammar.specs.declared.order.Order.TheVariants as order;
ghost use Rattle.order_grammar.specs.declared.play.PlayOrder.TheVariants as play_order;

use crate::packed_place::PackedPlace;
use crate::packed_run::{LongRun, ShortRun, print_places};
use crate::ruling::{Refusal, Ruling, Verdict};
use map_tables::Run;
use order_grammar::{
    Condition, Fault, Offer, Order, PlayOrder, print_condition, print_order, print_play_order,
    print_run_prefix,
};
use std::alloc::{AllocError, Global};
use std::marker::Model;
use tables::{Amount, Company, Kind, Private, par_square};

/// An order that is to be ruled, with its condition if it has one, in few bytes. In a contract it
/// is the two.
#[derive(Drop)]
pub struct PackedLine {
    packed: PackedForm,
}

/// An order without a condition, or a conditional one in a box.
#[derive(Drop)]
enum PackedForm {
    Plain(PackedOrder),
    Conditional(Box<PackedConditional>),
}

/// An order under its condition.
#[derive(Drop)]
struct PackedConditional {
    condition: Condition,
    order: PackedOrder,
}

/// An order of play in few bytes, a run of few places, any other run in a box, or a line that is no
/// order of play in a box.
#[derive(Drop)]
enum PackedOrder {
    Play(PlayOrder),
    ShortRun { kind: Kind, run: ShortRun },
    LongRun { kind: Kind, run: Box<LongRun> },
    Boxed(Box<Order>),
}

impl Model for PackedLine {
    ghost use Rattle.events.specs.Packed.{ordered_in};
    ghost use Rattle.order_grammar.specs.Condition.{Ordered};

    ghost Value = { Ordered };

    ghost view = { λ a. ordered_in a.packed };
}

impl PackedLine {
    /// Packs a copy of an order with its condition, if it has one. Fails only if the allocation of
    /// a box fails. Of the orders that are ruled, only conditional ones and runs of more than five
    /// places need a box.
    pub fn pack(
        alloc: Global,
        condition: Option<&Condition>,
        order: &Order,
    ) -> Result<PackedLine, AllocError>
        ensures { MatchResult result
            (λ packed. packed ≡ ordered (option_copied condition.entry) order.now)
            (λ _. TakesBox (option_copied condition.entry) order.now) }
    {
        let order = PackedOrder::pack(alloc, order)?;
        let packed = match condition {
            None => PackedForm::Plain(order),
            Some(condition) => {
                let condition = *condition;
                PackedForm::Conditional(Box::new(alloc, PackedConditional { condition, order })?)
            }
        };
        Ok(PackedLine { packed })
    }
}

impl PackedOrder {
    /// Packs a copy of an order.
    fn pack(alloc: Global, order: &Order) -> Result<PackedOrder, AllocError>
        ensures { MatchResult result (λ packed. order_in packed ≡ order.now)
            (λ _. TakesBox None order.now) }
    {
        let packed = match order {
            Order::Run { kind, run } => match ShortRun::pack(run) {
                Some(run) => PackedOrder::ShortRun { kind: *kind, run },
                None => PackedOrder::LongRun {
                    kind: *kind,
                    run: Box::new(alloc, LongRun::pack(alloc, run)?)?,
                },
            },
            Order::Play(order) => PackedOrder::Play(*order),
            other => PackedOrder::Boxed(Box::new(alloc, other.duplicate())?),
        };
        Ok(packed)
    }

    /// Returns the order that is packed.
    fn order(&self) -> Order
        ensures { result ≡ order_in self.now }
    {
        match self {
            PackedOrder::Play(order) => Order::Play(*order),
            PackedOrder::ShortRun { kind, run } => run_order(*kind, run.run()),
            PackedOrder::LongRun { kind, run } => run_order(*kind, run.run()),
            PackedOrder::Boxed(order) => order.duplicate(),
        }
    }

    /// Returns the order of play, unless it is a run through places.
    fn play(&self) -> Option<PlayOrder>
        ensures { result ≡ play_in (Some (order_in self.now)) }
    {
        match self {
            PackedOrder::Play(order) => Some(*order),
            PackedOrder::Boxed(order) => play_of(order),
            _ => None,
        }
    }

    /// Adds the spelling of the order.
    fn print(&self, text: &mut Vec<u8>) -> Result<(), AllocError>
        ensures { OnOk result (text.new.items
            ≡ text.old.items ++ spelling_of (order_in self.now)) }
    {
        match self {
            PackedOrder::Play(order) => print_play_order(text, *order),
            PackedOrder::ShortRun { kind, run } => print_run(text, *kind, run.places()),
            PackedOrder::LongRun { kind, run } => print_run(text, *kind, run.places()),
            PackedOrder::Boxed(order) => print_order(text, order),
        }
    }
}

/// A ruling as an event keeps it, in few bytes; in a contract it is the ruling.
#[derive(Drop)]
pub struct PackedRuling {
    packed: PackedRulingForm,
}

/// What became of an order.
#[derive(Clone, Copy)]
enum OrderVerdict {
    Obeyed,
    Refused(Refusal),
}

impl OrderVerdict {
    fn verdict(self) -> Verdict
        ensures { result ≡ verdict_in self }
    {
        match self {
            OrderVerdict::Obeyed => Verdict::Obeyed,
            OrderVerdict::Refused(rule) => Verdict::Refused(rule),
        }
    }
}

/// A packed order with its verdict, or what is wrong with the line.
#[derive(Drop)]
enum PackedRulingForm {
    Play {
        verdict: OrderVerdict,
        order: PlayOrder,
    },
    ShortRun {
        verdict: OrderVerdict,
        kind: Kind,
        run: ShortRun,
    },
    LongRun {
        verdict: OrderVerdict,
        kind: Kind,
        run: Box<LongRun>,
    },
    Boxed {
        verdict: OrderVerdict,
        order: Box<Order>,
    },
    Conditional {
        verdict: OrderVerdict,
        order: Box<PackedConditional>,
    },
    Faulty(Fault),
}

// The verdict is beside the order's form, so that a ruling takes no more space than an order.
const _: () = prove!(size_of::<PackedRuling>() <= 16);

impl Model for PackedRuling {
    ghost use Rattle.events.specs.Packed.{ruling_in};
    ghost use Rattle.events.specs.declared.ruling.Ruling.{Ruling};

    ghost Value = { Ruling };

    ghost view = { λ a. ruling_in a.packed };
}

impl PackedRuling {
    /// Returns the ruling of an order that was carried out; its condition held, if it has one.
    pub fn obeyed(order: PackedLine) -> PackedRuling
        ensures { result ≡ Obeyed order.condition order.order }
    {
        PackedRuling::of(OrderVerdict::Obeyed, order)
    }

    /// Returns the ruling of an order that breaks a rule of play; this is the first that it breaks.
    pub fn refused(rule: Refusal, order: PackedLine) -> PackedRuling
        ensures { result ≡ Refused rule order.condition order.order }
    {
        PackedRuling::of(OrderVerdict::Refused(rule), order)
    }

    /// Returns the ruling of a line that has a fault or is out of place.
    pub fn faulty(fault: Fault) -> PackedRuling
        ensures { result ≡ Faulty fault }
    {
        PackedRuling {
            packed: PackedRulingForm::Faulty(fault),
        }
    }

    /// Returns the ruling of an order with this verdict.
    fn of(verdict: OrderVerdict, order: PackedLine) -> PackedRuling
        ensures { result ≡ ruling_by verdict order.condition order.order }
    {
        let packed = match order.packed {
            PackedForm::Plain(PackedOrder::Play(order)) => PackedRulingForm::Play {
                verdict,
                order,
            },
            PackedForm::Plain(PackedOrder::ShortRun { kind, run }) => {
                PackedRulingForm::ShortRun { verdict, kind, run }
            }
            PackedForm::Plain(PackedOrder::LongRun { kind, run }) => {
                PackedRulingForm::LongRun { verdict, kind, run }
            }
            PackedForm::Plain(PackedOrder::Boxed(order)) => PackedRulingForm::Boxed {
                verdict,
                order,
            },
            PackedForm::Conditional(order) => PackedRulingForm::Conditional { verdict, order },
        };
        PackedRuling { packed }
    }

    /// Returns the ruling that is packed.
    pub fn ruling(&self) -> Ruling
        ensures { result ≡ self.now }
    {
        match &self.packed {
            PackedRulingForm::Play { verdict, order } => {
                ruling_of(*verdict, None, Order::Play(*order))
            }
            PackedRulingForm::ShortRun { verdict, kind, run } => {
                ruling_of(*verdict, None, run_order(*kind, run.run()))
            }
            PackedRulingForm::LongRun { verdict, kind, run } => {
                ruling_of(*verdict, None, run_order(*kind, run.run()))
            }
            PackedRulingForm::Boxed { verdict, order } => ruling_of(
                *verdict,
                None,
                order.duplicate(),
            ),
            PackedRulingForm::Conditional { verdict, order } => {
                ruling_of(*verdict, Some(order.condition), order.order.order())
            }
            PackedRulingForm::Faulty(fault) => Ruling::Faulty(*fault),
        }
    }

    /// Returns what became of the line, without the order.
    pub fn verdict(&self) -> Verdict
        ensures { result ≡ verdict_of self.now }
    {
        match &self.packed {
            PackedRulingForm::Play { verdict, .. } => verdict.verdict(),
            PackedRulingForm::ShortRun { verdict, .. } => verdict.verdict(),
            PackedRulingForm::LongRun { verdict, .. } => verdict.verdict(),
            PackedRulingForm::Boxed { verdict, .. } => verdict.verdict(),
            PackedRulingForm::Conditional { verdict, .. } => verdict.verdict(),
            PackedRulingForm::Faulty(fault) => Verdict::Faulty(*fault),
        }
    }

    /// Adds the spelling of its order with the condition, if it has one: upper case, single spaces,
    /// no leading zeros. Adds nothing for a fault. Fails only if allocation fails.
    pub fn print_order(&self, text: &mut Vec<u8>) -> Result<(), AllocError>
        ensures { OnOk result (text.new.items ≡ text.old.items ++ order_text self.now) }
    {
        match &self.packed {
            PackedRulingForm::Play { order, .. } => print_play_order(text, *order),
            PackedRulingForm::ShortRun { kind, run, .. } => print_run(text, *kind, run.places()),
            PackedRulingForm::LongRun { kind, run, .. } => print_run(text, *kind, run.places()),
            PackedRulingForm::Boxed { order, .. } => print_order(text, order),
            PackedRulingForm::Conditional { order, .. } => {
                print_condition(text, Some(&order.condition))?;
                order.order.print(text)
            }
            PackedRulingForm::Faulty(_) => Ok(()),
        }
    }

    /// Returns the order of play that it obeys, unless that is a run through places.
    #[inline(always)]
    pub fn play_obeyed(&self) -> Option<PlayOrder>
        ensures { result ≡ play_in (order_obeyed self.now) }
    {
        match &self.packed {
            PackedRulingForm::Play {
                verdict: OrderVerdict::Obeyed,
                order,
            } => Some(*order),
            PackedRulingForm::Boxed {
                verdict: OrderVerdict::Obeyed,
                order,
            } => play_of(order),
            PackedRulingForm::Conditional {
                verdict: OrderVerdict::Obeyed,
                order,
            } => order.order.play(),
            _ => None,
        }
    }

    /// Returns whether it obeys an order that is by itself an act of a turn: the purchase of a
    /// private, a bid on one, or a sale of shares. The event shows a purchase of shares.
    pub fn is_act(&self) -> bool
        ensures { result ≡ acts self.now }
    {
        matches!(
            self.play_obeyed(),
            Some(PlayOrder::BuyPrivate(_) | PlayOrder::Bid { .. } | PlayOrder::Sell { .. })
        )
    }

    /// Returns the private and the limit, in dollars, of the LIMIT order that it obeys, if it obeys
    /// one.
    pub fn limit(&self) -> Option<(Private, Amount)>
        ensures { (private : Private) →
            limit_said private result ≡ limit_obeyed private self.now }
    {
        match self.play_obeyed() {
            Some(PlayOrder::Limit { private, amount }) => Some((private, amount)),
            _ => None,
        }
    }

    /// Returns the limit that the order that it obeys sets for an auction of a private, in dollars,
    /// if it sets one.
    pub fn limit_on(&self, private: Private) -> Option<Amount>
        ensures { result ≡ limit_obeyed private self.now }
    {
        limit_said(private, self.limit())
    }

    /// Returns the sale that the order that it obeys offers, if it offers one.
    pub fn offer(&self) -> Option<Offer>
        ensures { (sale : Offer) → offer_said sale result ≡ offer_obeyed sale self.now }
    {
        match self.play_obeyed() {
            Some(PlayOrder::Offer(sale)) => Some(sale),
            _ => None,
        }
    }

    /// Returns this sale, if the order that it obeys offers it.
    pub fn offer_of(&self, sale: Offer) -> Option<Offer>
        ensures { result ≡ offer_obeyed sale self.now }
    {
        match self.offer() {
            Some(other) if is_offer(other, sale) => Some(other),
            _ => None,
        }
    }

    /// Returns the par value that the order that it obeys sets for BO, if it sets one.
    pub fn par_of_baltimore(&self) -> Option<Amount>
        ensures { result ≡ par_of_baltimore_obeyed self.now }
    {
        match self.play_obeyed() {
            Some(PlayOrder::Par { company, price }) => par_of_baltimore(company, price),
            _ => None,
        }
    }
}

/// Returns the sum said for a private, if it is this private.
fn limit_said(private: Private, said: Option<(Private, Amount)>) -> Option<Amount>
    ensures { result ≡ limit_said private said }
{
    match said {
        Some((other, amount)) if other == private => Some(amount),
        _ => None,
    }
}

/// Returns whether two sales that are offered are the same.
pub fn is_offer(one: Offer, sale: Offer) -> bool
    ensures { result ≡ same_offer one sale }
{
    match one {
        Offer::Private {
            private,
            buyer,
            price,
        } => match sale {
            Offer::Private {
                private: of,
                buyer: to,
                price: sum,
            } => private == of && is_on_terms(buyer, price, to, sum),
            Offer::Train { .. } => false,
        },
        Offer::Train {
            kind,
            seller,
            buyer,
            price,
        } => match sale {
            Offer::Private { .. } => false,
            Offer::Train {
                kind: of,
                seller: from,
                buyer: to,
                price: sum,
            } => kind == of && seller == from && is_on_terms(buyer, price, to, sum),
        },
    }
}

/// Returns whether two sales are to the same buyer at the same price.
fn is_on_terms(buyer: Company, price: Amount, to: Company, sum: Amount) -> bool
    ensures { result ≡ same_terms buyer price to sum }
{
    buyer == to && price == sum
}

/// Returns the ruling of an order.
fn ruling_of(verdict: OrderVerdict, condition: Option<Condition>, order: Order) -> Ruling
    ensures { result ≡ ruling_by verdict condition order }
{
    match verdict {
        OrderVerdict::Obeyed => Ruling::Obeyed { condition, order },
        OrderVerdict::Refused(rule) => Ruling::Refused {
            rule,
            condition,
            order,
        },
    }
}

/// Adds the spelling of the order to run a train.
fn print_run(text: &mut Vec<u8>, kind: Kind, places: &[PackedPlace]) -> Result<(), AllocError>
    ensures { OnOk result (text.new.items
        ≡ text.old.items ++ spelling_of (order.Run kind places.now)) }
{
    print_run_prefix(text, kind)?;
    print_places(text, places)
}

/// Returns an order of play, unless it is a run through places; `None` for any other line.
fn play_of(order: &Order) -> Option<PlayOrder>
    ensures { result ≡ play_in (Some order.now) }
{
    match order {
        Order::Play(order) => Some(*order),
        _ => None,
    }
}

/// Returns the order to run a train.
fn run_order(kind: Kind, run: Run) -> Order
    ensures { result ≡ order.Run kind run }
{
    Order::Run { kind, run }
}

/// Returns the par value that an order sets for BO, if the company that it names is BO.
fn par_of_baltimore(company: Company, price: Amount) -> Option<Amount>
    ensures { result ≡ par_of_baltimore_in (order.Play (play_order.Par company price)) }
{
    if company == Company::BaltimoreOhio && par_square(price).is_some() {
        Some(price)
    } else {
        None
    }
}
