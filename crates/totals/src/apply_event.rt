//! How an event changes the totals, table by table.
ghost use Rattle.std.specs.Prelude.{◌≡◌, ℕ, ◌<◌, ◌+◌, ◌^◌, ◌&&◌, ◌||◌, [], ◌∷◌, None, Some, false, is_some};
ghost use Rattle.std.specs.Prelude.{slice_index_or, unwrap_or};
ghost use Rattle.std.specs.Option.{option_map, option_or};
ghost use Rattle.events.specs.Event.{floated_by, obeyed_of, office_of, operated_by, par_set, square_set, says_bankrupt};
ghost use Rattle.events.specs.Event.{says_broken, transfer_of};
ghost use Rattle.events.specs.Orders.{limit_in, par_of_baltimore_in, said_by};
ghost use Rattle.events.specs.declared.event.Shareholder.TheVariants.{BankPool, Seat as OfSeat};
ghost use Rattle.totals.specs.Bids.{bid_made, bid_said, greater_bid};
ghost use Rattle.totals.specs.Totals.{at_private};
ghost use Rattle.totals.specs.Totals.{at_company, bid_in, count_at, flag_of, flag_then, here_if, sale_in};
ghost use Rattle.totals.specs.LookBack.{in_round};
ghost use Rattle.totals.specs.Operating.{rulings_then, tokens_placed, turn_said};
ghost use Rattle.totals.specs.Shares.{float_said, par_said, president_said, sale_said, same_shareholder, square_said};
ghost use Rattle.tables.specs.Roster.{index_of_company};
ghost use Rattle.tables.specs.Seat.{seat_at};

use crate::bids::apply_bid_on;
use crate::event_folds::Topic;
use crate::event_topics::ParOrdered;
use events::{Bid, Bidding, Event, Shareholder};
use tables::{
    Amount, COMPANIES, Company, PLAYERS_MOST, PRIVATES, PerCompany, PerPrivate, PerSeat, Private,
    Seat, Square,
};

/// Applies an event's word on a topic, if it has one.
pub(crate) fn apply<W: Drop>(said: &mut Option<W>, word: Option<W>)
    ensures { said.new ≡ option_or word said.old }
{
    if let Some(word) = word {
        *said = Some(word);
    }
}

/// Applies the par value that an event sets, in a table by the places of the companies.
pub(crate) fn apply_par(pars: &mut PerCompany<Option<Amount>>, event: &Event)
    ensures { (company : Company) → at_company pars.new company
        ≡ option_or (par_said company (par_set event.now)) (at_company pars.old company) }
{
    if let Some(par) = event.par() {
        pars[par.company.index()] = Some(par.price);
    }
}

/// Applies the square that an event sets.
pub(crate) fn apply_square(squares: &mut PerCompany<Option<Square>>, event: &Event)
    ensures { (company : Company) → at_company squares.new company
        ≡ option_or (square_said company (square_set event.now)) (at_company squares.old company) }
{
    if let Some(placement) = event.square() {
        squares[placement.company.index()] = Some(placement.square);
    }
}

/// Applies the president whom an event names.
pub(crate) fn apply_president(presidents: &mut PerCompany<Option<Seat>>, event: &Event)
    ensures { (company : Company) → at_company presidents.new company
        ≡ option_or (president_said company (office_of event.now))
        (at_company presidents.old company) }
{
    if let Some(office) = event.office() {
        presidents[office.company.index()] = Some(office.president);
    }
}

/// Applies the company that floats by an event.
pub(crate) fn apply_float(floats: &mut PerCompany<Option<Company>>, event: &Event)
    ensures { (company : Company) → at_company floats.new company
        ≡ option_or (float_said company (floated_by event.now)) (at_company floats.old company) }
{
    if let Some(company) = event.floated() {
        floats[company.index()] = Some(company);
    }
}

/// Applies what an event does to bids, in a table by the places of the privates and the seats.
pub(crate) fn apply_bids(bids: &mut PerPrivate<PerSeat<Option<Amount>>>, bidding: Option<Bidding>)
    ensures { (private : Private) (number : ℕ) → number < 6 → bid_in bids.new private number
        ≡ unwrap_or (bid_said private (seat_at number) bidding) (bid_in bids.old private number) }
{
    let private = match bidding {
        Some(Bidding::Made(private, _)) => private,
        Some(Bidding::Ended(private)) => private,
        None => return,
    };
    apply_bid_on(&mut bids[private.index()], private, bidding);
}

/// Applies a bid that is made, in a table of the greatest bids by the places of the privates.
pub(crate) fn apply_greatest_bid(
    greatest: &mut PerPrivate<Option<Amount>>,
    bidding: Option<Bidding>,
)
    ensures { (private : Private) → at_private greatest.new private
        ≡ greater_bid (bid_made private bidding) (at_private greatest.old private) }
{
    if let Some(Bidding::Made(private, bid)) = bidding {
        let place = private.index();
        greatest[place] = greater_bid(bid.amount, greatest[place]);
    }
}

/// Returns the greater of a bid and an earlier one, if there is one.
fn greater_bid(later: Amount, earlier: Option<Amount>) -> Option<Amount>
    ensures { result ≡ greater_bid (Some later) earlier }
{
    match earlier {
        Some(earlier) => Some(earlier.max(later)),
        None => Some(later),
    }
}

/// Applies that an event breaks the bank, if it does.
pub(crate) fn apply_broken(broken: &mut bool, event: &Event)
    ensures { broken.new ≡ (broken.old || says_broken event.now) }
{
    if matches!(event, Event::Broken) {
        *broken = true;
    }
}

/// Applies that an event makes a president bankrupt, if it does.
pub(crate) fn apply_bankrupt(bankrupt: &mut bool, event: &Event)
    ensures { bankrupt.new ≡ (bankrupt.old || says_bankrupt event.now) }
{
    if matches!(event, Event::Bankrupt(_)) {
        *bankrupt = true;
    }
}

/// Applies the place in the list of an event that sets the square of a company.
pub(crate) fn apply_arrival(arrivals: &mut PerCompany<Option<usize>>, place: usize, event: &Event)
    ensures { (company : Company) → at_company arrivals.new company
        ≡ option_or (here_if (square_said company (square_set event.now)) place)
        (at_company arrivals.old company) }
{
    if let Some(placement) = event.square() {
        arrivals[placement.company.index()] = Some(place);
    }
}

/// Applies the token that an event places, in a table of how many each company has placed.
pub(crate) fn apply_token(tokens: &mut PerCompany<usize>, event: &Event)
    ensures { (company : Company) → count_at tokens.old (index_of_company company) < 2 ^ 63 →
        count_at tokens.new (index_of_company company)
        ≡ count_at tokens.old (index_of_company company)
        + tokens_placed (event.now ∷ []) company }
{
    if let Some((_, company)) = event.token() {
        let count = tokens[company.index()];
        tokens[company.index()] = count.saturating_add(1);
    }
}

/// Applies the company that operates by an event. An event that begins a round clears the table.
pub(crate) fn apply_turn(operated: &mut PerCompany<bool>, event: &Event)
    ensures { (company : Company) → flag_of operated.new company
        ≡ flag_then event.now (is_some (turn_said company (operated_by event.now)))
        (flag_of operated.old company) }
{
    if event.round().is_some() {
        *operated = [false; COMPANIES];
        return;
    }
    if let Some(company) = event.operated() {
        operated[company.index()] = true;
    }
}

/// Returns a table without sales.
pub(crate) fn no_sales() -> PerCompany<PerSeat<bool>>
    ensures { (company : Company) (seat : Seat) → sale_in result company seat ≡ false }
{
    [[false; PLAYERS_MOST]; COMPANIES]
}

/// Applies the shares that a seat sells by an event. An event that begins a round clears the table.
pub(crate) fn apply_sale(sales: &mut PerCompany<PerSeat<bool>>, event: &Event)
    ensures { (company : Company) (seat : Seat) → seat.0 < 6 → sale_in sales.new company seat
        ≡ flag_then event.now (is_some (sale_said company seat (transfer_of event.now)))
        (sale_in sales.old company seat) }
{
    if event.round().is_some() {
        *sales = no_sales();
        return;
    }
    if let Some(transfer) = event.transfer() {
        apply_sale_of(
            &mut sales[transfer.company.index()],
            transfer.from,
            transfer.to,
        );
    }
}

/// Applies a transfer of shares of a company, if it is from a seat to the bank pool.
fn apply_sale_of(sales: &mut PerSeat<bool>, from: Shareholder, to: Shareholder)
    ensures { (seat : Seat) → seat.0 < 6 → slice_index_or sales.new seat.0 false
        ≡ (slice_index_or sales.old seat.0 false
        || (same_shareholder from (OfSeat seat) && same_shareholder to BankPool)) }
{
    if let (Shareholder::Seat(seat), Shareholder::BankPool) = (from, to) {
        let number = seat.index();
        if number < PLAYERS_MOST {
            sales[number] = true;
        }
    }
}

/// Returns a table in which no seat has a ruled line.
pub(crate) fn no_rulings() -> PerSeat<usize>
    ensures { (entry : ℕ) → count_at result entry ≡ 0 }
{
    [0; PLAYERS_MOST]
}

/// Applies the seat whose line an event rules, in a table of how many lines of each seat were
/// ruled; an event that begins a round clears the table.
pub(crate) fn apply_ruling(rulings: &mut PerSeat<usize>, event: &Event)
    ensures { (seat : Seat) → seat.0 < 6 → count_at rulings.old seat.0 < 2 ^ 63 →
        count_at rulings.new seat.0 ≡ rulings_then seat (count_at rulings.old seat.0) event.now }
{
    if event.round().is_some() {
        *rulings = no_rulings();
        return;
    }
    if let Some(seat) = event.ruled() {
        let number = seat.index();
        if number < PLAYERS_MOST {
            rulings[number] = rulings[number].saturating_add(1);
        }
    }
}

/// Returns a table without limits.
pub(crate) fn no_limits() -> PerPrivate<PerSeat<Option<Amount>>>
    ensures { (private : Private) (number : ℕ) → number < 6 →
        bid_in result private number ≡ None }
{
    [[None; PLAYERS_MOST]; PRIVATES]
}

/// Returns the limit that a ruled line sets in an auction of a private, in the form of a bid.
fn limit_in_event(event: &Event) -> Option<Bidding>
    ensures { (private : Private) (seat : Seat) → bid_said private seat result
        ≡ option_map Some (said_by seat (limit_in private) (obeyed_of event.now)) }
{
    match event {
        Event::Ruled { seat, ruling, .. } => match ruling.limit() {
            Some((private, amount)) => {
                let seat = *seat;
                Some(Bidding::Made(private, Bid { seat, amount }))
            }
            None => None,
        },
        _ => None,
    }
}

/// Applies the limit of a seat in an auction of a private by an event, in a table like that of
/// bids. An event that begins a round clears the table.
pub(crate) fn apply_limit(limits: &mut PerPrivate<PerSeat<Option<Amount>>>, event: &Event)
    ensures { (private : Private) (seat : Seat) → seat.0 < 6 → bid_in limits.new private seat.0
        ≡ unwrap_or (in_round (λ e. said_by seat (limit_in private) (obeyed_of e)) event.now)
        (bid_in limits.old private seat.0) }
{
    if event.round().is_some() {
        *limits = no_limits();
        return;
    }
    apply_bids(limits, limit_in_event(event));
}

/// Applies the par value of BO that a seat orders by an event, in a table by the seats.
pub(crate) fn apply_par_order(orders: &mut PerSeat<Option<Amount>>, event: &Event)
    ensures { (seat : Seat) → seat.0 < 6 → slice_index_or orders.new seat.0 None
        ≡ option_or (said_by seat par_of_baltimore_in (obeyed_of event.now))
        (slice_index_or orders.old seat.0 None) }
{
    if let Some(seat) = event.ruled() {
        let number = seat.index();
        if number < PLAYERS_MOST {
            apply(&mut orders[number], ParOrdered(seat).word(event));
        }
    }
}
