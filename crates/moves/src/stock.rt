//! The rows of a stock round: for each company the purchases and sales, and the exchange of MH.
ghost use Rattle.std.specs.Prelude.{◌≡◌, ◌++◌, ◌∷◌, [], IfOk, OnOk, map, pos};
ghost use Rattle.moves.specs.Deals.{brought_by};
ghost use Rattle.moves.specs.StockRows.{is_number_asked, orders_of, orders_of_companies, orders_of_sale};
ghost use Rattle.moves.specs.StockRows.{sales_of, shares_from, starts_of, stock_answer, stock_cost, stock_orders, stock_row};
ghost use Rattle.stock_round.specs.Exchange.{exchange_judgement};
ghost use Rattle.stock_round.specs.Orders.{stock_judgement};
ghost use Rattle.order_grammar.specs.declared.order.Order.TheVariants.{Play};

use crate::row::{Answer, Row, answer_of, push_row};
use certs::{Purchase, Sale, market_price, may_buy, may_sell, purchase_cost};
use history::{GameView, History, Refusal, ShareCount, Shareholder, StockRule};
use order_grammar::{PlayOrder, ShareSource};
use std::alloc::{AllocError, Global};
use stock_round::is_no_exchange;
use tables::{Amount, CHART_ROWS, Company, Money, Seat, par_value};

/// The numbers of shares whose sale is considered: a company has ten, and a sale of one more is
/// refused.
const NUMBERS: [Amount; 11] = [1, 2, 3, 4, 5, 6, 7, 8, 9, 10, 11];

/// Returns the outcome of each purchase from each company, of each sale up to one more share than
/// the seat has, and of the exchange of MH, as the next line of a seat's turn of a stock round,
/// in which it has bought of this company or of none. Fails only if allocation fails.
pub fn stock_rows(
    alloc: Global,
    history: &History,
    seat: Seat,
    bought: Option<Company>,
) -> Result<Vec<Row>, AllocError>
    ensures { IfOk result (λ rows. rows.items
        ≡ map (stock_row history.now seat bought)
        (stock_orders history.now.events seat)) }
{
    let mut rows = Vec::new(alloc);
    push_orders(&mut rows, history, seat, bought)?;
    Ok(rows)
}

/// Adds the rows of each company, and that of the exchange.
fn push_orders(
    rows: &mut Vec<Row>,
    history: &History,
    seat: Seat,
    bought: Option<Company>,
) -> Result<(), AllocError>
    ensures { OnOk result (rows.new.items ≡ rows.old.items
        ++ map (stock_row history.now seat bought)
        (stock_orders history.now.events seat)) }
{
    push_companies(rows, history, seat, bought)?;
    push_order(rows, history, seat, bought, PlayOrder::ExchangeMohawk)?;
    Ok(())
}

/// Adds the rows of each company.
fn push_companies(
    rows: &mut Vec<Row>,
    history: &History,
    seat: Seat,
    bought: Option<Company>,
) -> Result<(), AllocError>
    ensures { OnOk result (rows.new.items ≡ rows.old.items
        ++ map (stock_row history.now seat bought)
        (orders_of_companies history.now.events seat)) }
{
    for company in &Company::ALL {
        push_company(rows, history, seat, bought, *company)?;
    }
    Ok(())
}

/// Adds the rows of a company.
fn push_company(
    rows: &mut Vec<Row>,
    history: &History,
    seat: Seat,
    bought: Option<Company>,
    company: Company,
) -> Result<(), AllocError>
    ensures { OnOk result (rows.new.items ≡ rows.old.items
        ++ map (stock_row history.now seat bought)
        (orders_of history.now.events seat company)) }
{
    push_starts(rows, history, seat, bought, company)?;
    push_shares(rows, history, seat, bought, company)?;
    push_sales(rows, history, seat, bought, company)?;
    Ok(())
}

/// Adds a row for each par value of a company, from the least.
fn push_starts(
    rows: &mut Vec<Row>,
    history: &History,
    seat: Seat,
    bought: Option<Company>,
    company: Company,
) -> Result<(), AllocError>
    ensures { OnOk result (rows.new.items ≡ rows.old.items
        ++ map (stock_row history.now seat bought) (starts_of company)) }
{
    for row in (0..CHART_ROWS).rev() {
        if let Some(price) = par_value(row) {
            push_order(
                rows,
                history,
                seat,
                bought,
                PlayOrder::Par { company, price },
            )?;
        }
    }
    Ok(())
}

/// Adds the rows of a share of a company from each place.
fn push_shares(
    rows: &mut Vec<Row>,
    history: &History,
    seat: Seat,
    bought: Option<Company>,
    company: Company,
) -> Result<(), AllocError>
    ensures { OnOk result (rows.new.items ≡ rows.old.items
        ++ map (stock_row history.now seat bought) (shares_from company)) }
{
    for from in &[ShareSource::InitialOffering, ShareSource::BankPool] {
        let from = *from;
        push_order(
            rows,
            history,
            seat,
            bought,
            PlayOrder::BuyShare { company, from },
        )?;
    }
    Ok(())
}

/// Adds the rows of sales of a company.
fn push_sales(
    rows: &mut Vec<Row>,
    history: &History,
    seat: Seat,
    bought: Option<Company>,
    company: Company,
) -> Result<(), AllocError>
    ensures { OnOk result (rows.new.items ≡ rows.old.items
        ++ map (stock_row history.now seat bought)
        (sales_of history.now.events seat company)) }
{
    for shares in &NUMBERS {
        push_sale(rows, history, seat, bought, company, *shares)?;
    }
    Ok(())
}

/// Adds the row of a sale of this many shares, if it is considered.
fn push_sale(
    rows: &mut Vec<Row>,
    history: &History,
    seat: Seat,
    bought: Option<Company>,
    company: Company,
    shares: Amount,
) -> Result<(), AllocError>
    ensures { OnOk result (rows.new.items ≡ rows.old.items
        ++ map (stock_row history.now seat bought)
        (orders_of_sale history.now.events seat company shares)) }
{
    if !is_number_asked(history, seat, company, shares) {
        return Ok(());
    }
    push_order(
        rows,
        history,
        seat,
        bought,
        PlayOrder::Sell { company, shares },
    )
}

/// Returns whether a sale of this many shares is considered: from one up to one more than the seat
/// has.
fn is_number_asked(history: &History, seat: Seat, company: Company, shares: Amount) -> bool
    ensures { result ≡ is_number_asked history.now.events seat company shares }
{
    let held = history.now().shares(company, Shareholder::Seat(seat));
    shares == 1 || ShareCount::from(shares) <= held + 1
}

/// Adds the row of an order.
fn push_order(
    rows: &mut Vec<Row>,
    history: &History,
    seat: Seat,
    bought: Option<Company>,
    order: PlayOrder,
) -> Result<(), AllocError>
    ensures { OnOk result (rows.new.items ≡ rows.old.items
        ++ stock_row history.now seat bought order ∷ []) }
{
    let answer = answer_to(history, seat, bought, order);
    push_row(rows, order, answer)
}

/// Returns the outcome of an order as the next line of a seat's turn.
fn answer_to(history: &History, seat: Seat, bought: Option<Company>, order: PlayOrder) -> Answer
    ensures { result ≡ stock_answer history.now seat bought (Play order) }
{
    let broken = judge(history, seat, bought, order).map(Refusal::Stock);
    answer_of(cost(history, order), broken)
}

/// Returns the first rule that an order of a seat breaks in its turn, in which it has bought of
/// this company or of none; `None` if it breaks none.
fn judge(
    history: &History,
    seat: Seat,
    bought: Option<Company>,
    order: PlayOrder,
) -> Option<StockRule>
    ensures { result ≡ stock_judgement history.now seat bought (Play order) }
{
    match order {
        PlayOrder::Par { company, price } => {
            may_buy(history, seat, Purchase::Par { company, price }, bought).err()
        }
        PlayOrder::BuyShare { company, from } => {
            may_buy(history, seat, Purchase::Share { company, from }, bought).err()
        }
        PlayOrder::Sell { company, shares } => {
            may_sell(history, seat, Sale { company, shares }, None).err()
        }
        PlayOrder::ExchangeMohawk => judge_exchange(history, seat),
        _ => Some(StockRule::NotOfStock),
    }
}

/// Returns the rule that an exchange of MH breaks; `None` if it breaks none.
fn judge_exchange(history: &History, seat: Seat) -> Option<StockRule>
    ensures { result ≡ exchange_judgement history.now seat }
{
    if is_no_exchange(history, seat) {
        return Some(StockRule::NoExchange);
    }
    None
}

/// Returns what an order costs, or what a sale brings, in dollars; 0 if no money moves.
fn cost(history: &History, order: PlayOrder) -> Money
    ensures { result ≡ pos (stock_cost history.now.events (Play order)) }
{
    let now = history.now();
    match order {
        PlayOrder::Par { company, price } => {
            purchase_cost(&now, Purchase::Par { company, price })
        }
        PlayOrder::BuyShare { company, from } => {
            purchase_cost(&now, Purchase::Share { company, from })
        }
        PlayOrder::Sell { company, shares } => { brought_by(&now, Sale { company, shares }) }
        _ => 0,
    }
}

/// Returns what a sale brings, in dollars: the market price for each share.
pub fn brought_by(view: &GameView, sale: Sale) -> Money
    ensures { result ≡ pos (brought_by view.now.events sale) }
{
    Money::from(sale.shares) * Money::from(market_price(view, sale.company))
}
