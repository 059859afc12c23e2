//! The statement after a round: what each player, each started company and the bank hold.
ghost use Rattle.std.specs.Prelude.{◌≡◌, ◌∷◌, ◌++◌, [], OnOk, length};
ghost use Rattle.std.specs.Fmt.{signed_decimal};
ghost use Rattle.std.specs.Option.{ForSome};
ghost use Rattle.events.specs.declared.event.Shareholder.TheVariants.{Seat as OfSeat};
ghost use Rattle.totals.specs.LookBack.{is_owner, owner_in};
ghost use Rattle.report.specs.Column.{Adds, right_aligned};
ghost use Rattle.report.specs.Statement.{AreOwnersIn, bank_line, cash_column, code_owned, codes_owned};
ghost use Rattle.report.specs.Statement.{company_figures, company_line, company_lines, counted_column};
ghost use Rattle.report.specs.Statement.{holdings, codes_of_kind, codes_of_trains, player_line};
ghost use Rattle.report.specs.Statement.{player_lines, president_name, started_line, statement, shares_column};
ghost use Rattle.report.specs.Statement.{trains_text};
ghost use Rattle.sheets.specs.File.{players_of};

use crate::column::{push_left, push_right};
use crate::line::{name, push_name};
use certs::counted_now;
use history::{GameView, Holder, Owners, Party, ShareCount, Shareholder, at_least_zero};
use order_grammar::NAME_MOST;
use sheets::Sheets;
use std::alloc::AllocError;
use tables::{Company, Kind, Money, Private, Seat, Square, price};

/// The width of the column of names.
const NAME_WIDTH: usize = NAME_MOST;

/// The width of the column of companies' codes.
const CODE_WIDTH: usize = 4;

/// The width of a column of cash.
const CASH_WIDTH: usize = 6;

/// The width of the column of market prices.
const PRICE_WIDTH: usize = 4;

/// The width of a column of certificates or shares.
const COUNT_WIDTH: usize = 3;

/// The width of the column of tokens.
const TOKEN_WIDTH: usize = 2;

/// Adds the statement of what everybody holds.
pub(crate) fn push_statement(
    out: &mut Vec<u8>,
    sheets: &Sheets,
    view: &GameView,
) -> Result<(), AllocError>
    requires { view.now.seats ≡ length (players_of sheets.now) }
    ensures { OnOk result (Adds out.old out.new (statement sheets.now view.now)) }
{
    push_players(out, sheets, view)?;
    push_companies(out, sheets, view)?;
    push_bank(out, view)
}

/// Adds the players' lines.
#[tactic(auto, unfolding(crate::specs::Statement::player_lines))]
fn push_players(out: &mut Vec<u8>, sheets: &Sheets, view: &GameView) -> Result<(), AllocError>
    requires { view.now.seats ≡ length (players_of sheets.now) }
    ensures { OnOk result (Adds out.old out.new (player_lines sheets.now view.now)) }
{
    for seat in 0..sheets.seats() {
        push_player(out, sheets, view, Seat(seat as u8))?;
    }
    Ok(())
}

/// Adds the lines of the started companies.
#[tactic(auto, unfolding(crate::specs::Statement::company_lines))]
fn push_companies(out: &mut Vec<u8>, sheets: &Sheets, view: &GameView) -> Result<(), AllocError>
    ensures { OnOk result (Adds out.old out.new (company_lines sheets.now view.now)) }
{
    for company in &Company::ALL {
        push_company(out, sheets, view, *company)?;
    }
    Ok(())
}

/// Adds the bank's line.
#[tactic(auto, unfolding(crate::specs::Statement::bank_line))]
fn push_bank(out: &mut Vec<u8>, view: &GameView) -> Result<(), AllocError>
    ensures { OnOk result (Adds out.old out.new (bank_line view.now)) }
{
    out.extend_from_slice(b"BANK ")?;
    push_cash(out, view, Party::Bank)?;
    out.push(b'\n')?;
    Ok(())
}

/// Adds a player's line: name, cash, counted certificates, shares by company, privates.
#[tactic(auto, unfolding(crate::specs::Statement::player_line))]
fn push_player(
    out: &mut Vec<u8>,
    sheets: &Sheets,
    view: &GameView,
    seat: Seat,
) -> Result<(), AllocError>
    ensures { OnOk result
        (Adds out.old out.new (player_line sheets.now view.now seat)) }
{
    out.extend_from_slice(b"PLAYER ")?;
    push_left(out, name(sheets, seat), NAME_WIDTH)?;
    push_cash(out, view, Party::of_seat(seat))?;
    push_counted(out, view, seat)?;
    push_holdings(out, view, seat)?;
    push_privates(out, view, seat)?;
    out.push(b'\n')?;
    Ok(())
}

/// Adds the shares of each company that a seat holds, in roster order.
#[tactic(auto, unfolding(crate::specs::Statement::holdings))]
fn push_holdings(out: &mut Vec<u8>, view: &GameView, seat: Seat) -> Result<(), AllocError>
    ensures { OnOk result (Adds out.old out.new (holdings view.now.events seat)) }
{
    push_four(
        out,
        view,
        seat,
        Company::Pennsylvania,
        Company::NewYorkCentral,
        Company::CanadianPacific,
        Company::BaltimoreOhio,
    )?;
    push_four(
        out,
        view,
        seat,
        Company::ChesapeakeOhio,
        Company::Erie,
        Company::NewHaven,
        Company::BostonMaine,
    )
}

/// Adds the shares of four companies that a seat holds.
#[tactic(auto, unfolding(crate::specs::Statement::shares_column))]
fn push_four(
    out: &mut Vec<u8>,
    view: &GameView,
    seat: Seat,
    first: Company,
    second: Company,
    third: Company,
    fourth: Company,
) -> Result<(), AllocError>
    ensures { OnOk result (Adds out.old out.new
        (shares_column view.now.events first (OfSeat seat)
        ++ shares_column view.now.events second (OfSeat seat)
        ++ shares_column view.now.events third (OfSeat seat)
        ++ shares_column view.now.events fourth (OfSeat seat))) }
{
    let place = Shareholder::Seat(seat);
    push_counts(
        out,
        view.shares(first, place),
        view.shares(second, place),
        view.shares(third, place),
        view.shares(fourth, place),
    )
}

/// Adds the codes of a seat's privates, each after a space.
#[tactic(auto, unfolding(crate::specs::Statement::codes_owned))]
fn push_privates(out: &mut Vec<u8>, view: &GameView, seat: Seat) -> Result<(), AllocError>
    ensures { OnOk result (Adds out.old out.new (codes_owned view.now.events seat)) }
{
    let owners = view.owners();
    for private in &Private::ALL {
        push_private(out, view, &owners, seat, *private)?;
    }
    Ok(())
}

/// Adds the code of a private after a space, if the seat owns it.
fn push_private(
    out: &mut Vec<u8>,
    view: &GameView,
    owners: &Owners,
    seat: Seat,
    private: Private,
) -> Result<(), AllocError>
    requires { AreOwnersIn view.now.events owners.now }
    ensures { OnOk result
        (Adds out.old out.new (code_owned view.now.events seat private)) }
{
    if owns(owners, seat, private) {
        out.push(b' ')?;
        out.extend_from_slice(private.code().as_bytes())?;
    }
    Ok(())
}

/// Returns whether the seat owns the private.
pub(crate) fn owns(owners: &Owners, seat: Seat, private: Private) -> bool
    ensures { result ≡ is_owner seat (owner_in owners.now private) }
{
    match owners.owner(private) {
        Some(Holder::Seat(owner)) => owner.0 == seat.0,
        _ => false,
    }
}

/// Adds the line of a company, if it has started: code, cash, market price, shares in the initial
/// offering and the bank pool, tokens, president, trains.
fn push_company(
    out: &mut Vec<u8>,
    sheets: &Sheets,
    view: &GameView,
    company: Company,
) -> Result<(), AllocError>
    ensures { OnOk result
        (Adds out.old out.new (started_line sheets.now view.now company)) }
{
    match view.square(company) {
        None => Ok(()),
        Some(square) => push_started(out, sheets, view, company, square),
    }
}

/// Adds the line of a started company, whose token is on this square.
#[tactic(auto, unfolding(crate::specs::Statement::company_line))]
fn push_started(
    out: &mut Vec<u8>,
    sheets: &Sheets,
    view: &GameView,
    company: Company,
    square: Square,
) -> Result<(), AllocError>
    ensures { OnOk result
        (Adds out.old out.new (company_line sheets.now view.now company square)) }
{
    out.extend_from_slice(b"COMPANY ")?;
    push_left(out, company.code().as_bytes(), CODE_WIDTH)?;
    push_figures(out, view, company, square)?;
    push_president(out, sheets, view.president(company))?;
    push_trains(out, view, company)?;
    out.push(b'\n')?;
    Ok(())
}

/// Adds a company's cash, the price of its square, its shares in the initial offering and the bank
/// pool, and how many tokens it has placed.
#[tactic(auto, unfolding(crate::specs::Statement::company_figures))]
fn push_figures(
    out: &mut Vec<u8>,
    view: &GameView,
    company: Company,
    square: Square,
) -> Result<(), AllocError>
    ensures { OnOk result
        (Adds out.old out.new (company_figures view.now company square)) }
{
    push_cash(out, view, Party::of_company(company))?;
    push_right(out, price(square), PRICE_WIDTH)?;
    push_shares(out, view, company, Shareholder::InitialOffering)?;
    push_shares(out, view, company, Shareholder::BankPool)?;
    push_right(out, view.tokens_placed(company), TOKEN_WIDTH)
}

/// Adds the cash of a party in its column.
#[tactic(auto, unfolding(crate::specs::Statement::cash_column))]
fn push_cash(out: &mut Vec<u8>, view: &GameView, party: Party) -> Result<(), AllocError>
    ensures { OnOk result (Adds out.old out.new (cash_column view.now party)) }
{
    push_right(out, view.cash(party), CASH_WIDTH)
}

/// Adds the shares of a company at a place, in their column.
#[tactic(auto, unfolding(crate::specs::Statement::shares_column))]
fn push_shares(
    out: &mut Vec<u8>,
    view: &GameView,
    company: Company,
    place: Shareholder,
) -> Result<(), AllocError>
    ensures { OnOk result
        (Adds out.old out.new (shares_column view.now.events company place)) }
{
    push_count(out, view.shares(company, place))
}

/// Adds how many certificates of a seat count, in their column.
#[tactic(auto, unfolding(crate::specs::Statement::counted_column))]
fn push_counted(out: &mut Vec<u8>, view: &GameView, seat: Seat) -> Result<(), AllocError>
    ensures { OnOk result
        (Adds out.old out.new (counted_column view.now.events seat)) }
{
    push_count(out, counted_now(view, seat))
}

/// Adds a number of certificates or shares in its column. Nearly all have one digit.
fn push_count(out: &mut Vec<u8>, count: ShareCount) -> Result<(), AllocError>
    ensures { OnOk result (Adds out.old out.new (right_aligned 3 (signed_decimal count))) }
{
    match digit_of(count) {
        Some(digit) => push_digit(out, digit),
        None => push_right(out, count, COUNT_WIDTH),
    }
}

/// Adds four numbers of shares, each in its column. Nearly all have one digit.
fn push_counts(
    out: &mut Vec<u8>,
    first: ShareCount,
    second: ShareCount,
    third: ShareCount,
    fourth: ShareCount,
) -> Result<(), AllocError>
    ensures { OnOk result (Adds out.old out.new
        (right_aligned 3 (signed_decimal first) ++ right_aligned 3 (signed_decimal second)
        ++ right_aligned 3 (signed_decimal third) ++ right_aligned 3 (signed_decimal fourth))) }
{
    let digits = (
        digit_of(first),
        digit_of(second),
        digit_of(third),
        digit_of(fourth),
    );
    if let (Some(first), Some(second), Some(third), Some(fourth)) = digits {
        return push_digits(out, first, second, third, fourth);
    }
    push_each(out, first, second, third, fourth)
}

/// Adds four numbers of shares, of any number of digits.
fn push_each(
    out: &mut Vec<u8>,
    first: ShareCount,
    second: ShareCount,
    third: ShareCount,
    fourth: ShareCount,
) -> Result<(), AllocError>
    ensures { OnOk result (Adds out.old out.new
        (right_aligned 3 (signed_decimal first) ++ right_aligned 3 (signed_decimal second)
        ++ right_aligned 3 (signed_decimal third) ++ right_aligned 3 (signed_decimal fourth))) }
{
    push_triple(out, first, second, third)?;
    push_count(out, fourth)?;
    Ok(())
}

/// Adds three numbers of shares, of any number of digits.
fn push_triple(
    out: &mut Vec<u8>,
    first: ShareCount,
    second: ShareCount,
    third: ShareCount,
) -> Result<(), AllocError>
    ensures { OnOk result (Adds out.old out.new
        (right_aligned 3 (signed_decimal first) ++ right_aligned 3 (signed_decimal second)
        ++ right_aligned 3 (signed_decimal third))) }
{
    push_pair(out, first, second)?;
    push_count(out, third)?;
    Ok(())
}

/// Adds two numbers of shares, of any number of digits.
fn push_pair(out: &mut Vec<u8>, first: ShareCount, second: ShareCount) -> Result<(), AllocError>
    ensures { OnOk result (Adds out.old out.new
        (right_aligned 3 (signed_decimal first) ++ right_aligned 3 (signed_decimal second))) }
{
    push_count(out, first)?;
    push_count(out, second)
}

/// Adds four digits, each at the right of a column of certificates or shares.
#[tactic(auto, unfolding(crate::specs::Column::right_aligned))]
fn push_digits(
    out: &mut Vec<u8>,
    first: u8,
    second: u8,
    third: u8,
    fourth: u8,
) -> Result<(), AllocError>
    ensures { OnOk result (Adds out.old out.new
        (right_aligned 3 (first ∷ []) ++ right_aligned 3 (second ∷ [])
        ++ right_aligned 3 (third ∷ []) ++ right_aligned 3 (fourth ∷ []))) }
{
    out.extend_from_slice(&[
        b' ', b' ', first, b' ', b' ', second, b' ', b' ', third, b' ', b' ', fourth,
    ])
}

/// Returns the digit of a number of one digit; `None` for other numbers.
#[tactic(auto, using(std::proofs::lemmas::Fmt::decimal_digit))]
fn digit_of(number: ShareCount) -> Option<u8>
    ensures { ForSome result (λ digit. signed_decimal number ≡ digit ∷ []) }
{
    match u8::try_from(number) {
        Ok(value) if value < 10 => Some(b'0' + value),
        _ => None,
    }
}

/// Adds a digit at the right of a column of certificates or shares.
#[tactic(auto, unfolding(crate::specs::Column::right_aligned))]
fn push_digit(out: &mut Vec<u8>, digit: u8) -> Result<(), AllocError>
    ensures { OnOk result (Adds out.old out.new (right_aligned 3 (digit ∷ []))) }
{
    out.extend_from_slice(&[b' ', b' ', digit])
}

/// Adds the name of a president after a space.
fn push_president(
    out: &mut Vec<u8>,
    sheets: &Sheets,
    president: Option<Seat>,
) -> Result<(), AllocError>
    ensures { OnOk result (Adds out.old out.new (32 ∷ president_name sheets.now president)) }
{
    out.push(b' ')?;
    match president {
        None => Ok(()),
        Some(seat) => push_name(out, sheets, seat),
    }
}

/// Adds the trains of a company, lowest kind first, each as its kind after a space.
#[tactic(auto, unfolding(crate::specs::Statement::trains_text))]
fn push_trains(out: &mut Vec<u8>, view: &GameView, company: Company) -> Result<(), AllocError>
    ensures { OnOk result
        (Adds out.old out.new (trains_text view.now.events company)) }
{
    for kind in &Kind::ALL {
        push_trains_of_kind(out, view, company, *kind)?;
    }
    Ok(())
}

/// Adds the trains of a kind that a company has, each as its kind after a space.
fn push_trains_of_kind(
    out: &mut Vec<u8>,
    view: &GameView,
    company: Company,
    kind: Kind,
) -> Result<(), AllocError>
    ensures { OnOk result
        (Adds out.old out.new (codes_of_trains view.now.events company kind)) }
{
    push_kind(
        out,
        kind,
        at_least_zero(Money::from(view.trains(Some(company), kind))),
    )
}

/// Adds a kind after a space this many times.
fn push_kind(out: &mut Vec<u8>, kind: Kind, count: u128) -> Result<(), AllocError>
    ensures { OnOk result (Adds out.old out.new (codes_of_kind kind count)) }
{
    for _ in 0..count {
        out.push(b' ')?;
        out.extend_from_slice(kind.code().as_bytes())?;
    }
    Ok(())
}
