//! The parts of a sheet, as the rounds take it up: the lines before its first head, and then those
//! that each head opens. In opening and stock rounds a TURN line is a head, in operating rounds a
//! COMPANY line.
ghost use Rattle.std.specs.Bool.{OnTrue};
ghost use Rattle.std.specs.Prelude.{◌≡◌, [], IfSome, Ok, true};
ghost use Rattle.order_grammar.specs.declared.order.Order.TheVariants.{Company as CompanyOrder, Turn as TurnOrder};
ghost use Rattle.sheets.specs.CompanyOrders.{company_orders_in, opens_orders_of};
ghost use Rattle.sheets.specs.Part.{IsAtHead, TakesHead, TakesOrdinary, head_word, line_unread, lines_in, opens_part};
ghost use Rattle.sheets.specs.Part.{parts_left};

use crate::sheet::{LINES_MOST, Lines, UnreadLine};
use order_grammar::{Order, begins_with_word};
use std::marker::Model;
use tables::{Company, Round};

/// The rest of a sheet that is not reached yet: the lines before the next head, and then the
/// written turns, or the companies' orders, each with its head.
///
/// In the sheet of an opening or a stock round a TURN line up to line `LINES_MOST` is a head, in
/// that of an operating round a COMPANY line.
#[derive(Debug, Drop)]
pub struct PartsLeft<'a> {
    lines: Lines<'a>,
    round: Round,
}

/// In a contract it is those lines in their parts.
impl<'a> Model for PartsLeft<'a> {
    ghost use Rattle.sheets.specs.Part.{SheetParts, parts_left};

    ghost Value = { SheetParts };

    ghost view = { λ left. parts_left left.round left.lines };
}

impl<'a> PartsLeft<'a> {
    /// Returns the parts of these lines of a sheet for this round.
    pub(crate) fn of(lines: Lines<'a>, round: Round) -> PartsLeft<'a>
        ensures { result ≡ parts_left round lines.entry }
    {
        PartsLeft { lines, round }
    }

    /// Returns an equal value.
    pub fn duplicate(&self) -> PartsLeft<'a>
        ensures { result ≡ self.now }
    {
        PartsLeft {
            lines: self.lines.duplicate(),
            round: self.round,
        }
    }

    /// Takes the next line before the next head and returns it; `None` if there is none, and then
    /// it takes nothing.
    pub fn take_line(&mut self) -> Option<UnreadLine<'a>>
        ensures { TakesOrdinary self.old result self.new }
    {
        let mut ahead = self.lines.duplicate();
        let line = ahead.take_unread()?;
        if is_head(self.round, line) {
            return None;
        }
        self.lines = ahead;
        Some(line)
    }

    /// Takes the next head, which opens the lines after it, and returns it; `None` if there is no
    /// head left.
    pub fn take_head(&mut self) -> Option<UnreadLine<'a>>
        requires { IsAtHead self.old }
        ensures { TakesHead self.old result self.new }
    {
        self.lines.take_unread()
    }

    /// Takes all that is left up to the next head of a company's orders, and that head; everything
    /// if there is none.
    pub(crate) fn take_to_orders_of(&mut self, company: Company)
        ensures { self.new.before ≡ company_orders_in company self.old.opened }
    {
        while let Some(line) = self.lines.take_unread() {
            if begins_orders_of(company, line) && is_head(self.round, line) {
                break;
            }
        }
    }

    /// Returns how many lines are left; heads do not count.
    pub fn count(&self) -> u32
        ensures { result ≡ lines_in self.now }
    {
        let mut rest = self.lines.duplicate();
        let mut count: u32 = 0;
        while let Some(line) = rest.take_unread() {
            if !is_head(self.round, line) {
                count += 1;
            }
        }
        count
    }
}

/// Returns parts with nothing left.
impl<'a> Default for PartsLeft<'a> {
    ghost is_default = { λ left. left ≡ record { before = []; opened = [] } };

    fn default() -> PartsLeft<'a> {
        PartsLeft::of(Lines::none(), Round::Opening(1))
    }
}

/// Returns whether a line opens a part of a sheet for a round. It reads the line only if that is
/// not in the usual spelling of heads, and its first word may open one.
fn is_head(round: Round, line: UnreadLine) -> bool
    ensures { result ≡ opens_part round (line_unread line.entry).reading }
{
    if is_plain_head(round, line) {
        return true;
    }
    order_grammar::laws::read_in_version_where_spelt();
    begins_with_word(line.text, head_word(round)) && opens_part(round, line)
}

/// Returns whether a line opens a part of a sheet for a round in the printed spelling, as most
/// heads do, without reading it. If it returns `false`, the line may still be a head.
fn is_plain_head(round: Round, line: UnreadLine) -> bool
    ensures { OnTrue result (opens_part round (line_unread line.entry).reading ≡ true) }
{
    match round {
        Round::Opening(_) => is_plain_turn(line),
        Round::Stock(_) => is_plain_turn(line),
        Round::Operating { .. } => plain_company(line).is_some(),
    }
}

/// Returns whether a line is a TURN line in the printed spelling. If it returns `false`, the line
/// may still be one.
fn is_plain_turn(line: UnreadLine) -> bool
    ensures { OnTrue result ((line_unread line.entry).reading ≡ Ok TurnOrder) }
{
    if line.number > LINES_MOST {
        return false;
    }
    line.text == b"TURN".as_slice()
}

/// Returns the company that a COMPANY line in the printed spelling names. If it returns `None`, the
/// line may still name one.
fn plain_company(line: UnreadLine) -> Option<Company>
    ensures { IfSome result (λ company.
        (line_unread line.entry).reading ≡ Ok (CompanyOrder company)) }
{
    if line.number > LINES_MOST {
        return None;
    }
    let Some(code) = line.text.strip_prefix(b"COMPANY ") else {
        return None;
    };
    for &company in &Company::ALL {
        if code == company.code().as_bytes() {
            return Some(company);
        }
    }
    None
}

/// Returns the word that begins the lines that open a part of a sheet for a round.
fn head_word(round: Round) -> &'static [u8]
    ensures { result.now ≡ head_word round }
{
    match round {
        Round::Opening(_) | Round::Stock(_) => b"TURN",
        Round::Operating { .. } => b"COMPANY",
    }
}

/// Returns whether a line, once it is read, opens a part of a sheet for a round. (Kept apart from
/// its caller: inlined, it would zero the room for an order for each line that is skipped.)
#[inline(never)]
fn opens_part(round: Round, line: UnreadLine) -> bool
    ensures { result ≡ opens_part round (line_unread line.entry).reading }
{
    let mut order = Order::Blank;
    match line.read_into(&mut order) {
        Ok(_) => is_head_of(round, &order),
        Err(_) => false,
    }
}

/// Returns whether an order opens a part of a sheet for a round: a written turn, or a company's
/// orders.
pub fn is_head_of(round: Round, order: &Order) -> bool
    ensures { result ≡ opens_part round (Ok order.now) }
{
    match round {
        Round::Opening(_) | Round::Stock(_) => matches!(order, Order::Turn),
        Round::Operating { .. } => matches!(order, Order::Company(_)),
    }
}

/// Returns whether a line reads as the head of a company's orders. It reads the line only if that
/// is not in the usual spelling of heads, and its first word is theirs.
fn begins_orders_of(company: Company, line: UnreadLine) -> bool
    ensures { result ≡ opens_orders_of company (line_unread line.entry).reading }
{
    if let Some(named) = plain_company(line) {
        return is_head_of_named(named, company);
    }
    order_grammar::laws::read_in_version_where_spelt();
    begins_with_word(line.text, b"COMPANY") && opens_orders_of(company, line)
}

/// Returns whether the COMPANY line of a named company opens a company's orders.
fn is_head_of_named(named: Company, company: Company) -> bool
    ensures { result ≡ opens_orders_of company (Ok (CompanyOrder named)) }
{
    named == company
}

/// Returns whether a line, once it is read, is the head of a company's orders. (Kept apart from its
/// caller, as `opens_part` is.)
#[inline(never)]
fn opens_orders_of(company: Company, head: UnreadLine) -> bool
    ensures { result ≡ opens_orders_of company (line_unread head.entry).reading }
{
    let mut order = Order::Blank;
    match head.read_into(&mut order) {
        Ok(_) => is_head_of_company(company, &order),
        Err(_) => false,
    }
}

/// Returns whether an order opens a company's orders.
fn is_head_of_company(company: Company, order: &Order) -> bool
    ensures { result ≡ opens_orders_of company (Ok order.now) }
{
    match order {
        Order::Company(named) => *named == company,
        _ => false,
    }
}
