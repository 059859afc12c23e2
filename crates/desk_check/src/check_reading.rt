//! A sheet line by line: faults, orders without a place, and what can be seen to be wrong before
//! its round is played.
ghost use Rattle.std.specs.Prelude.{◌≡◌, ◌≤◌, IfOk, OnOk, option_copied, option_map};
ghost use Rattle.desk_check.specs.SheetSaid.{Adds, TakesLines, begun_at, begun_by, begun_by_order, begun_then, begun_with};
ghost use Rattle.desk_check.specs.SheetSaid.{fault_told, game_of, is_operating, is_purchase};
ghost use Rattle.desk_check.specs.SheetSaid.{is_silent, nothing_read, presided, presided_by};
ghost use Rattle.desk_check.specs.SheetSaid.{read_by_fault, read_by_head, read_by_order, read_then};
ghost use Rattle.desk_check.specs.SheetSaid.{said_of_company, said_of_head, said_of_head_order, said_of_line, said_of_order};
ghost use Rattle.desk_check.specs.SheetSaid.{said_of_wrong, shown_from, shown_of_sheet};
ghost use Rattle.desk_check.specs.SheetSaid.{silent_in, silent_one, wrong_by_game, wrong_by_itself, wrong_by_steps};
ghost use Rattle.desk_check.specs.Unplayed.{has_place, look_of};
ghost use Rattle.desk_trials.specs.SheetFaults.{ends_sheet, is_out_of_place, said_of_fault};
ghost use Rattle.sheets.specs.Limits.{lines_most};
ghost use Rattle.sheets.specs.Part.{line_read};
ghost use Rattle.totals.specs.LookBack.{Game};

use crate::check_orders::Block;
use crate::check_seat::has_to_order;
use desk_base::{Objection, objection_by_view, objection_to, other_president};
use desk_trials::{FileLine, FileLines, Found, Head, Matter, Said, closes, is_mail};
use history::{GameView, Refusal};
use order_grammar::{Fault, Order, PlayOrder, Version};
use sheets::{LINES_MOST, NumberedLine, SheetKey, UnreadLine, is_blank, is_head_of, is_of_file};
use std::alloc::AllocError;
use tables::{COMPANIES, Company, PerCompany, Round, Seat};

/// How far a sheet was looked at.
#[derive(Clone, Copy)]
pub(crate) struct Read {
    /// How many lines were numbered.
    number: u32,
    /// Whether a head has come.
    is_open: bool,
    /// The orders of the company's turn so far.
    block: Block,
    /// The lines on which the companies' orders begin.
    begun: PerCompany<Option<usize>>,
}

/// What a sheet is looked at by.
#[derive(Clone, Copy)]
struct Reader<'v, 'g> {
    /// The version of the file.
    version: Version,
    /// The game as the sheet's round begins; `None` if that is not known.
    view: Option<&'v GameView<'g>>,
    /// Whose sheet it is, and for which round.
    sent: SheetKey,
}

/// Finds what is wrong with the lines of a sheet of a file of some version, and the companies that
/// it leaves without orders, by the game as its round begins, where that is known. Of lines past
/// `LINES_MOST`, which have one fault whatever they say, only the first is read.
pub(crate) fn look_at_sheet<'a>(
    version: Version,
    view: Option<&GameView>,
    head: &Head<'a>,
    found: &mut Found<'a>,
) -> Result<(), AllocError>
    ensures { let game = option_map (λ (view : Game). view.events) (option_copied view.entry) in
        OnOk result (Adds found.old found.new
        (shown_of_sheet version game found.old.from head.now)) }
{
    let reader = Reader {
        version,
        view,
        sent: head.sent,
    };
    let read = reader.take_lines(head, found)?;
    reader.add_silent(head, &read.begun, found)?;
    Ok(())
}

/// Returns whether a sheet ends at a line, or was meant to, or the sheet has too many lines for it
/// to be read.
fn ends_sheet(number: u32, line: &[u8]) -> bool
    ensures { result ≡ ends_sheet number line.now }
{
    closes(line) || number > LINES_MOST
}

/// Adds what there is to say of a line of a sheet, if anything.
fn add_said<'a>(
    line: &FileLine<'a>,
    sent: SheetKey,
    said: Option<Said>,
    found: &mut Found<'a>,
) -> Result<(), AllocError>
    ensures { OnOk result (Adds found.old found.new
        (shown_from found.old.from sent line.now.number said)) }
{
    let Some(said) = said else {
        return Ok(());
    };
    found.add_line(line, Matter::Line(sent, said))?;
    Ok(())
}

/// Returns the line on which a company's orders begin, if they do.
fn begun_at(begun: &[Option<usize>], company: Company) -> Option<usize>
    ensures { result ≡ begun_at begun.now company }
{
    match begun.get(company.index()) {
        Some(line) => *line,
        None => None,
    }
}

/// Returns the lines on which orders begin, with those that a head on a line begins.
fn begun_by(
    begun: PerCompany<Option<usize>>,
    line: usize,
    read: &NumberedLine,
) -> PerCompany<Option<usize>>
    ensures { result ≡ begun_by begun line (line_read read.now).reading }
{
    match read.order() {
        Ok(order) => begun_by_order(begun, line, order),
        Err(_) => begun,
    }
}

/// Returns them with those that this order begins, if it heads a company's orders.
fn begun_by_order(
    begun: PerCompany<Option<usize>>,
    line: usize,
    order: &Order,
) -> PerCompany<Option<usize>>
    ensures { result ≡ begun_by_order begun line order.now }
{
    match order {
        Order::Company(company) => {
            let first = begun_at(&begun, *company);
            begun_with(begun, *company, line, first)
        }
        _ => begun,
    }
}

/// Returns them with those of a company, unless they began on a line before.
fn begun_with(
    begun: PerCompany<Option<usize>>,
    company: Company,
    line: usize,
    first: Option<usize>,
) -> PerCompany<Option<usize>>
    ensures { result ≡ begun_with begun company line first }
{
    match first {
        Some(_) => begun,
        None => begun_then(begun, company, line),
    }
}

/// Returns them with those of a company, which begin on a line.
fn begun_then(
    begun: PerCompany<Option<usize>>,
    company: Company,
    line: usize,
) -> PerCompany<Option<usize>>
    ensures { result ≡ begun_then begun company line }
{
    let mut begun = begun;
    begun[company.index()] = Some(line);
    begun
}

impl Read {
    /// Returns that no line has come.
    fn nothing() -> Read
        ensures { result ≡ nothing_read }
    {
        Read {
            number: 0,
            is_open: false,
            block: Block::none(),
            begun: [None; COMPANIES],
        }
    }

    /// Returns how far it has come behind the head of a turn, or of a company's orders, on a line.
    fn with_head(self, line: usize, read: &NumberedLine) -> Read
        requires { self.number ≤ lines_most }
        ensures { result ≡ read_by_head self line (line_read read.now).reading }
    {
        Read {
            number: self.number + 1,
            is_open: true,
            block: Block::none(),
            begun: begun_by(self.begun, line, read),
        }
    }

    /// Returns how far it has come behind an order that has a place in a sheet.
    fn with_order(self, sent: SheetKey, read: &NumberedLine) -> Read
        requires { self.number ≤ lines_most }
        ensures { result ≡ read_by_order sent self (line_read read.now) }
    {
        let number = self.number + 1;
        match read.order() {
            Ok(order) if wrong_by_itself(sent, self.is_open, self.block, order).is_none() => Read {
                number,
                block: self.block.with(order, read.condition.is_some()),
                ..self
            },
            _ => Read { number, ..self },
        }
    }

    /// Returns how far it has come behind a line with a fault.
    fn with_fault(self) -> Read
        requires { self.number ≤ lines_most }
        ensures { result ≡ read_by_fault self }
    {
        Read {
            number: self.number + 1,
            ..self
        }
    }
}

/// Returns why an order is wrong by the orders before it, or by the map and the tables.
fn wrong_by_itself(
    sent: SheetKey,
    is_open: bool,
    block: Block,
    order: &Order,
) -> Option<(Refusal, Objection)>
    ensures { result ≡ wrong_by_itself sent is_open block order.now }
{
    wrong_by_steps(sent.round, block, order).or(objection_to(sent.round, is_open, order))
}

/// Returns why an order is wrong by the orders before it: those of a company's turn have steps, and
/// those of other turns have none.
fn wrong_by_steps(round: Round, block: Block, order: &Order) -> Option<(Refusal, Objection)>
    ensures { result ≡ wrong_by_steps round block order.now }
{
    match round {
        Round::Operating { .. } => block.objection(order),
        Round::Opening(_) | Round::Stock(_) => None,
    }
}

/// Returns what is said of an order that breaks a rule, if it breaks one.
fn said_of_wrong(wrong: Option<(Refusal, Objection)>) -> Option<Said>
    ensures { result ≡ said_of_wrong wrong }
{
    match wrong {
        Some((rule, reason)) => Some(Said::Breaks(rule, reason)),
        None => None,
    }
}

impl Reader<'_, '_> {
    /// Finds what is wrong with the lines of a sheet. Returns how far it was read.
    fn take_lines<'a>(&self, head: &Head<'a>, found: &mut Found<'a>) -> Result<Read, AllocError>
        ensures { IfOk result (TakesLines self.now head.now found.old found.new) }
    {
        let mut read = Read::nothing();
        let lines = FileLines {
            passed: head.line.number,
            rest: head.line.rest,
        };
        for line in lines {
            if ends_sheet(read.number, line.text) {
                return Ok(read);
            }
            let said = self.take(&mut read, &line);
            add_said(&line, self.sent, said, found)?;
        }
        Ok(read)
    }

    /// Takes the next line. Returns what there is to say of it; `None` for mail.
    fn take(&self, read: &mut Read, line: &FileLine) -> Option<Said>
        requires { read.old.number ≤ lines_most }
        ensures read { read.new ≡ read_then self.now.version self.now.sent read.old
            line.now.number line.now.text.now }
        ensures said { result ≡ said_of_line self.now.version (game_of self.now) self.now.sent
            read.old line.now.text.now }
    {
        if is_blank(line.text) {
            return None;
        }
        let before = *read;
        let numbered = UnreadLine {
            version: self.version,
            number: before.number + 1,
            text: line.text,
        }
        .read();
        match look_at(&numbered, self.sent.round, before.is_open) {
            Look::Bad(fault) => {
                *read = before.with_fault();
                fault_said(before.is_open, fault, line.text)
            }
            Look::Head => {
                *read = before.with_head(line.number, &numbered);
                self.said_of_head(&before.begun, &numbered)
            }
            Look::Good => {
                *read = before.with_order(self.sent, &numbered);
                self.said_of_order(before, &numbered)
            }
        }
    }

    /// Returns what there is to say of the head of a turn, or of a company's orders.
    fn said_of_head(&self, begun: &[Option<usize>], read: &NumberedLine) -> Option<Said>
        ensures { result ≡ said_of_head (game_of self.now) self.now.sent begun.now
            (line_read read.now).reading }
    {
        match read.order() {
            Ok(order) => self.said_of_head_order(begun, order),
            Err(_) => None,
        }
    }

    /// Returns what there is to say of a head with this order.
    fn said_of_head_order(&self, begun: &[Option<usize>], order: &Order) -> Option<Said>
        ensures { result ≡ said_of_head_order (game_of self.now) self.now.sent begun.now order.now }
    {
        match order {
            Order::Company(company) => self.said_of_company(*company, begun_at(begun, *company)),
            _ => None,
        }
    }

    /// Returns what there is to say of the head of a company's orders, which begin on this line
    /// before it, if they do.
    fn said_of_company(&self, company: Company, first: Option<usize>) -> Option<Said>
        ensures { result ≡ said_of_company (game_of self.now) self.now.sent company first }
    {
        match first {
            Some(first) => Some(Said::Again(company, first)),
            None => self.presided(company),
        }
    }

    /// Returns who presides over a company, if it is another than whose sheet it is.
    fn presided(&self, company: Company) -> Option<Said>
        ensures { result ≡ presided (game_of self.now) self.now.sent company }
    {
        match self.view {
            Some(view) => presided_by(company, other_president(view, company, self.sent.seat)),
            None => None,
        }
    }

    /// Returns what there is to say of an order that has a place.
    fn said_of_order(&self, before: Read, read: &NumberedLine) -> Option<Said>
        ensures { result ≡ said_of_order (game_of self.now) self.now.sent before.is_open
            before.block (line_read read.now).reading }
    {
        match read.order() {
            Ok(order) => said_of_wrong(wrong_by_itself(
                self.sent,
                before.is_open,
                before.block,
                order,
            ).or(self.wrong_by_game(order))),
            Err(_) => None,
        }
    }

    /// Returns why an order is wrong by the game as the round begins. Of a train that is bought
    /// that is not looked at.
    fn wrong_by_game(&self, order: &Order) -> Option<(Refusal, Objection)>
        ensures { result ≡ wrong_by_game (game_of self.now) self.now.sent order.now }
    {
        match self.view {
            Some(view) if !is_purchase(order) => objection_by_view(view, self.sent.seat, order),
            _ => None,
        }
    }

    /// Adds the companies that a sheet leaves without orders.
    fn add_silent<'a>(
        &self,
        head: &Head<'a>,
        begun: &[Option<usize>],
        found: &mut Found<'a>,
    ) -> Result<(), AllocError>
        ensures { OnOk result (Adds found.old found.new
            (silent_in (game_of self.now) self.now.sent head.now.line.number begun.now)) }
    {
        for company in &Company::ALL {
            self.add_if_silent(head, begun, *company, found)?;
        }
        Ok(())
    }

    /// Adds a company, if a sheet leaves it without orders.
    fn add_if_silent<'a>(
        &self,
        head: &Head<'a>,
        begun: &[Option<usize>],
        company: Company,
        found: &mut Found<'a>,
    ) -> Result<(), AllocError>
        ensures { OnOk result (Adds found.old found.new
            (silent_one (game_of self.now) self.now.sent head.now.line.number begun.now company)) }
    {
        if self.is_silent(begun, company) {
            found.add(&head.line, Matter::Silent(company))?;
        }
        Ok(())
    }

    /// Returns whether a sheet has no orders for a company that operates, over which its player
    /// presides.
    fn is_silent(&self, begun: &[Option<usize>], company: Company) -> bool
        ensures { result ≡ is_silent (game_of self.now) self.now.sent begun.now company }
    {
        match self.view {
            Some(view) => {
                is_operating(self.sent.round)
                    && begun_at(begun, company).is_none()
                    && has_to_order(view, company, self.sent.seat)
            }
            None => false,
        }
    }
}

/// Returns whether a round is an operating round.
fn is_operating(round: Round) -> bool
    ensures { result ≡ is_operating round }
{
    matches!(round, Round::Operating { .. })
}

/// Returns whether an order buys a train.
fn is_purchase(order: &Order) -> bool
    ensures { result ≡ is_purchase order.now }
{
    matches!(order, Order::Play(PlayOrder::BuyTrain { .. }))
}

/// Returns what is said where this other presides over a company, if another does.
fn presided_by(company: Company, other: Option<Option<Seat>>) -> Option<Said>
    ensures { result ≡ presided_by company other }
{
    match other {
        Some(president) => Some(Said::Presided(company, president)),
        None => None,
    }
}

/// Returns what is said of a line with this fault, behind a head or before the first; nothing of
/// mail.
fn fault_said(is_open: bool, fault: Fault, text: &[u8]) -> Option<Said>
    ensures { result ≡ fault_told is_open fault text.now }
{
    if is_mail(text) {
        return None;
    }
    Some(said_of_fault(is_open, fault))
}

/// Returns what is said of a line with this fault, behind a head or before the first.
fn said_of_fault(is_open: bool, fault: Fault) -> Said
    ensures { result ≡ said_of_fault is_open fault }
{
    if !is_open && is_out_of_place(fault) {
        Said::Unopened
    } else {
        Said::Faulty(fault)
    }
}

/// Returns whether a fault is that of an order that has no place.
fn is_out_of_place(fault: Fault) -> bool
    ensures { result ≡ is_out_of_place fault }
{
    matches!(fault, Fault::OutOfPlace)
}

/// What a line of a sheet is.
#[derive(Clone, Copy)]
enum Look {
    /// The head of a written turn or a company's orders.
    Head,
    /// A line that may be reached.
    Good,
    /// A line with this fault.
    Bad(Fault),
}

/// Returns what a line of a sheet for a round is, before its first head or after it.
fn look_at(line: &NumberedLine, round: Round, is_open: bool) -> Look
    ensures { result ≡ look_of round is_open (line_read line.now).reading }
{
    match line.order() {
        Err(fault) => Look::Bad(fault),
        Ok(order) if is_head_of(round, order) => Look::Head,
        Ok(order) if has_place(round, order, is_open) => Look::Good,
        Ok(_) => Look::Bad(Fault::OutOfPlace),
    }
}

/// Returns whether an order has a place in a sheet for a round, in a written turn or a company's
/// orders or before the first.
fn has_place(round: Round, order: &Order, is_open: bool) -> bool
    ensures { result ≡ has_place round is_open order.now }
{
    match round {
        Round::Opening(_) if !is_open => matches!(
            order,
            Order::Play(PlayOrder::Limit { .. } | PlayOrder::Par { .. })
        ),
        Round::Stock(_) if !is_open => false,
        Round::Opening(_) | Round::Stock(_) => !is_of_file(order),
        Round::Operating { .. } if !is_open => {
            matches!(
                order,
                Order::Play(PlayOrder::Discard { .. } | PlayOrder::Offer(_))
            )
        }
        Round::Operating { .. } => matches!(
            order,
            Order::Play(PlayOrder::Lay(_) | PlayOrder::Token(_))
                | Order::Run { .. }
                | Order::Play(
                    PlayOrder::RunBest
                        | PlayOrder::Pay
                        | PlayOrder::Withhold
                        | PlayOrder::BuyTrain { .. }
                        | PlayOrder::BuyOwnedPrivate { .. }
                        | PlayOrder::Raise { .. }
                )
        ),
    }
}
