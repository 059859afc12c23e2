//! All rules that the lines of a sheet break: first those that are broken whatever others do, then
//! those that are broken if nobody orders anything before the line.
ghost use Rattle.std.specs.Prelude.{◌≡◌, IfOk};
ghost use Rattle.desk_trials.specs.Reasons.{AreAsked, AreAskedInPlay, AreAskedOfCompany, site_of};

use crate::check_found::CodedLine;
use crate::consent::push_consent;
use crate::sheet_orders::{OrderLine, SheetOrders};
use crate::start::Start;
use desk_base::Piece::Words;
use desk_base::{board_at, push};
use desk_map_rules::broken_on_map;
use desk_mending::others_can_mend;
use desk_rules::{Site, broken_rules};
use desk_why::{Broken, LinePlace, Ruled, push_broken};
use history::{GameView, Refusal};
use order_grammar::{Condition, Order, PlayOrder};
use std::alloc::{AllocError, Global};
use tables::{Company, Round, Seat};

/// The words before the rules that are broken whatever others do.
const WHATEVER: &str = "whatever others do: ";

/// The words before those that are broken only if nobody orders anything before the line.
pub(crate) const IF_NOBODY: &str = "if nobody orders anything before it: ";

/// A line whose order is tried, with what is known of it.
#[derive(Clone, Copy)]
pub(crate) struct Asked<'x> {
    /// The game as the round begins, with its board.
    pub(crate) start: &'x Start<'x>,
    pub(crate) orders: &'x SheetOrders,
    pub(crate) line: OrderLine,
    pub(crate) order: &'x Order,
    /// The codes that the lines of the sheet have been told.
    pub(crate) coded: &'x [CodedLine],
    /// The number of the line in the file.
    pub(crate) number: usize,
}

impl Asked<'_> {
    /// Returns the rules that are asked of the order, given the game before it: none where such an
    /// order has no place.
    fn broken(&self, alloc: Global, ruled: Ruled) -> Result<Vec<Refusal>, AllocError> {
        match site_of(ruled.round, self.line.place) {
            Some(site) => broken_at(alloc, ruled.view, ruled.seat, site, self.order),
            None => Ok(Vec::new(alloc)),
        }
    }

    /// Returns whether others may mend a rule that the order breaks.
    fn can_mend(&self, alloc: Global, ruled: Ruled, rule: Refusal) -> Result<bool, AllocError> {
        let start = self.start;
        let written = self.orders.beside(self.line);
        others_can_mend(
            alloc,
            start.view,
            &start.board,
            ruled.seat,
            &written,
            self.line.place.company(),
            self.order,
            rule,
        )
    }

    /// Returns whether the line has been told that it breaks a rule.
    fn is_told(&self, rule: Refusal) -> bool {
        self.coded.iter().any(|told| told.number == self.number && told.code == rule.code())
    }
}

/// Returns where an order stands that is at a place of a sheet for a round; `None` if no order is
/// ruled there.
pub(crate) fn site_of(round: Round, place: LinePlace) -> Option<Site>
    ensures { result ≡ site_of round place }
{
    match (round, place) {
        (Round::Opening(_), LinePlace::Standing) => Some(Site::BeforeTurns),
        (Round::Opening(_), LinePlace::Turn) => Some(Site::OpeningTurn),
        (Round::Stock(_), LinePlace::Turn) => Some(Site::StockTurn),
        (Round::Operating { .. }, LinePlace::Standing) => Some(Site::BeforeCompanies),
        (Round::Operating { .. }, LinePlace::Orders(company)) => Some(Site::Orders(company)),
        _ => None,
    }
}

/// Returns the rules that are asked of an order of a seat, given the game before it and where it
/// stands. Fails only if allocation fails.
fn broken_at(
    alloc: Global,
    view: &GameView,
    seat: Seat,
    site: Site,
    order: &Order,
) -> Result<Vec<Refusal>, AllocError>
    ensures { IfOk result (λ rules. AreAsked view.now seat site order.now rules.items) }
{
    match site {
        Site::Orders(company) => broken_by_company(alloc, view, seat, company, order),
        _ => broken_in_play(alloc, view, seat, site, order),
    }
}

/// Returns the rules that are asked of an order of a seat, apart from those of the map.
fn broken_in_play(
    alloc: Global,
    view: &GameView,
    seat: Seat,
    site: Site,
    order: &Order,
) -> Result<Vec<Refusal>, AllocError>
    ensures { IfOk result (λ rules. AreAskedInPlay view.now seat site order.now rules.items) }
{
    match order {
        Order::Play(order) => broken_rules(alloc, view, seat, site, *order),
        _ => Ok(Vec::new(alloc)),
    }
}

/// Returns the rules that are asked of an order of a seat among those for a company, given the game
/// before it. Fails only if allocation fails.
fn broken_by_company(
    alloc: Global,
    view: &GameView,
    seat: Seat,
    company: Company,
    order: &Order,
) -> Result<Vec<Refusal>, AllocError>
    ensures { IfOk result (λ rules.
        AreAskedOfCompany view.now seat company order.now rules.items) }
{
    match order {
        Order::Play(PlayOrder::Lay(_) | PlayOrder::Token(_)) | Order::Run { .. } => {
            let board = board_at(alloc, view)?;
            broken_on_map(alloc, &board, view, company, order)
        }
        Order::Play(order) => broken_rules(alloc, view, seat, Site::Orders(company), *order),
        _ => Ok(Vec::new(alloc)),
    }
}

/// Adds the rules that an order breaks which a trial refused for a rule, if the line has not been
/// told them. The order has this condition, and the game is given as it was before it.
pub(crate) fn push_reasons<'a>(
    alloc: Global,
    out: &mut Vec<u8>,
    ruled: Ruled<'a>,
    asked: Asked,
    condition: Option<Condition>,
    first: Refusal,
) -> Result<(), AllocError> {
    let mut rules = Vec::new(alloc);
    let others = asked.broken(alloc, ruled)?;
    if !others.iter().any(|rule| rule.code() == first.code()) {
        rules.push(first)?;
    }
    rules.extend_from_slice(others.as_slice())?;
    push_rules(alloc, out, ruled, asked, condition, rules.as_slice(), false)?;
    push_rules(alloc, out, ruled, asked, condition, rules.as_slice(), true)
}

/// Adds the rules that an order breaks whatever others do, if the line has not been told them. The
/// game is given as the round begins.
pub(crate) fn push_lasting<'a>(
    alloc: Global,
    out: &mut Vec<u8>,
    ruled: Ruled<'a>,
    asked: Asked,
) -> Result<(), AllocError> {
    let rules = asked.broken(alloc, ruled)?;
    push_rules(alloc, out, ruled, asked, None, rules.as_slice(), false)
}

/// Adds those of some rules that others may mend, or that they may not, with the words before them.
fn push_rules<'a>(
    alloc: Global,
    out: &mut Vec<u8>,
    ruled: Ruled<'a>,
    asked: Asked,
    condition: Option<Condition>,
    rules: &[Refusal],
    can_mend: bool,
) -> Result<(), AllocError> {
    let mut is_first = true;
    for rule in rules {
        if asked.can_mend(alloc, ruled, *rule)? == can_mend && !asked.is_told(*rule) {
            push_link(out, can_mend, is_first)?;
            push_broken_rule(alloc, out, ruled, asked, condition, *rule)?;
            is_first = false;
        }
    }
    Ok(())
}

/// Adds the words before a rule: whether others may mend it, or that it is one more.
fn push_link(out: &mut Vec<u8>, can_mend: bool, is_first: bool) -> Result<(), AllocError> {
    if !is_first {
        return push(out, &[Words("; and ")]);
    }
    let parted = if out.is_empty() { "" } else { "; " };
    let before = if can_mend { IF_NOBODY } else { WHATEVER };
    push(out, &[Words(parted), Words(before)])
}

/// Adds a rule that an order breaks, and whose offer it lacks.
fn push_broken_rule<'a>(
    alloc: Global,
    out: &mut Vec<u8>,
    ruled: Ruled<'a>,
    asked: Asked,
    condition: Option<Condition>,
    rule: Refusal,
) -> Result<(), AllocError> {
    let broken = Broken {
        rule,
        condition,
        order: asked.order,
    };
    push_broken(alloc, out, ruled, asked.line.number, broken)?;
    push_consent_to(out, ruled, asked.line.place.company(), broken)
}

/// Adds whose offer an order of a company lacks, if it is among a company's orders.
fn push_consent_to(
    out: &mut Vec<u8>,
    ruled: Ruled,
    company: Option<Company>,
    broken: Broken,
) -> Result<(), AllocError> {
    let Some(company) = company else {
        return Ok(());
    };
    push_consent(
        out,
        ruled.sheets,
        ruled.view,
        ruled.seat,
        company,
        broken.order,
        broken.rule,
    )
}
