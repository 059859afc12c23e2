//! What each company earned, operating round by operating round.
ghost use Rattle.std.specs.Prelude.{◌≡◌, ◌+◌, ◌<◌, ◌≤◌, ◌^◌, ◌++◌, IfOk, OnOk};
ghost use Rattle.std.specs.Prelude.{map, option_to_list};
ghost use Rattle.page.specs.Revenue.{operating_round, revenue_in, revenue_row, revenue_rows};
ghost use Rattle.page.specs.Revenue.{revenue_then};
ghost use Rattle.tables.specs.Roster.{companies};

use history::{Event, History};
use markup::PagePiece::{Number, Round as Named, Words};
use markup::{
    Attr, NOTHING, Tag, Writer, begin_head, begin_heading, begin_row, begin_table, end_head,
    put_caption, put_heading, put_row_head, put_token,
};
use report::length_of_round;
use std::alloc::{AllocError, Global};
use tables::{Company, Money, PerCompany, Round};

/// What a company earned in a round.
#[derive(Clone, Copy)]
pub(crate) struct Revenue {
    /// Whether it operated.
    pub(crate) has_operated: bool,
    /// What its runs earned, in dollars.
    pub(crate) dollars: u128,
    /// Whether it withheld that.
    pub(crate) is_withheld: bool,
}

impl Revenue {
    /// Returns what the company has earned after an event, given what it had before.
    fn then(self, company: Company, event: &Event) -> Revenue
        requires { self.dollars < 2 ^ 127 }
        ensures revenue { result ≡ revenue_then company self event.now }
        ensures small { result.dollars ≤ self.dollars + 2 ^ 32 }
    {
        match event {
            Event::Runs {
                company: its,
                revenue,
            } if *its == company => Revenue {
                has_operated: true,
                dollars: self.dollars + u128::from(*revenue),
                ..self
            },
            Event::Withheld { company: its, .. } if *its == company => Revenue {
                has_operated: true,
                is_withheld: true,
                ..self
            },
            _ => self,
        }
    }
}

/// Returns what a company earned by the events of a round.
pub(crate) fn revenue_in(events: &[Event], company: Company) -> Revenue
    ensures revenue { result ≡ revenue_in events.now company }
    ensures small { result.dollars < 2 ^ 127 }
{
    let mut revenue = Revenue {
        has_operated: false,
        dollars: 0,
        is_withheld: false,
    };
    for event in events {
        revenue = revenue.then(company, event);
    }
    revenue
}

/// A row of the table: an operating round, and what each company earned in it.
#[derive(Clone, Copy)]
pub(crate) struct RevenueRow {
    round: Round,
    earned: PerCompany<Revenue>,
}

/// The most operating rounds that the table shows.
const ROUNDS_MOST: usize = 60;

/// Returns the rows of a list of events, one for each of its operating rounds, in order. Fails only
/// if allocation fails.
fn revenue_rows(alloc: Global, events: &[Event]) -> Result<Vec<RevenueRow>, AllocError>
    ensures { IfOk result (λ rows. rows.items ≡ revenue_rows events.now) }
{
    let mut rows = Vec::new(alloc);
    let mut begun = 0;
    while begun < events.len() {
        let end = begun + length_of_round(&events[begun..]);
        add_row(&mut rows, &events[begun..end])?;
        begun = end;
    }
    Ok(rows)
}

/// Adds the row of a round, if it is an operating round.
fn add_row(rows: &mut Vec<RevenueRow>, events: &[Event]) -> Result<(), AllocError>
    ensures { OnOk result
        (rows.new.items ≡ rows.old.items ++ option_to_list (revenue_row events.now)) }
{
    if let Some(row) = revenue_row(events) {
        rows.push(row)?;
    }
    Ok(())
}

/// Returns the row of a round by its events, if it is an operating round.
fn revenue_row(events: &[Event]) -> Option<RevenueRow>
    ensures { result ≡ revenue_row events.now }
{
    match operating_round(events) {
        Some(round) => Some(RevenueRow {
            round,
            earned: earned_in(events),
        }),
        None => None,
    }
}

/// Returns the operating round that these events begin with, if they do.
fn operating_round(events: &[Event]) -> Option<Round>
    ensures { result ≡ operating_round events.now }
{
    match events.first()?.round()? {
        round @ Round::Operating { .. } => Some(round),
        _ => None,
    }
}

/// Returns what each company earned by the events of a round.
fn earned_in(events: &[Event]) -> PerCompany<Revenue>
    ensures { result ≡ map (revenue_in events.now) companies }
{
    Company::ALL.map(|company| revenue_in(events, company))
}

/// Adds what each company earned, operating round by operating round. Fails only if allocation
/// fails.
pub fn put_revenue(alloc: Global, out: &mut Writer, history: &History) -> Result<(), AllocError> {
    let rows = revenue_rows(alloc, history.events())?;
    if rows.is_empty() {
        begin_table(out, "revenue", "wide");
        put_caption(out, "No operating round has been played.", "");
        out.end();
        return Ok(());
    }
    begin_table(out, "revenue", "wide");
    put_caption(
        out,
        "Revenue of the companies",
        "(operating round by operating round; w: withheld; a dot: it did not operate)",
    );
    begin_head(out);
    put_heading(out, "", &[Words("Round")]);
    for &company in &Company::ALL {
        begin_heading(out, "num");
        put_token(out, company);
        out.put(&[Words(company.code())]);
        out.end();
    }
    end_head(out);
    out.begin(Tag::TableBody);
    let left_out = rows.len().saturating_sub(ROUNDS_MOST);
    for row in rows.iter().skip(left_out) {
        put_row(out, row);
    }
    out.end();
    out.end();
    Ok(())
}

/// Adds a row of the table.
fn put_row(out: &mut Writer, row: &RevenueRow) {
    begin_row(out, "");
    put_row_head(out, &[Named(row.round)]);
    for revenue in &row.earned {
        put_cell(out, revenue);
    }
    out.end();
}

/// Adds what a company earned in a round.
fn put_cell(out: &mut Writer, revenue: &Revenue) {
    if revenue.has_operated {
        let mark = if revenue.is_withheld { " w" } else { "" };
        let dollars = Money::try_from(revenue.dollars).unwrap_or(Money::MAX);
        out.element_as(Tag::Cell, "num", &[Number(dollars), Words(mark)]);
    } else {
        out.element_as(Tag::Cell, "num", &[Words(NOTHING)]);
    }
}
