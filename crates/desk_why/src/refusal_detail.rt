//! What is added after the rule that refused an order: the figures that it compared, and the cause
//! if there are several.
ghost use Rattle.std.specs.Prelude.{◌≡◌, ◌<◌, option_and_then};
ghost use Rattle.desk_why.specs.Detail.{cause_at, colour_after, colour_then, detail_of};
ghost use Rattle.desk_why.specs.Why.{company_at};
ghost use Rattle.map_tables.specs.Hex.{same_hex};

use crate::cause::{cause_of, cause_out_of_place};
use crate::figures::{Figures, cost_in_turn, figures_of, push_figures};
use crate::legal::push_of_lay;
use crate::sheet_line::{LinePlace, SheetLine};
use crate::track::break_of;
use crate::ways::{push_ways_to_stop, push_ways_to_tile};
use desk_base::Piece::{Bytes, Count, Number, Words};
use desk_base::{
    Cause, Objection, bad_side, beyond_side, board_at, cause_of_slot, fill, objection_by_view,
    objection_to, push, push_beyond, push_objection,
};
use history::{
    Event, GameView, Holder, LayRule, OpeningRule, Party, PrivateRule, Refusal, RunRule,
    Shareholder, StockRule, TokenRule, TrainRule,
};
use map_tables::{Colour, Hex, Lay, Place, printed_colour, tile};
use order_grammar::{
    Condition, Fault, Offer, Order, PlayOrder, TrainSource, begins_with_word, print_play_order,
};
use purchases::has_train;
use report::name;
use sheets::Sheets;
use std::alloc::{AllocError, Global};
use tables::{Amount, Company, Kind, Money, Private, Round, Seat};

/// Where a line was ruled.
#[derive(Clone, Copy)]
pub struct Ruled<'a> {
    /// The sheets of the game.
    pub sheets: &'a Sheets<'a>,
    /// The lines of the sheets for the round.
    pub lines: &'a [SheetLine<'a>],
    /// The game before it.
    pub view: &'a GameView<'a>,
    /// The round.
    pub round: Round,
    /// Whose line it is.
    pub seat: Seat,
    /// Where it is in its sheet, if that is known.
    pub place: Option<LinePlace>,
}

impl Ruled<'_> {
    /// Returns the company whose orders the line is among, if that is known.
    pub(crate) fn company(&self) -> Option<Company>
        ensures { result ≡ option_and_then company_at self.now.place }
    {
        self.place?.company()
    }
}

/// A rule that an order breaks.
#[derive(Clone, Copy)]
pub struct Broken<'a> {
    /// The rule.
    pub rule: Refusal,
    /// The condition of the order, if it has one.
    pub condition: Option<Condition>,
    /// The order.
    pub order: &'a Order,
}

/// What is told of a ruling that refused an order, beside its rule.
#[derive(Clone, Copy)]
pub(crate) struct Detail {
    /// The figures that the rule compared; `None` if it compares none.
    figures: Option<Figures>,
    /// The cause of several; `None` if the rule has one alone, or what is told beside it says
    /// which.
    cause: Option<Cause>,
}

/// Returns what is told of a ruling that refused an order for a rule. The seat is one of six.
fn detail_of(ruled: Ruled, condition: Option<Condition>, order: &Order, rule: Refusal) -> Detail
    ensures { let view = ruled.entry.view.now in ruled.entry.seat.0 < 6 → result
        ≡ detail_of view ruled.entry.seat ruled.entry.place condition
        order.now rule }
{
    Detail {
        figures: figures_of(ruled.view, ruled.seat, condition, order, rule),
        cause: cause_at(ruled.view, ruled.seat, ruled.place, order, rule),
    }
}

/// Returns the cause for which a rule refused an order, if it is known where that stands.
fn cause_at(
    view: &GameView,
    seat: Seat,
    place: Option<LinePlace>,
    order: &Order,
    rule: Refusal,
) -> Option<Cause>
    ensures { result ≡ cause_at view.now seat place order.now rule }
{
    match place {
        Some(place) => cause_of(view, seat, place, order, rule),
        None => None,
    }
}

/// Adds the figures that a rule compared when it refused an order, and the cause if there are
/// several.
pub(crate) fn push_refusal_detail<'a>(
    alloc: Global,
    out: &mut Vec<u8>,
    ruled: Ruled<'a>,
    broken: Broken<'a>,
) -> Result<(), AllocError> {
    let (rule, order) = (broken.rule, broken.order);
    let detail = detail_of(ruled, broken.condition, order, rule);
    if let Some(figures) = detail.figures {
        push_figures(out, ruled.sheets, ruled.seat, figures)?;
    }
    if let (Some(place), Some(cause)) = (ruled.place, detail.cause) {
        push_cause(out, place, cause)?;
    }
    push_by_order(alloc, out, ruled, rule, order)
}

/// Adds what shows that an order breaks a rule: the order itself, or the state by which it was
/// ruled.
fn push_by_order(
    alloc: Global,
    out: &mut Vec<u8>,
    ruled: Ruled,
    rule: Refusal,
    order: &Order,
) -> Result<(), AllocError> {
    match (rule, order) {
        (Refusal::Opening(OpeningRule::NotOfOpening), _) => push_of_par(out, ruled, rule, order),
        (Refusal::Stock(StockRule::NoExchange), _) => push_of_exchange(out, ruled),
        (Refusal::Opening(_) | Refusal::Stock(_) | Refusal::Condition, _) => Ok(()),
        (Refusal::Lay(LayRule::BadSide), Order::Play(PlayOrder::Lay(lay))) => push_bad_side(
            out, *lay,
        ),
        (Refusal::Lay(LayRule::NotReached), Order::Play(PlayOrder::Lay(lay))) => push_ways_to_tile(
            out, *lay,
        ),
        (Refusal::Token(TokenRule::NotReached), Order::Play(PlayOrder::Token(place))) => {
            push_ways_to_stop(out, &board_at(alloc, ruled.view)?, *place)
        }
        (
            Refusal::Lay(LayRule::CashTooSmall)
            | Refusal::Token(TokenRule::CashTooSmall)
            | Refusal::Train(TrainRule::CashTooSmall)
            | Refusal::Private(PrivateRule::CashTooSmall),
            _,
        ) => push_cash(out, ruled, order),
        _ => push_by_tables(alloc, out, ruled, rule, order),
    }
}

/// Adds for which of several causes a line at this place was refused.
fn push_cause(out: &mut Vec<u8>, place: LinePlace, cause: Cause) -> Result<(), AllocError> {
    match place.company() {
        Some(company) => fill(out, cause.words(), &[Words(company.code())]),
        None => fill(out, cause.words(), &[]),
    }
}

/// Adds which lines are allowed where a misplaced line of a round is, and where that line may be;
/// nothing for other faults.
pub(crate) fn push_of_place(
    out: &mut Vec<u8>,
    round: Round,
    line: &SheetLine,
    fault: Fault,
) -> Result<(), AllocError> {
    match fault {
        Fault::OutOfPlace => {
            push_cause(out, line.place, cause_out_of_place(round, line.place))?;
            push_place_meant(out, round, line.text)
        }
        _ => Ok(()),
    }
}

/// Adds where a misplaced line of a sheet for a round is to be written, if its first word shows
/// that: an OFFER or a DISCARD. Fails only if allocation fails.
pub fn push_place_meant(out: &mut Vec<u8>, round: Round, line: &[u8]) -> Result<(), AllocError> {
    let is_standing = begins_with_word(line, b"OFFER") || begins_with_word(line, b"DISCARD");
    match round {
        Round::Operating { .. } if is_standing => {
            fill(out, "; write it above the first COMPANY", &[])
        }
        _ => Ok(()),
    }
}

/// Adds the bad side that the track of a tile leads to, and what lies there.
fn push_bad_side(out: &mut Vec<u8>, lay: Lay) -> Result<(), AllocError> {
    let Some(side) = bad_side(lay) else {
        return Ok(());
    };
    fill(out, " (at side % ", &[Count(side.number())])?;
    push_beyond(out, beyond_side(lay.hex, side))?;
    fill(out, ")", &[])
}

/// Adds why a PAR of an opening is wrong: it is not BO's, or names no par value.
fn push_of_par(
    out: &mut Vec<u8>,
    ruled: Ruled,
    rule: Refusal,
    order: &Order,
) -> Result<(), AllocError> {
    match objection_to(ruled.round, false, order) {
        Some((broken, reason)) if broken == rule => push_objection(out, ruled.sheets, reason),
        _ => Ok(()),
    }
}

/// Adds why MH cannot be exchanged: who owns it, or how many shares of NYC the seat and the bank
/// have.
fn push_of_exchange(out: &mut Vec<u8>, ruled: Ruled) -> Result<(), AllocError> {
    let owner = ruled.view.owner(Private::MohawkHudson);
    if owner != Some(Holder::Seat(ruled.seat)) {
        let reason = Objection::Owner(Private::MohawkHudson, owner);
        return push_objection(out, ruled.sheets, reason);
    }
    let company = Company::NewYorkCentral;
    let in_bank = ruled.view.shares(company, Shareholder::InitialOffering)
        + ruled.view.shares(company, Shareholder::BankPool);
    if in_bank == 0 {
        return fill(out, " (IPO and POOL have no share of NYC)", &[]);
    }
    let pieces = [
        Bytes(name(ruled.sheets, ruled.seat)),
        Number(ruled.view.shares(company, Shareholder::Seat(ruled.seat))),
    ];
    let words = " (% has % shares of NYC, the most outside the orange and the brown zone)";
    fill(out, words, &pieces)
}

/// Adds why an order breaks a rule, if the map and the tables alone show it.
fn push_by_tables(
    alloc: Global,
    out: &mut Vec<u8>,
    ruled: Ruled,
    rule: Refusal,
    order: &Order,
) -> Result<(), AllocError> {
    match objection_to(ruled.round, true, order) {
        Some((broken, reason)) if broken == rule => push_objection(out, ruled.sheets, reason),
        _ => push_by_view(alloc, out, ruled, rule, order),
    }
}

/// Adds why an order breaks a rule, if the tiles and tokens or somebody's belongings show it, or
/// else the remaining figures of the rule.
fn push_by_view(
    alloc: Global,
    out: &mut Vec<u8>,
    ruled: Ruled,
    rule: Refusal,
    order: &Order,
) -> Result<(), AllocError> {
    match (rule, order) {
        (Refusal::Run(RunRule::NoTrack), Order::Run { run, .. }) => {
            push_break(alloc, out, ruled, run.as_slice())
        }
        (Refusal::Token(TokenRule::NoFreeSlot), Order::Play(PlayOrder::Token(place))) => {
            push_full(alloc, out, ruled.view, *place)
        }
        (
            Refusal::Private(PrivateRule::NoConsent),
            Order::Play(PlayOrder::BuyOwnedPrivate { private, .. }),
        ) => {
            let reason = Objection::Owner(*private, ruled.view.owner(*private));
            push_objection(out, ruled.sheets, reason)
        }
        (
            Refusal::Train(TrainRule::NoConsent),
            Order::Play(
                PlayOrder::BuyTrain {
                    kind,
                    from: TrainSource::Company { seller, price },
                },
            ),
        ) if *price > 0 => push_offer_lacking(out, ruled, *kind, *seller, *price),
        (Refusal::Lay(rule), Order::Play(PlayOrder::Lay(lay))) => {
            push_of_lay(alloc, out, ruled, rule, *lay)
        }
        _ => match objection_by_view(ruled.view, ruled.seat, order) {
            Some((broken, reason)) if broken == rule => push_objection(out, ruled.sheets, reason),
            _ => Ok(()),
        },
    }
}

/// Adds which offer a purchase of a train from a company lacks; if the company has no such train,
/// or is the buyer, only that, since then no offer is enough.
fn push_offer_lacking(
    out: &mut Vec<u8>,
    ruled: Ruled,
    kind: Kind,
    seller: Company,
    price: Amount,
) -> Result<(), AllocError> {
    let president = ruled.view.president(seller);
    let (Some(buyer), Some(giver)) = (ruled.company(), president) else {
        return push_objection(out, ruled.sheets, Objection::President(seller, president));
    };
    if !has_train(ruled.view, seller, kind) {
        return push_objection(out, ruled.sheets, Objection::NoTrain(seller, kind));
    }
    let giver = Bytes(name(ruled.sheets, giver));
    let words = "; %, who presides over %, has not offered it: it needs %'s ";
    fill(out, words, &[giver, Words(seller.code()), giver])?;
    print_play_order(
        out,
        PlayOrder::Offer(Offer::Train {
            kind,
            seller,
            buyer,
            price,
        }),
    )
}

/// Adds the hexes of a run between which no track leads.
fn push_break(
    alloc: Global,
    out: &mut Vec<u8>,
    ruled: Ruled,
    run: &[Place],
) -> Result<(), AllocError> {
    match break_of(&board_at(alloc, ruled.view)?, run) {
        Some((hex, other)) => push_objection(out, ruled.sheets, Objection::Apart(hex, other)),
        None => Ok(()),
    }
}

/// Adds why a place has no free slot.
fn push_full(
    alloc: Global,
    out: &mut Vec<u8>,
    view: &GameView,
    place: Place,
) -> Result<(), AllocError> {
    let board = board_at(alloc, view)?;
    fill(out, cause_of_slot(&board, place).words(), &[])
}

/// Adds the colour of a hex at a moment of the game, and that of a tile that was to be laid there.
pub(crate) fn push_colour(out: &mut Vec<u8>, view: &GameView, lay: Lay) -> Result<(), AllocError> {
    let code = lay.hex.text();
    let colour = Words(colour_name(colour_after(view.events(), lay.hex)));
    let number = Number(Money::from(lay.tile.number()));
    let its = Words(colour_name(tile(lay.tile).colour));
    fill(
        out,
        " (% is % now, and % is a % tile)",
        &[Bytes(code.as_slice()), colour, number, its],
    )
}

/// Returns the colour of a hex after some events: that of its print, or of the tile laid last.
fn colour_after(events: &[Event], hex: Hex) -> Colour
    ensures { result ≡ colour_after hex events.now }
{
    let mut colour = printed_colour(hex);
    for event in events {
        colour = colour_then(colour, event, hex);
    }
    colour
}

/// Returns the colour of a hex after one more event.
fn colour_then(colour: Colour, event: &Event, hex: Hex) -> Colour
    ensures { result ≡ colour_then hex colour event.now }
{
    match event.lay() {
        Some(lay) if same_hex(lay.hex, hex) => tile(lay.tile).colour,
        _ => colour,
    }
}

/// Returns whether two hexes are the same.
fn same_hex(hex: Hex, other: Hex) -> bool
    ensures { result ≡ same_hex hex other }
{
    hex.index() == other.index()
}

/// Returns the name of a colour.
fn colour_name(colour: Colour) -> &'static str {
    match colour {
        Colour::White => "white",
        Colour::Yellow => "yellow",
        Colour::Green => "green",
        Colour::Brown => "brown",
    }
}

/// Adds what an order costs, and the cash of the company whose orders it is among; if that is not
/// known, the cash of each company that the player presides over.
fn push_cash(out: &mut Vec<u8>, ruled: Ruled, order: &Order) -> Result<(), AllocError> {
    let Some(company) = ruled.company() else {
        return push_cash_of_all(out, ruled);
    };
    let cash = Number(ruled.view.cash(Party::of_company(company)));
    let code = Words(company.code());
    match cost_in_turn(ruled.view, company, order) {
        Some(cost) => {
            let cost = Number(Money::from(cost));
            fill(out, " (it costs %, % has %)", &[cost, code, cash])
        }
        None => fill(out, " (% has %)", &[code, cash]),
    }
}

/// Adds the cash of each company that the player presides over.
fn push_cash_of_all(out: &mut Vec<u8>, ruled: Ruled) -> Result<(), AllocError> {
    let (mut words, mut end) = (" (% has %", "");
    for company in &Company::ALL {
        let is_meant = ruled.view.floated(*company)
            && ruled.view.president(*company) == Some(ruled.seat);
        if is_meant {
            let cash = Number(ruled.view.cash(Party::of_company(*company)));
            fill(out, words, &[Words(company.code()), cash])?;
            (words, end) = (", % has %", ")");
        }
    }
    push(out, &[Words(end)])
}
