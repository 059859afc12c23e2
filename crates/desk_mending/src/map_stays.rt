//! Which rules of lays, tokens, runs and dividends are broken whatever the other players order.
ghost use Rattle.std.specs.Prelude.{◌≡◌, IfOk};
ghost use Rattle.std.specs.List.{list_any};
ghost use Rattle.desk_map_rules.specs.RunAsked.{inner_places, stops_named};
ghost use Rattle.desk_mending.specs.MapStays.{best_stays, has_or_gets_token, is_last_colour, is_own_stop, lay_stays};
ghost use Rattle.desk_mending.specs.MapStays.{lie_in_turn, may_get_slots, pay_stays, place_of_tile, run_stays};
ghost use Rattle.desk_mending.specs.MapStays.{stays_short, stays_used_up, stays_without_slot, stays_without_token};
ghost use Rattle.desk_mending.specs.MapStays.{stays_wrong_tile, terrain_stays_dear, token_stays, token_stays_dear};
ghost use Rattle.operating.specs.MapState.{map_state_now};

use crate::written::{Written, any_parts_of, any_places_token};
use board::Board;
use board_state::{is_open, is_wrong_kind, same_hex, same_stop};
use desk_map_rules::{
    borders_named, colour_on, has_border_twice, has_none_left, has_none_of, has_stop_twice,
    has_token_in, inner_places, is_no_free_slot, is_none_left, is_wrong_number, laid_by, lay_cost,
    loses_track, passes_red, place_of_colour, stops_named,
};
use history::{GameView, Party};
use legal_runs::has_token_at_stop;
use map_tables::{
    Colour, Hex, Lay, LayRule, Place, RunRule, Stop, TokenRule, hex_kind, home, printed_slots, tile,
};
use purchases::has_trains;
use std::alloc::{AllocError, Global};
use tables::{Amount, Company, Kind, Money, token_price};

/// Returns whether a lay of a company breaks a rule whatever others do, given the game and its
/// board as the round begins.
pub(crate) fn lay_stays(
    start: &GameView,
    board: &Board,
    written: &Written,
    company: Company,
    lay: Lay,
    rule: LayRule,
) -> bool
    ensures { result ≡ lay_stays start.now board.now written.now.sheet.now company lay rule }
{
    match rule {
        LayRule::GreyOrRed | LayRule::BadSide => true,
        LayRule::NoneLeft => stays_used_up(board, lay),
        LayRule::WrongTile => stays_wrong_tile(board, lay),
        LayRule::TrackLost => loses_track(board, lay),
        LayRule::CashTooSmall => terrain_stays_dear(start, board, written, company, lay),
        LayRule::StepUsed | LayRule::ColourClosed | LayRule::Blocked | LayRule::NotReached => false,
    }
}

/// Returns whether a tile is used up and never comes back.
fn stays_used_up(board: &Board, lay: Lay) -> bool
    ensures { result ≡ stays_used_up board.now lay }
{
    is_none_left(board, lay.tile) && is_last_colour(tile(lay.tile).colour)
}

/// Returns whether no tile is laid in the place of one of a colour.
fn is_last_colour(colour: Colour) -> bool
    ensures { result ≡ is_last_colour colour }
{
    matches!(colour, Colour::Brown)
}

/// Returns whether a tile is none for its hex, or the hex has its colour or a later one.
fn stays_wrong_tile(board: &Board, lay: Lay) -> bool
    ensures { result ≡ stays_wrong_tile board.now lay }
{
    is_wrong_kind(lay) || place_of_tile(lay) <= place_of_colour(colour_on(board, lay.hex))
}

/// Returns the place of a tile's colour in the order of colours.
fn place_of_tile(lay: Lay) -> u8
    ensures { result ≡ place_of_tile lay }
{
    place_of_colour(tile(lay.tile).colour)
}

/// Returns whether a company stays short of a sum, in dollars, in its turn up to its runs.
fn stays_short(start: &GameView, written: &Written, company: Company, sum: Amount) -> bool
    ensures { result ≡ stays_short start.now written.now.sheet.now company sum }
{
    start.cash(Party::of_company(company)) < Money::from(sum)
        && !any_parts_of(company, written.sheet)
}

/// Returns whether a company stays short of what the terrain costs.
fn terrain_stays_dear(
    start: &GameView,
    board: &Board,
    written: &Written,
    company: Company,
    lay: Lay,
) -> bool
    ensures { result
        ≡ terrain_stays_dear start.now board.now written.now.sheet.now company lay }
{
    stays_short(start, written, company, lay_cost(board, lay.hex))
        && place_of_tile(lay) == place_of_colour(colour_on(board, lay.hex)) + 1
}

/// Returns whether a token of a company breaks a rule whatever others do, given the game and its
/// board as the round begins.
pub(crate) fn token_stays(
    start: &GameView,
    board: &Board,
    written: &Written,
    company: Company,
    place: Place,
    rule: TokenRule,
) -> bool
    requires same { board.now ≡ map_state_now start.now.events }
    ensures { result
        ≡ token_stays start.now board.now written.now.sheet.now company place rule }
{
    match rule {
        TokenRule::NoTokenLeft => has_none_left(start, company),
        TokenRule::NoFreeSlot => stays_without_slot(board, place),
        TokenRule::InHexAlready => has_or_gets_token(start, board, company, place.hex),
        TokenRule::CashTooSmall => token_stays_dear(start, board, written, company, place.hex),
        TokenRule::StepUsed | TokenRule::NotReached => false,
    }
}

/// Returns whether all slots of a place stay taken or reserved.
fn stays_without_slot(board: &Board, place: Place) -> bool
    ensures { result ≡ stays_without_slot board.now place }
{
    is_no_free_slot(board, place) && !may_get_slots(board, place.hex)
}

/// Returns whether a hex may get slots: it has a city, takes tiles, and its tile may be replaced.
fn may_get_slots(board: &Board, hex: Hex) -> bool
    ensures { result ≡ may_get_slots board.now hex }
{
    is_open(hex_kind(hex)) && printed_slots(hex) > 0 && !is_last_colour(colour_on(board, hex))
}

/// Returns whether a company has a token in a hex, or its home.
fn has_or_gets_token(start: &GameView, board: &Board, company: Company, hex: Hex) -> bool
    requires same { board.now ≡ map_state_now start.now.events }
    ensures { result ≡ has_or_gets_token board.now company hex }
{
    has_token_in(start, hex, company) || same_hex(home(company).hex, hex)
}

/// Returns whether a company stays short of the price of its next token.
fn token_stays_dear(
    start: &GameView,
    board: &Board,
    written: &Written,
    company: Company,
    hex: Hex,
) -> bool
    requires same { board.now ≡ map_state_now start.now.events }
    ensures { result
        ≡ token_stays_dear start.now board.now written.now.sheet.now company hex }
{
    let price = token_price(lie_in_turn(laid_by(start, company)));
    stays_short(start, written, company, price) && !same_hex(hex, Hex::F16)
}

/// Returns how many tokens of a company lie in its turn, given how many lie before it.
fn lie_in_turn(laid: usize) -> usize
    ensures { result ≡ lie_in_turn laid }
{
    if laid == 0 { 1 } else { laid }
}

/// Returns whether a run of a company's train breaks a rule whatever others do, given the game and
/// its board as the round begins. Fails only if allocation fails.
pub(crate) fn run_stays(
    alloc: Global,
    start: &GameView,
    board: &Board,
    written: &Written,
    company: Company,
    kind: Kind,
    places: &[Place],
    rule: RunRule,
) -> Result<bool, AllocError>
    ensures { IfOk result (λ stays. stays
        ≡ run_stays start.now.events board.now written.now.sheet.now company kind places.now
        rule) }
{
    let stops = stops_named(alloc, places)?;
    let inner = stops_named(alloc, inner_places(places))?;
    let borders = borders_named(alloc, places)?;
    let stops = stops.as_slice();
    Ok(match rule {
        RunRule::NoTrain => has_none_of(start, company, kind),
        RunRule::WrongNumber => is_wrong_number(kind, stops.len()),
        RunRule::StopTwice => has_stop_twice(stops),
        RunRule::NoToken => stays_without_token(board, written, company, stops),
        RunRule::BorderTwice => has_border_twice(borders.as_slice()),
        RunRule::RedInside => passes_red(board, inner.as_slice()),
        RunRule::StepUsed | RunRule::NoTrack | RunRule::PassesFull => false,
    })
}

/// Returns whether none of some stops gets a token of a company.
fn stays_without_token(board: &Board, written: &Written, company: Company, stops: &[Stop]) -> bool
    ensures { result ≡ stays_without_token board.now written.now.sheet.now company stops.now }
{
    !any_own_stop(board, company, stops) && !any_places_token(written.sheet)
}

/// Returns whether one of some stops has a token of a company, or is its home.
fn any_own_stop(board: &Board, company: Company, stops: &[Stop]) -> bool
    ensures { result ≡ list_any (is_own_stop board.now company) stops.now }
{
    stops.iter().any(|stop| is_own_stop(board, company, *stop))
}

/// Returns whether a stop has a token of a company, or is its home.
fn is_own_stop(board: &Board, company: Company, stop: Stop) -> bool
    ensures { result ≡ is_own_stop board.now company stop }
{
    has_token_at_stop(board, company, stop) || same_stop(home(company), stop)
}

/// Returns whether a company that has no train as the round begins has no best run.
pub(crate) fn best_stays(start: &GameView, company: Company, rule: RunRule) -> bool
    ensures { result ≡ best_stays start.now.events company rule }
{
    match rule {
        RunRule::NoTrain => !has_trains(start, company),
        _ => false,
    }
}

/// Returns whether a company that has no train as the round begins has nothing to pay.
pub(crate) fn pay_stays(start: &GameView, company: Company) -> bool
    ensures { result ≡ pay_stays start.now.events company }
{
    !has_trains(start, company)
}
