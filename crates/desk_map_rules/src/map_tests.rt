//! The tests of the rules of lays and tokens: those of the tables of `board`, each by itself.
ghost use Rattle.std.specs.Prelude.{◌≡◌, ◌≤◌, Some, count_by};
ghost use Rattle.std.specs.List.{list_any};
ghost use Rattle.board.specs.LayRules.{is_blocked, is_colour_closed, is_kept, is_none_left, is_tile};
ghost use Rattle.board.specs.LayRules.{is_wrong_colour, lay_cost_of, loses_track, on_map_of, place_of_colour};
ghost use Rattle.board.specs.Powers.{is_dh_token};
ghost use Rattle.board.specs.TokenRules.{has_none_left, has_token_in, is_full_at, is_kept_for, is_no_free_slot};
ghost use Rattle.board.specs.TokenRules.{kept_at, laid_by, token_cost_of};
ghost use Rattle.desk_map_rules.specs.LayAsked.{places_in};
ghost use Rattle.map_tables.specs.Hex.{same_hex};
ghost use Rattle.map_tables.specs.OnMap.{colour_on, tile_on};
ghost use Rattle.totals.specs.Operating.{tokens_of};

use board::{Asker, Board};
use board_state::{OnMap, same_company, same_hex, same_stop, slots};
use history::{Event, GameView};
use map_tables::{
    Colour, Hex, Lay, Link, Place, Stop, TileNo, home, joined_stop, laid_links, printed_colour,
    private_hexes, terrain_cost, tile,
};
use tables::{Amount, Company, Kind, Private, token_price, tokens};

/// Returns what a lay on a hex costs, in dollars: its terrain, with the first tile.
#[tactic(auto, unfolding(board::specs::LayRules::lay_cost_of))]
pub fn lay_cost(board: &Board, hex: Hex) -> Amount
    ensures { result ≡ lay_cost_of board.now.lays hex }
{
    match board.tile_on(hex) {
        Some(_) => 0,
        None => terrain_cost(hex),
    }
}

/// Returns whether the stock has no tile of a number left.
#[tactic(auto, unfolding(board::specs::LayRules::is_none_left))]
pub fn is_none_left(board: &Board, number: TileNo) -> bool
    ensures { result ≡ is_none_left board.now.lays number }
{
    usize::from(tile(number).count) <= on_map_of(board, number)
}

/// Returns how many tiles of a number lie on the map.
fn on_map_of(board: &Board, number: TileNo) -> usize
    ensures { result ≡ on_map_of board.now.lays number }
{
    // A law, which does nothing when it runs: these are all hexes.
    map_tables::laws::hexes_are_listed_once();
    count_of(board, number, &Hex::ALL)
}

/// Counts those of some hexes on which a tile of a number lies.
fn count_of(board: &Board, number: TileNo, hexes: &[Hex]) -> usize
    ensures { result ≡ count_by (λ hex. is_tile number (tile_on board.now.lays hex)) hexes.now }
{
    hexes
        .iter()
        .filter(|hex| has_tile(board, **hex, number))
        .count()
}

/// Returns whether a tile of a number lies on a hex.
fn has_tile(board: &Board, hex: Hex, number: TileNo) -> bool
    ensures { result ≡ is_tile number (tile_on board.now.lays hex) }
{
    match board.tile_on(hex) {
        Some(lay) => lay.tile.index() == number.index(),
        None => false,
    }
}

/// Returns the colour that a hex has.
pub fn colour_on(board: &Board, hex: Hex) -> Colour
    ensures { result ≡ colour_on board.now.lays hex }
{
    match board.tile_on(hex) {
        Some(lay) => tile(lay.tile).colour,
        None => printed_colour(hex),
    }
}

/// Returns whether a tile does not have the next colour for its hex.
#[tactic(auto, unfolding(board::specs::LayRules::is_wrong_colour))]
pub(crate) fn is_wrong_colour(board: &Board, lay: Lay) -> bool
    ensures { result ≡ is_wrong_colour board.now.lays lay }
{
    place_of_colour(tile(lay.tile).colour) != place_of_colour(colour_on(board, lay.hex)) + 1
}

/// Returns the place of a colour in the order of colours: from 0 for white to 3 for brown.
pub fn place_of_colour(colour: Colour) -> u8
    ensures place { result ≡ place_of_colour colour }
    ensures few { result ≤ 3 }
{
    match colour {
        Colour::White => 0,
        Colour::Yellow => 1,
        Colour::Green => 2,
        Colour::Brown => 3,
    }
}

/// Returns whether tiles of a colour are not available yet in a phase.
#[tactic(auto, unfolding(board::specs::LayRules::is_colour_closed))]
pub(crate) fn is_colour_closed(phase: Kind, colour: Colour) -> bool
    ensures { result ≡ is_colour_closed phase colour }
{
    match colour {
        Colour::White | Colour::Yellow => false,
        Colour::Green => phase.index() < Kind::Three.index(),
        Colour::Brown => phase.index() < Kind::Five.index(),
    }
}

/// Returns whether a tile lacks some link that its hex has.
#[tactic(auto, unfolding(board::specs::LayRules::loses_track))]
pub fn loses_track(board: &Board, lay: Lay) -> bool
    ensures { result ≡ loses_track board.now.lays lay }
{
    let links = laid_links(lay);
    board
        .links_on(lay.hex)
        .as_slice()
        .iter()
        .any(|old| !is_kept(links.as_slice(), *old))
}

/// Returns whether a link of a hex is one of these.
fn is_kept(links: &[Link], old: Link) -> bool
    ensures { result ≡ is_kept links.now old }
{
    links.iter().any(|link| link.order() == old.order())
}

/// Returns whether a hex belongs to a private that a player owns.
#[tactic(auto, unfolding(board::specs::LayRules::is_blocked))]
pub(crate) fn is_blocked(asker: &Asker, hex: Hex) -> bool
    ensures { result ≡ is_blocked asker.now hex }
{
    Private::ALL.iter().any(|private| asker.player_privates[private.index()]
        && is_one_of(hex, private_hexes(*private)))
}

/// Returns whether a hex is one of some.
fn is_one_of(hex: Hex, hexes: &[Hex]) -> bool
    ensures { result ≡ list_any (λ one. same_hex one hex) hexes.now }
{
    hexes.iter().any(|one| same_hex(*one, hex))
}

/// Returns how many tokens of a company lie.
#[tactic(auto, unfolding(board::specs::TokenRules::laid_by))]
pub fn laid_by(view: &GameView, company: Company) -> usize
    ensures { result ≡ laid_by (tokens_of view.now.events) company }
{
    view.tokens_placed(company)
}

/// Returns whether a company has no token left.
#[tactic(auto, unfolding(board::specs::TokenRules::has_none_left))]
pub fn has_none_left(view: &GameView, company: Company) -> bool
    ensures { result ≡ has_none_left (tokens_of view.now.events) company }
{
    tokens(company) <= laid_by(view, company)
}

/// Returns what the company's next token costs on a hex, in dollars: its price, or 0 if it is DH's.
#[tactic(auto, unfolding(board::specs::TokenRules::token_cost_of, board::specs::Powers::is_dh_token))]
pub(crate) fn token_cost(view: &GameView, asker: &Asker, hex: Hex) -> Amount
    ensures { result ≡ token_cost_of (tokens_of view.now.events) asker.now hex }
{
    if asker.dh_laid && same_hex(hex, Hex::F16) {
        return 0;
    }
    token_price(laid_by(view, asker.company))
}

/// Returns whether a company has a token in a hex.
pub fn has_token_in(view: &GameView, hex: Hex, company: Company) -> bool
    ensures { result ≡ has_token_in (tokens_of view.now.events) hex company }
{
    is_token_placed(view.events(), hex, company)
}

/// Returns whether one of some events places a token of a company in a hex.
fn is_token_placed(events: &[Event], hex: Hex, company: Company) -> bool
    ensures { result ≡ list_any (places_in hex company) events.now }
{
    events.iter().any(|event| is_token_in(event, hex, company))
}

/// Returns whether an event places a token of a company in a hex.
fn is_token_in(event: &Event, hex: Hex, company: Company) -> bool
    ensures { result ≡ places_in hex company event.now }
{
    match event.token() {
        Some((place, its)) => same_hex(place.hex, hex) && same_company(its, company),
        None => false,
    }
}

/// Returns whether a place is no stop of a city, or all its slots are taken or reserved.
#[tactic(auto, unfolding(board::specs::TokenRules::is_no_free_slot))]
pub fn is_no_free_slot(board: &Board, place: Place) -> bool
    ensures { result ≡ is_no_free_slot board.now place }
{
    match place.stop() {
        Some(stop) => is_taken_up(board, stop),
        None => true,
    }
}

/// Returns whether all slots of a stop are taken or reserved.
fn is_taken_up(board: &Board, stop: Stop) -> bool
    ensures { result ≡ is_full_at board.now (Some stop) }
{
    let taken = board.count_at(joined_stop(stop));
    let slots = slots(board, stop);
    slots <= taken || slots - taken <= kept_at(board, joined_stop(stop))
}

/// Returns how many slots of a stop are reserved for companies whose token does not lie there yet.
#[tactic(auto, unfolding(board::specs::TokenRules::kept_at))]
fn kept_at(board: &Board, stop: Stop) -> usize
    ensures { result ≡ kept_at board.now.tokens stop }
{
    Company::ALL
        .iter()
        .filter(|company| is_kept_for(board, stop, **company))
        .count()
}

/// Returns whether a slot of a stop is reserved for a company.
fn is_kept_for(board: &Board, stop: Stop, company: Company) -> bool
    ensures { result ≡ is_kept_for board.now.tokens stop company }
{
    same_stop(home(company), stop) && !board.holds(stop, company)
}
