//! The rules by which a company lays a tile, and what the lay costs.
ghost use Rattle.std.specs.Prelude.{◌≡◌, ◌⊎◌, ◌↔◌, ◌≤◌, ◌<◌, Err, None, IsTrue, count_by};
ghost use Rattle.std.specs.List.{list_any};
ghost use Rattle.board_state.specs.MapState.{position_of, with_lay};
ghost use Rattle.map_tables.specs.OnMap.{colour_on, tile_on};
ghost use Rattle.board.specs.LayRules.{IsConnected, IsLayOutcome, map_rules, is_blocked};
ghost use Rattle.board.specs.LayRules.{is_colour_closed, is_kept, is_lay_used, is_none_left, is_tile, is_wrong_colour};
ghost use Rattle.board.specs.LayRules.{lay_answer_of, lay_cost_of, loses_track, on_map_of, needs_no_track};
ghost use Rattle.board.specs.LayRules.{place_of_colour};
ghost use Rattle.map_tables.specs.Hex.{same_hex};
ghost use Rattle.map_tables.specs.Place.{joined_hex};
ghost use Rattle.map_tables.specs.declared.hex.Hex.{Hex};
ghost use Rattle.tables.specs.Rules.{first_broken};

use crate::board::Board;
use crate::board_with_lay::After;
use crate::fault::LayFault;
use crate::powers::is_dh_lay;
use crate::turn::{Asker, TurnStep};
use board_state::{OnMap, has_bad_side, is_open, is_wrong_kind, same_hex};
use map_tables::{
    Colour, Hex, Lay, LayRule, Link, TileNo, TrackEnd, hex_kind, laid_links, printed_colour,
    private_hexes, terrain_cost, tile,
};
use reach::reaches_hex;
use tables::{Amount, Company, Kind, Money, Private, rules};

impl Board {
    /// Returns what a lay costs, in dollars, or the first rule that it breaks. The company must
    /// reach some track of the tile in the position after the lay. It does not change the board,
    /// and allocates nothing.
    pub fn try_lay(&self, asker: &Asker, lay: Lay) -> Result<Money, LayFault>
        ensures { IsLayOutcome self.now asker.now lay result }
    {
        if let Some(rule) = self.judge_ground(asker, lay) {
            return Err(LayFault::Rule(rule));
        }
        let reached = self.would_reach(asker.company, lay);
        let cost = self.judge_lay(asker, lay, reached)?;
        Ok(cost)
    }

    /// Returns what a lay costs, in dollars, or the first rule that it breaks, given whether some
    /// track of the tile is reached. It returns so only for a lay that keeps the rules before that
    /// one.
    fn judge_lay(&self, asker: &Asker, lay: Lay, reached: bool) -> Result<Money, LayRule>
        requires { first_broken (map_rules self.now asker.now lay) ≡ None }
        ensures { result ≡ lay_answer_of self.now asker.now lay reached }
    {
        let cost = Money::from(self.lay_cost(lay.hex));
        let broken = rules! { LayRule
            NotReached: !(self.needs_no_track(asker, lay) || reached),
            CashTooSmall: asker.cash < cost,
        };
        match broken {
            Some(rule) => Err(rule),
            None => Ok(cost),
        }
    }

    /// Returns the first rule that a lay breaks, of those that do not depend on what is reached.
    fn judge_ground(&self, asker: &Asker, lay: Lay) -> Option<LayRule>
        ensures { result ≡ first_broken (map_rules self.now asker.now lay) }
    {
        rules! { LayRule
            StepUsed: self.is_lay_used(asker, lay.hex),
            GreyOrRed: !is_open(hex_kind(lay.hex)),
            NoneLeft: self.is_none_left(lay.tile),
            ColourClosed: is_colour_closed(self.phase(), tile(lay.tile).colour),
            WrongTile: self.is_wrong_colour(lay) || is_wrong_kind(lay),
            TrackLost: self.loses_track(lay),
            BadSide: has_bad_side(lay),
            Blocked: is_blocked(asker, lay.hex),
        }
    }

    /// Returns whether a company would reach some track of a tile once it is laid. Its hex is not
    /// part of another hex's stop.
    fn would_reach(&self, company: Company, lay: Lay) -> bool
        requires { joined_hex lay.hex ≡ lay.hex }
        ensures { let after = position_of (with_lay self.now lay) in
            IsTrue result ↔ IsConnected after company lay }
    {
        let after = After { board: self, lay };
        let tokens = self.laid_tokens();
        reaches_hex(&after, company, tokens, lay.hex)
    }

    /// Returns what a lay on a hex costs, in dollars: its terrain, with the first tile.
    #[tactic(auto, unfolding(crate::specs::LayRules::lay_cost_of))]
    fn lay_cost(&self, hex: Hex) -> Amount
        ensures { result ≡ lay_cost_of self.now.lays hex }
    {
        match self.tile_on(hex) {
            Some(_) => 0,
            None => terrain_cost(hex),
        }
    }

    /// Returns whether the step of the lay is over, or the company has used its lay; the latter
    /// does not matter for CS's lay.
    #[tactic(auto, unfolding(crate::specs::LayRules::is_lay_used))]
    fn is_lay_used(&self, asker: &Asker, hex: Hex) -> bool
        ensures { result ≡ is_lay_used self.now.lays asker.now hex }
    {
        asker.pointer.number() != TurnStep::Lay.number()
            || (asker.lay_used && !self.is_cs_lay(asker, hex))
    }

    /// Returns whether a lay needs no connection: it is CS's, or DH's.
    fn needs_no_track(&self, asker: &Asker, lay: Lay) -> bool
        ensures { result ≡ needs_no_track self.now.lays asker.now lay }
    {
        self.is_cs_lay(asker, lay.hex) || is_dh_lay(asker, lay)
    }

    /// Returns whether the stock has no tile of a number left.
    #[tactic(auto, unfolding(crate::specs::LayRules::is_none_left))]
    fn is_none_left(&self, number: TileNo) -> bool
        ensures { result ≡ is_none_left self.now.lays number }
    {
        usize::from(tile(number).count) <= self.on_map_of(number)
    }

    /// Returns how many tiles of a number lie on the map.
    fn on_map_of(&self, number: TileNo) -> usize
        ensures { result ≡ on_map_of self.now.lays number }
    {
        map_tables::laws::hexes_are_listed_once();
        self.count_of(number, &Hex::ALL)
    }

    /// Counts those of some hexes on which a tile of a number lies.
    fn count_of(&self, number: TileNo, hexes: &[Hex]) -> usize
        ensures { result ≡ count_by (λ hex. is_tile number (tile_on self.now.lays hex)) hexes.now }
    {
        hexes
            .iter()
            .filter(|hex| self.has_tile(**hex, number))
            .count()
    }

    /// Returns whether a tile of a number lies on a hex.
    fn has_tile(&self, hex: Hex, number: TileNo) -> bool
        ensures { result ≡ is_tile number (tile_on self.now.lays hex) }
    {
        match self.tile_on(hex) {
            Some(lay) => lay.tile.index() == number.index(),
            None => false,
        }
    }

    /// Returns the colour that a hex has now.
    fn colour_on(&self, hex: Hex) -> Colour
        ensures { result ≡ colour_on self.now.lays hex }
    {
        match self.tile_on(hex) {
            Some(lay) => tile(lay.tile).colour,
            None => printed_colour(hex),
        }
    }

    /// Returns whether a tile does not have the next colour for its hex.
    #[tactic(auto, unfolding(crate::specs::LayRules::is_wrong_colour))]
    fn is_wrong_colour(&self, lay: Lay) -> bool
        ensures { result ≡ is_wrong_colour self.now.lays lay }
    {
        place_of_colour(tile(lay.tile).colour) != place_of_colour(self.colour_on(lay.hex)) + 1
    }

    /// Returns whether the tile lacks some link that the hex has now.
    #[tactic(auto, unfolding(crate::specs::LayRules::loses_track))]
    fn loses_track(&self, lay: Lay) -> bool
        ensures { result ≡ loses_track self.now.lays lay }
    {
        let links = laid_links(lay);
        self.links_on(lay.hex)
            .as_slice()
            .iter()
            .any(|old| !is_kept(links.as_slice(), *old))
    }
}

/// Returns whether tiles of a colour are not available yet in a phase.
#[tactic(auto, unfolding(crate::specs::LayRules::is_colour_closed))]
fn is_colour_closed(phase: Kind, colour: Colour) -> bool
    ensures { result ≡ is_colour_closed phase colour }
{
    match colour {
        Colour::White | Colour::Yellow => false,
        Colour::Green => phase.index() < Kind::Three.index(),
        Colour::Brown => phase.index() < Kind::Five.index(),
    }
}

/// Returns the place of a colour in the order of colours.
fn place_of_colour(colour: Colour) -> u8
    ensures place { result ≡ place_of_colour colour }
    ensures few { result ≤ 3 }
{
    match colour {
        Colour::White => 0,
        Colour::Yellow => 1,
        Colour::Green => 2,
        Colour::Brown => 3,
    }
}

/// Returns whether a link of a hex is one of these.
fn is_kept(links: &[Link], old: Link) -> bool
    ensures { result ≡ is_kept links.now old }
{
    links.iter().any(|link| link.order() == old.order())
}

/// Returns whether a hex belongs to a private that a player owns.
#[tactic(auto, unfolding(crate::specs::LayRules::is_blocked))]
fn is_blocked(asker: &Asker, hex: Hex) -> bool
    ensures { result ≡ is_blocked asker.now hex }
{
    Private::ALL.iter().any(|private| asker.player_privates[private.index()]
        && is_one_of(hex, private_hexes(*private)))
}

/// Returns whether a hex is one of some.
fn is_one_of(hex: Hex, hexes: &[Hex]) -> bool
    ensures { result ≡ list_any (λ one. same_hex one hex) hexes.now }
{
    hexes.iter().any(|one| same_hex(*one, hex))
}
