//! A company's lays and tokens as rows with prices, lays first.
ghost use Rattle.std.specs.Prelude.{◌≡◌, ◌++◌, IfOk, OnOk, map};
ghost use Rattle.order_grammar.specs.Print.{spelling_of};
ghost use Rattle.order_grammar.specs.declared.order.Order.TheVariants.{Play};
ghost use Rattle.page_lays.specs.MoveRows.{AreMovesIn, hex_of_move, is_of, lay_row, order_of_move};
ghost use Rattle.page_lays.specs.MoveRows.{token_row};

use desk_base::board_at;
use foresight::OrdersAhead;
use map_tables::{Hex, Lay, Place};
use moves::{Priced, lays, tokens};
use order_grammar::{PlayOrder, print_play_order};
use std::alloc::{AllocError, Global};

/// What a company may do on the map.
#[derive(Clone, Copy)]
pub(crate) enum Move {
    /// Lay a tile.
    Lay(Lay),
    /// Place its next token.
    Token(Place),
}

/// Which lays and tokens are meant.
#[derive(Clone, Copy)]
pub(crate) enum MoveKind {
    Lays,
    Tokens,
    Both,
}

impl Move {
    /// Returns whether it is meant.
    pub(crate) fn is_of(self, kind: MoveKind) -> bool
        ensures { result ≡ is_of self kind }
    {
        match (self, kind) {
            (_, MoveKind::Both) => true,
            (Move::Lay(_), MoveKind::Lays) | (Move::Token(_), MoveKind::Tokens) => true,
            (Move::Lay(_), MoveKind::Tokens) | (Move::Token(_), MoveKind::Lays) => false,
        }
    }

    /// Returns its hex.
    pub(crate) fn hex(self) -> Hex
        ensures { result ≡ hex_of_move self }
    {
        match self {
            Move::Lay(lay) => lay.hex,
            Move::Token(place) => place.hex,
        }
    }

    /// Returns its order.
    fn order(self) -> PlayOrder
        ensures { result ≡ order_of_move self }
    {
        match self {
            Move::Lay(lay) => PlayOrder::Lay(lay),
            Move::Token(place) => PlayOrder::Token(place),
        }
    }

    /// Returns its order as a line of a sheet. Fails only if allocation fails.
    pub(crate) fn text(self, alloc: Global) -> Result<Vec<u8>, AllocError>
        ensures { IfOk result (λ text. text.items ≡ spelling_of (Play (order_of_move self))) }
    {
        let mut text = Vec::new(alloc);
        print_play_order(&mut text, self.order())?;
        Ok(text)
    }
}

/// Returns every lay and every token of a company at this point of its turn, with prices in
/// dollars. Fails only if allocation fails.
pub(crate) fn rows_of(alloc: Global, orders: &OrdersAhead) -> Result<Vec<Priced<Move>>, AllocError>
    ensures { IfOk result (λ rows.
        AreMovesIn orders.now.turn orders.now.by.company rows.items) }
{
    let board = board_at(alloc, &orders.history().now())?;
    let asker = orders.asker();
    let lays = lays(alloc, &board, &asker)?;
    let tokens = tokens(alloc, &board, &asker)?;
    let mut rows = Vec::new(alloc);
    push_lays(&mut rows, lays.as_slice())?;
    push_tokens(&mut rows, tokens.as_slice())?;
    Ok(rows)
}

/// Adds some lays.
fn push_lays(rows: &mut Vec<Priced<Move>>, lays: &[Priced<Lay>]) -> Result<(), AllocError>
    ensures { OnOk result (rows.new.items ≡ rows.old.items ++ map lay_row lays.now) }
{
    for lay in lays {
        rows.push(Priced {
            what: Move::Lay(lay.what),
            price: lay.price,
        })?;
    }
    Ok(())
}

/// Adds some tokens.
fn push_tokens(rows: &mut Vec<Priced<Move>>, tokens: &[Priced<Place>]) -> Result<(), AllocError>
    ensures { OnOk result (rows.new.items ≡ rows.old.items ++ map token_row tokens.now) }
{
    for token in tokens {
        rows.push(Priced {
            what: Move::Token(token.what),
            price: token.price,
        })?;
    }
    Ok(())
}
