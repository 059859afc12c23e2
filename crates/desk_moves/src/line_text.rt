//! A company's lays and tokens as order lines, each as a sheet could hold it, four spaces, and its
//! price.
ghost use Rattle.std.specs.Prelude.{◌≡◌, ◌++◌, IfOk, OnOk};
ghost use Rattle.std.specs.List.{flat_map};
ghost use Rattle.desk_moves.specs.Lines.{AreLines, lay_line, priced_line, token_line};

use desk_may::board_now;
use foresight::OrdersAhead;
use map_tables::{Lay, Place};
use moves::{Priced, lays, tokens};
use order_grammar::{PlayOrder, print_number, print_play_order};
use std::alloc::{AllocError, Global};
use tables::Money;

/// What is between an order and its price.
const GAP: &[u8; 4] = b"    ";

/// Returns every lay and every token of a company at this point of its turn, a line each: the
/// order, four spaces, and its price in dollars. Lays come first, in the order of hex, tile,
/// rotation and SWAP; then tokens, in that of hex and stop. Fails only if allocation fails.
pub(crate) fn line_text(alloc: Global, orders: &OrdersAhead) -> Result<Vec<u8>, AllocError>
    ensures { IfOk result (λ text.
        AreLines orders.now.turn orders.now.by.company text.items) }
{
    let board = board_now(alloc, orders.history())?;
    let asker = orders.asker();
    let lays = lays(alloc, &board, &asker)?;
    let tokens = tokens(alloc, &board, &asker)?;
    let mut text = Vec::new(alloc);
    push_lay_lines(&mut text, lays.as_slice())?;
    push_token_lines(&mut text, tokens.as_slice())?;
    Ok(text)
}

/// Adds the lines of some lays.
fn push_lay_lines(out: &mut Vec<u8>, lays: &[Priced<Lay>]) -> Result<(), AllocError>
    ensures { OnOk result (out.new.items ≡ out.old.items ++ flat_map lay_line lays.now) }
{
    for lay in lays {
        push_lay_line(out, lay)?;
    }
    Ok(())
}

/// Adds the line of a lay.
fn push_lay_line(out: &mut Vec<u8>, lay: &Priced<Lay>) -> Result<(), AllocError>
    ensures { OnOk result (out.new.items ≡ out.old.items ++ lay_line lay.now) }
{
    push_priced_line(out, PlayOrder::Lay(lay.what), lay.price)
}

/// Adds the lines of some tokens.
fn push_token_lines(out: &mut Vec<u8>, tokens: &[Priced<Place>]) -> Result<(), AllocError>
    ensures { OnOk result (out.new.items ≡ out.old.items ++ flat_map token_line tokens.now) }
{
    for token in tokens {
        push_token_line(out, token)?;
    }
    Ok(())
}

/// Adds the line of a token.
fn push_token_line(out: &mut Vec<u8>, token: &Priced<Place>) -> Result<(), AllocError>
    ensures { OnOk result (out.new.items ≡ out.old.items ++ token_line token.now) }
{
    push_priced_line(out, PlayOrder::Token(token.what), token.price)
}

/// Adds the line of an order with its price.
fn push_priced_line(out: &mut Vec<u8>, order: PlayOrder, price: Money) -> Result<(), AllocError>
    ensures { OnOk result (out.new.items ≡ out.old.items ++ priced_line order price) }
{
    print_play_order(out, order)?;
    out.extend_from_slice(GAP)?;
    print_number(out, price)?;
    out.push(b'\n')?;
    Ok(())
}
