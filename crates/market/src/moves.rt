//! The square to which a token moves from another: right, left, up, or down by some squares.
ghost use Rattle.std.specs.Prelude.{◌≡◌};
ghost use Rattle.market.specs.Moves.{above, at_left, at_right, below, down_of, fallen, square_left_of, right_of, up_of};

use tables::{Square, square};

/// Returns the square to which a token moves right: the next square of its row, or, at the right
/// end of the row, the one above.
pub fn right(from: Square) -> Square
    ensures { result ≡ right_of from }
{
    square_at_right(from).unwrap_or(up(from))
}

/// Returns the square to which a token moves left: the square before it in its row, or, at the left
/// end of the row, the one below.
pub fn left(from: Square) -> Square
    ensures { result ≡ square_left_of from }
{
    square_at_left(from).unwrap_or(down(from))
}

/// Returns the square to which a token moves up: the same column of the row above.
pub fn up(from: Square) -> Square
    ensures { result ≡ up_of from }
{
    square_above(from).unwrap_or(from)
}

/// Returns the square to which a token moves down: the same column of the row below.
pub fn down(from: Square) -> Square
    ensures { result ≡ down_of from }
{
    square_below(from).unwrap_or(from)
}

/// Returns the square that a token reaches by this many single moves down.
pub fn fall(from: Square, squares: u8) -> Square
    ensures { result ≡ fallen squares from }
{
    let mut at = from;
    for _ in 0..squares {
        at = down(at);
    }
    at
}

/// Returns the next square of the row, if there is one.
fn square_at_right(from: Square) -> Option<Square>
    ensures { result ≡ at_right from }
{
    square(from.row, from.column.checked_add(1)?)
}

/// Returns the square before it in the row, if there is one.
fn square_at_left(from: Square) -> Option<Square>
    ensures { result ≡ at_left from }
{
    square(from.row, from.column.checked_sub(1)?)
}

/// Returns the square of its column in the row above, if there is one.
fn square_above(from: Square) -> Option<Square>
    ensures { result ≡ above from }
{
    square(from.row.checked_sub(1)?, from.column)
}

/// Returns the square of its column in the row below, if there is one.
fn square_below(from: Square) -> Option<Square>
    ensures { result ≡ below from }
{
    square(from.row.checked_add(1)?, from.column)
}
