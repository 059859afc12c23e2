//! What may be done, and the position that the lines assume.

use crate::company_turns::Wanted;
use crate::groups::{Block, Of, put_group, put_label};
use crate::may::May;
use crate::players::Player;
use crate::rims::put_rims;
use crate::sheet_part::put_sheet;
use crate::steps_part::put_company;
use markup::PagePiece::{Name, Round as Named, Words};
use markup::{Tag, Writer, begin_section};
use page_map::Scene;
use picture::PlacedName;
use std::alloc::{AllocError, Global};
use tables::{Company, Round};

/// The position that the lines of an operating round assume.
const AT_ORDERS: &str = ". Each line is shown as the first order of its company's turn, if nobody \
    orders anything before: privates have paid, and the companies before it have had their turns. \
    PAY and WITHHOLD are shown behind a RUN BEST that is the first order.";

/// The position that the lines of another round assume.
const AT_TURN: &str = ". No company operates in it. Each line is shown as the first order of its \
    player's first turn, if nobody orders anything before.";

/// What a line shows.
const OF_A_LINE: &str =
    " After a line comes its price. Lines that the umpire would refuse are left \
    out. Say at the foot of the page who you are, and press lines: they are added to your sheet. \
    Press a line again to take it back. If your browser runs no script here, copy them.";

/// What a line shows besides, if it shows the revenue of best runs.
const OF_RUNS: &str = " After a + comes how much more the company's best runs would earn.";

/// Adds what may be done: the position, the players, the turns and the sheet, given the names on
/// the map. Fails only if allocation fails.
pub(crate) fn put_may(
    alloc: Global,
    out: &mut Writer,
    scene: &Scene,
    may: &May,
    wanted: Wanted,
    names: &[PlacedName],
) -> Result<(), AllocError> {
    begin_section(out, "may", "What may be done", "");
    out.begin(Tag::Paragraph);
    out.within();
    out.put(&[Words("The next round is "), Named(may.round)]);
    let words = match may.round {
        Round::Operating { .. } => AT_ORDERS,
        Round::Opening(_) | Round::Stock(_) => AT_TURN,
    };
    out.put(&[Words(words), Words(OF_A_LINE)]);
    if wanted.best {
        out.put(&[Words(OF_RUNS)]);
    }
    out.end();
    for player in &may.players {
        put_player(alloc, out, may.of(scene, player.seat), player)?;
    }
    for turn in &may.turns {
        put_company(alloc, out, may.of(scene, turn.by.president), turn)?;
    }
    put_missing(out, may, wanted.companies);
    out.end();
    put_rims(alloc, out, scene, may, names)?;
    put_sheet(out, scene, may);
    Ok(())
}

/// Adds each named company that gives no orders.
fn put_missing(out: &mut Writer, may: &May, companies: &[Company]) {
    for &company in companies {
        if !may.turns.iter().any(|turn| turn.by.company == company) {
            let code = Words(company.code());
            let words = [
                code,
                Words(" gives no orders in "),
                Named(may.round),
                Words("."),
            ];
            out.element(Tag::Paragraph, &words);
        }
    }
}

/// Adds what a player may do, apart from their companies: standing lines, and the lines of a turn.
fn put_player(alloc: Global, out: &mut Writer, of: Of, player: &Player) -> Result<(), AllocError> {
    out.begin_as(Tag::Division, "of");
    put_label(out, of, Block::Sheet);
    out.element(Tag::H3, &[Name(of.scene.name(of.seat))]);
    let standing = player.standing.as_slice();
    put_group(alloc, out, of, Block::Sheet, "Standing lines", standing)?;
    put_group(alloc, out, of, Block::Turn, "Turn", player.turn.as_slice())?;
    out.end();
    Ok(())
}
