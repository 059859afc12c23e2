//! The examples at the roots of `order_grammar`, `board`, `best_run`, `sheets`, `moves` and
//! `umpire`, word for word: `./check docs` compares them.

use crate::support::{FIRST, FIRST_REPORT};
use best_run::best;
use board::{Asker, Board, TurnStep};
use history::History;
use map_tables::{Hex, Lay, Rotation, Stop, StopNumber, TileNo};
use moves::least_bid;
use order_grammar::{Order, PlayOrder, print_line, read_line};
use sheets::collect;
use std::test::Fail;
use tables::{Company, Kind, PRIVATES, Private, Round, Seat};
use umpire::{Watched, run};

#[test]
fn order_grammar_prints_a_line(rt: HostRuntime) -> Result<(), Fail> {
    let Ok(line) = read_line(b"run 2 h12.0  H10.0 # x") else {
        panic!(rt; "a fault")
    };
    let text = print_line(rt.alloc(), &line.order.duplicate())?;
    assert_eq!(rt; text.as_slice(), b"RUN 2 H12.0 H10.0".as_slice());
    Ok(())
}

#[test]
fn board_tries_a_lay(rt: HostRuntime) {
    let home = Stop {
        hex: Hex::H12,
        number: StopNumber::First,
    };
    let homes = [(home.place(), Company::Pennsylvania)];
    let Ok(mut board) = Board::of(rt.alloc(), &[], &homes, Kind::Two) else {
        panic!(rt; "refused")
    };
    let lay = Lay {
        hex: Hex::H10,
        tile: TileNo::T57,
        rot: Rotation::One,
        swap: false,
    };
    let asker = Asker {
        company: Company::Pennsylvania,
        cash: 100,
        pointer: TurnStep::Lay,
        lay_used: false,
        dh_laid: false,
        own_privates: [false; PRIVATES],
        player_privates: [false; PRIVATES],
    };
    assert_eq!(rt; board.try_lay(&asker, lay), Ok(0));
    assert_eq!(rt; board.put_lay(lay), Ok(()));
}

#[test]
fn best_run_finds_the_greatest_revenue(rt: HostRuntime) {
    let home = Stop {
        hex: Hex::H12,
        number: StopNumber::First,
    };
    let lay = Lay {
        hex: Hex::H10,
        tile: TileNo::T57,
        rot: Rotation::One,
        swap: false,
    };
    let homes = [(home.place(), Company::Pennsylvania)];
    let Ok(board) = Board::of(rt.alloc(), &[lay], &homes, Kind::Two) else {
        panic!(rt; "refused")
    };
    let Ok(answer) = best(rt.alloc(), &board, Company::Pennsylvania, &[Kind::Two]) else {
        panic!(rt; "memory")
    };
    assert_eq!(rt; answer.claim.revenue, 30);
}

#[test]
fn sheets_collects_a_file(rt: HostRuntime) {
    let file = b"GAME 1830 1\nPLAYERS ANN BOB CYD\nSHEET ANN PR1\nTURN\nBUY SV\n";
    let Ok(sheets) = collect(rt.alloc(), file) else {
        panic!(rt; "refused")
    };
    let Some(sheet) = sheets.sheet(Seat::default(), &Round::Opening(1)) else {
        panic!(rt; "no sheet")
    };
    let mut lines = sheet.lines();
    let (Some(first), Some(second)) = (lines.take_line(), lines.take_line()) else {
        panic!(rt; "too few lines")
    };
    assert!(rt; matches!(first.order(), Ok(Order::Turn)));
    assert!(rt; matches!(second.order(), Ok(Order::Play(PlayOrder::BuyPrivate(_)))));
    assert!(rt; second.number == 2);
    assert!(rt; lines.take_line().is_none());
}

#[test]
fn moves_knows_the_least_bid(rt: HostRuntime) {
    let history = History::start(rt.alloc(), 3);
    assert_eq!(rt; least_bid(&history, Private::ChamplainStLawrence), 45);
}

#[test]
fn umpire_runs_over_bytes(rt: HostRuntime) {
    let mut text = Vec::new(rt.alloc());
    let mut reader = Watched::new(FIRST.as_bytes());
    let mut writer = Watched::new(&mut text);
    assert_eq!(rt; run(rt.alloc(), &mut reader, &mut writer), Ok(()));
    assert_eq!(rt; text.as_slice(), FIRST_REPORT.as_bytes());
}
