//! A runner that refuses.
ghost use Rattle.std.specs.Prelude.{◌≡◌, true};

use certificate::{Runner, RunnerFault};
use reach::Network;
use rounds::{PlayFault, play_with};
use sheets::{Sheets, collect};
use std::alloc::{AllocError, Global};
use std::test::Fail;
use tables::{Company, Kind, Money, Round};

/// The opening, the first set and the second stock round of a game in which PRR buys two 2s, and
/// its orders in OR2.1 up to its run.
const BEFORE: &str = "GAME 1830 1
PLAYERS ANN BOB CYD
SHEET ANN PR1
TURN
BUY SV
TURN
BUY MH
SHEET BOB PR1
TURN
BUY CS
TURN
BUY CA
SHEET CYD PR1
TURN
BUY DH
TURN
BUY BOP
SHEET ANN SR1
TURN
PAR PRR 67
TURN
BUY PRR IPO
SHEET BOB SR1
TURN
BUY PRR IPO
SHEET CYD SR1
TURN
BUY PRR IPO
SHEET ANN OR1.1
COMPANY PRR
LAY 57 H10 1
TRAIN 2 BANK
TRAIN 2 BANK
SHEET BOB OR1.1
SHEET CYD OR1.1
SHEET ANN SR2
SHEET BOB SR2
SHEET CYD SR2
SHEET ANN OR2.1
COMPANY PRR
";

/// What is after the run.
const AFTER: &str = "PAY
SHEET BOB OR2.1
SHEET CYD OR2.1
";

/// A runner that refuses every call.
#[derive(Drop)]
pub(crate) struct Refusing;

impl Runner for Refusing {
    ghost may_refuse = { true };

    ghost earns = { λ before position round company trains answer after. after ≡ before };

    fn earn<N: Network>(
        &mut self,
        _network: &N,
        _round: Round,
        _company: Company,
        _trains: &[Kind],
    ) -> Result<Money, RunnerFault> {
        Err(RunnerFault::Refused)
    }
}

/// Returns the order file of the game, with this order to run.
pub(crate) fn file(alloc: Global, run: &str) -> Result<Vec<u8>, AllocError> {
    let mut text = Vec::new(alloc);
    text.extend_from_slice(BEFORE.as_bytes())?;
    text.extend_from_slice(run.as_bytes())?;
    text.extend_from_slice(AFTER.as_bytes())?;
    Ok(text)
}

/// Returns why play of some sheets fails with a runner that refuses; `None` if it succeeds.
fn fault_of(alloc: Global, sheets: &Sheets) -> Option<PlayFault> {
    match play_with(alloc, sheets, &mut Refusing) {
        Ok(_) => None,
        Err(fault) => Some(fault),
    }
}

/// Returns the same of the game with this order to run.
fn fault(alloc: Global, run: &str) -> Result<Option<PlayFault>, Fail> {
    let file = file(alloc, run)?;
    let sheets = collect(alloc, file.as_slice())?;
    Ok(fault_of(alloc, &sheets))
}

#[test]
fn a_refusal_names_its_round_and_company(rt: HostRuntime) -> Result<(), Fail> {
    let round = Round::Operating { set: 2, number: 1 };
    let refused = PlayFault::Refused(round, Company::Pennsylvania);
    assert_eq!(rt; fault(rt.alloc(), "RUN BEST\n")?, Some(refused));
    Ok(())
}

#[test]
fn a_run_that_is_written_out_asks_no_runner(rt: HostRuntime) -> Result<(), Fail> {
    assert_eq!(rt; fault(rt.alloc(), "RUN 2 H12.0 H10.0\n")?, None);
    Ok(())
}
