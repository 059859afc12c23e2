//! Runs over one border, as the lines of a page.

use history::History;
use map_tables::{Hex, Place, Side, StopNumber};
use markup::Writer;
use page_routes::{Route, Routes, Visit, put_lines};
use std::alloc::{AllocError, Global};
use std::test::Fail;
use tables::{Company, Kind};

/// Where seven lines cross the border between H14 and H16, whose middle is at 780 692: in the order
/// of the runs, 7 apart.
const CROSSINGS: [&str; 7] = [
    "L780 671", "L780 678", "L780 685", "L780 692", "L780 699", "L780 706", "L780 713",
];

/// Returns a place of a run that leaves its hex to the east, or ends there.
fn visit(hex: Hex, stop: Option<StopNumber>, leaves: Option<Side>) -> Visit {
    Visit {
        place: Place { hex, stop },
        value: None,
        leaves,
    }
}

/// Returns a run of a company from H12 through H14 to H16.
fn run_of(alloc: Global, company: Company) -> Result<Route, AllocError> {
    let first = Some(StopNumber::First);
    let east = Some(Side::East);
    let visits = Vec::from_slice(
        alloc,
        &[
            visit(Hex::H12, first, east),
            visit(Hex::H14, None, east),
            visit(Hex::H16, first, None),
        ],
    )?;
    Ok(Route {
        company,
        kind: Kind::Diesel,
        is_best: false,
        visits,
        sum: 20,
    })
}

/// Returns such a run of each company but the last.
fn seven_runs(alloc: Global) -> Result<Routes, AllocError> {
    let mut routes = Vec::new(alloc);
    for company in Company::ALL.iter().take(CROSSINGS.len()) {
        routes.push(run_of(alloc, *company)?)?;
    }
    Ok(Routes {
        round: None,
        routes,
        turned: Vec::new(alloc),
    })
}

/// Returns the page with the lines of these runs.
fn lines_of_seven(alloc: Global) -> Result<Vec<u8>, AllocError> {
    let runs = seven_runs(alloc)?;
    let mut out = Writer::page(alloc);
    put_lines(alloc, &mut out, &History::start(alloc, 3), &runs)?;
    out.finish()
}

/// Returns whether some line of a page crosses that border at each of its lanes.
fn has_all(page: &[u8]) -> bool {
    match str::from_utf8(page) {
        Ok(page) => CROSSINGS.iter().all(|crossing| page.contains(*crossing)),
        Err(_) => false,
    }
}

#[test]
fn seven_runs_over_a_border_have_a_lane_each(rt: HostRuntime) -> Result<(), Fail> {
    let page = lines_of_seven(rt.alloc())?;
    assert!(rt; has_all(page.as_slice()));
    Ok(())
}
