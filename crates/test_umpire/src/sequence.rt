//! The rounds after the bank is broken.

use rounds::{Next, next};
use tables::Round;

#[test]
fn ends_after_a_set(rt: HostRuntime) {
    let first = Round::Operating { set: 2, number: 1 };
    let second = Round::Operating { set: 2, number: 2 };
    assert_eq!(rt; next(first, 2, true, true), Next::Round(second));
    assert_eq!(rt; next(second, 2, true, true), Next::Ended);
    assert_eq!(rt; next(second, 2, true, false), Next::Round(Round::Stock(3)));
}
