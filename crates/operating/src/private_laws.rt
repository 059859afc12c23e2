//! A law of privates in a company's turn. It is the contract of a function that does nothing.
ghost use Rattle.operating.specs.PrivateLaws.{ClosedStaysClosed};

/// States that a closed private stays closed in a company's turn: nobody buys it, whatever the
/// sheet orders.
pub fn closed_for_good_in_turns()
    ensures { ClosedStaysClosed }
{}
