//! A law of the definitions of the best runs. It is the contract of a function that does nothing.
ghost use Rattle.operating.specs.BestLaws.{BestEarnsNoLess};

/// States that RUN BEST earns a company at least as much as any RUN lines that its president could
/// have written in its place.
pub fn best_earns_no_less()
    ensures { BestEarnsNoLess }
{}
