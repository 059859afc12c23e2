//! A law of what a president pays. It is the contract of a function that does nothing.
ghost use Rattle.forced_purchase.specs.ForcedLaws.{AidIsWhatLacks, NoAidWithoutLack};

/// States that a president pays what the company lacks for its train and no more. Then the company
/// has exactly the price. If it lacks nothing, the president pays nothing.
pub fn aid_is_what_lacks()
    ensures lack { AidIsWhatLacks }
    ensures none { NoAidWithoutLack }
{}
