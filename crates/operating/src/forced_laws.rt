//! The laws of forced purchases. Each is the contract of a function that does nothing.
ghost use Rattle.operating.specs.ForcedLaws.{BankruptcyEndsTurns, PresidentStays, TurnsEndWithTrains};

/// States that whoever presides over a company as its turn begins also does so at its end: no sale
/// to raise money for its train moves its presidency.
pub fn presidents_stay()
    ensures { PresidentStays }
{}

/// States that a bankruptcy in a company's turn is the last event of the turn, if nobody was
/// bankrupt before. The president of that company is bankrupt, and it has no train.
pub fn bankruptcy_ends_turns()
    ensures { BankruptcyEndsTurns }
{}

/// States that after its turn a company with a president owns a train, unless a president is
/// bankrupt or it could not run a 2-train. Before the turn no train may be missing, which holds
/// throughout play.
pub fn turns_end_with_trains()
    ensures { TurnsEndWithTrains }
{}
