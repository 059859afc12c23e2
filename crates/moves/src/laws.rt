//! Laws of the definitions, each the contract of a function that does nothing.
ghost use Rattle.moves.specs.Bids.{LeastBidIsLeast};
ghost use Rattle.moves.specs.ConsentLaws.{OfferedPrivatesAreObeyed, OfferedPrivatesAreTold, OfferedTrainsAreObeyed};
ghost use Rattle.moves.specs.ConsentLaws.{OfferedTrainsAreTold};
ghost use Rattle.moves.specs.Exact.{LaysAreExact, TokensAreExact};
ghost use Rattle.moves.specs.Limits.{PrivatesHaveTheirPrice, SalesAreOfWhatIsHeld, StartsAreAtParValues};
ghost use Rattle.moves.specs.PriceLaws.{OpeningPricesMove, PrivatePricesMove, StockPricesMove, TrainPricesMove};
ghost use Rattle.moves.specs.RowLaws.{OpeningRowsAreRuled, PrivateRowsAreRuled, RowsBeforeAreRuled};
ghost use Rattle.moves.specs.RowLaws.{StandingRowsAreRuled, StockRowsAreRuled, TrainRowsAreRuled};
ghost use Rattle.moves.specs.TurnLaws.{ListedLaysAreObeyed, ListedTokensAreObeyed, OtherLaysAreRefused};
ghost use Rattle.moves.specs.TurnLaws.{OtherTokensAreRefused};

/// A lay is in the list with a price exactly if `try_lay` returns that price.
pub fn lays_are_exact()
    ensures { LaysAreExact }
{
    map_tables::laws::hexes_are_listed_once();
    map_tables::laws::tiles_are_listed_once();
}

/// A place is in the list with a price exactly if `try_token` returns that price.
pub fn tokens_are_exact()
    ensures { TokensAreExact }
{
    map_tables::laws::hexes_are_listed_once();
}

/// The first line of a company's orders may lay exactly the lays listed as its turn begins, at the
/// listed price.
pub fn first_lay_is_by_the_list()
    ensures obeyed { ListedLaysAreObeyed }
    ensures refused { OtherLaysAreRefused }
{
    map_tables::laws::hexes_are_listed_once();
    map_tables::laws::tiles_are_listed_once();
}

/// The first line of a company's orders may place exactly the tokens listed as its turn begins, at
/// the listed price.
pub fn first_token_is_by_the_list()
    ensures obeyed { ListedTokensAreObeyed }
    ensures refused { OtherTokensAreRefused }
{
    map_tables::laws::hexes_are_listed_once();
}

/// If a seat may bid some sum on a private, it may make the lowest bid on it, which is not greater.
pub fn least_bid_is_least()
    ensures { LeastBidIsLeast }
{}

/// A row of an opening or a stock round gives the true outcome of its line, as the next of a seat's
/// turn or as a standing line.
pub fn rows_are_ruled()
    ensures opening { OpeningRowsAreRuled }
    ensures stock { StockRowsAreRuled }
    ensures before { RowsBeforeAreRuled }
    ensures standing { StandingRowsAreRuled }
{}

/// A row of a private or a train gives the true outcome of its order as the first line of a
/// company's orders.
pub fn company_rows_are_ruled()
    ensures privates { PrivateRowsAreRuled }
    ensures trains { TrainRowsAreRuled }
{}

/// Three kinds of orders without rows are refused: to sell more shares than a seat has, to start a
/// company at a sum that is not a par value, and to buy a private for less than half or more than
/// twice its face value.
pub fn beyond_the_rows_is_refused()
    ensures sales { SalesAreOfWhatIsHeld }
    ensures starts { StartsAreAtParValues }
    ensures privates { PrivatesHaveTheirPrice }
{}

/// A row that names an offer is right about it: once that has been made in the round, the row says
/// that the order is obeyed at the same price, and the line is obeyed.
pub fn offered_rows_are_obeyed()
    ensures trains_told { OfferedTrainsAreTold }
    ensures privates_told { OfferedPrivatesAreTold }
    ensures trains { OfferedTrainsAreObeyed }
    ensures privates { OfferedPrivatesAreObeyed }
{}

/// The price of a row that is obeyed is the money that moves by its order.
pub fn prices_move()
    ensures stock { StockPricesMove }
    ensures opening { OpeningPricesMove }
    ensures trains { TrainPricesMove }
    ensures privates { PrivatePricesMove }
{}
