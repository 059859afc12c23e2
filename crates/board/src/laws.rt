//! The laws of the definitions. Each is the contract of a function that does nothing.
ghost use Rattle.board.specs.Example.{WorkedExamples};
ghost use Rattle.board.specs.Homes.{FitsWithoutHomes, HomeKeepsFit, LayKeepsFit, TokenKeepsFit};
ghost use Rattle.board.specs.Stock.{LayKeepsStock};

/// States that tiles and tokens that fit together with the home tokens still to come are accepted
/// as a board.
pub fn fits_without_homes()
    ensures { FitsWithoutHomes }
{}

/// States that a lay by the rules keeps the map state fit, with the home tokens that are still to
/// come.
pub fn lay_keeps_fit()
    ensures { LayKeepsFit }
{}

/// States that a token by the rules keeps the map state fit, with the home tokens that are still to
/// come.
pub fn token_keeps_fit()
    ensures { TokenKeepsFit }
{}

/// States that a home token keeps the map state fit, with the home tokens that are still to come.
pub fn home_keeps_fit()
    ensures { HomeKeepsFit }
{}

/// States that a legal lay never puts more tiles of a number on the map than the game has.
pub fn lay_keeps_stock()
    ensures { LayKeepsStock }
{}

/// States two small examples. A tile of a colour that is not available yet is refused; later it is
/// laid with its stops swapped. A token that costs a dollar more than the company has is refused;
/// with that dollar it is placed.
pub fn worked_examples()
    ensures { WorkedExamples }
{}
