//! The laws of the definitions. Each is the contract of a function that does nothing.
ghost use Rattle.std.specs.Prelude.{◌≡◌, ℕ, List};
ghost use Rattle.totals.specs.LookBack.{Game};
ghost use Rattle.stock_round.specs.StockRound.{EndsSoon, IsStockRound};
ghost use Rattle.stock_round.specs.Turn.{stock_rules};
ghost use Rattle.tables.specs.declared.round.Round.{Round};
ghost use Rattle.turns.specs.Acted.{TurnsSayWhoActed};

/// States that a stock round has at most one outcome: the sheets and the game before it determine
/// the game after it.
pub fn one_stock_round()
    ensures { (file : List ℕ) (round : Round) (old : Game) (a : Game) (b : Game)
        → IsStockRound file round old a → IsStockRound file round old b → a ≡ b }
{}

/// States that a stock round has an outcome, whatever the sheets say: its turns end, after at most
/// 513 for each seat.
pub fn stock_round_ends()
    ensures { (file : List ℕ) (round : Round) (old : Game) → EndsSoon file round old }
{}

/// States that a seat acted in its turn exactly if the list of events says so. If it acted, the
/// turn's events name it as the last seat to act; if not, they name nobody.
pub fn stock_turns_say_who_acted()
    ensures { TurnsSayWhoActed stock_rules }
{}
