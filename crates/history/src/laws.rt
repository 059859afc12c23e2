//! Laws of games. Each function does nothing, and its contract is the law.

ghost use Rattle.history.specs.Money.{AllMoneyStays};
ghost use Rattle.history.specs.Laws.{AidKeepsSound, ArrivalIsLast, ArrivalsDiffer, BankruptcyKeepsSound, BidKeepsSound};
ghost use Rattle.history.specs.Laws.{BlockKeepsSound, BlockWithSuccessionKeepsSound, CaIsSoldWithItsGift};
ghost use Rattle.history.specs.Laws.{ClosingKeepsSound, DiscardKeepsSound, DividendKeepsSound, ExchangeKeepsSound};
ghost use Rattle.history.specs.Laws.{FirstIsCheapest, FloatKeepsSound, ForcingKeepsSound, GiftKeepsSound};
ghost use Rattle.history.specs.Laws.{HomeKeepsSound, LayKeepsSound, MoveKeepsSound, OwnersAreParties, PhaseKeepsSound};
ghost use Rattle.history.specs.Laws.{PriceKeepsSound, PrivateKeepsSound, PurchaseKeepsSound, QuietKeepsSound};
ghost use Rattle.history.specs.Laws.{RevenueKeepsSound, RunKeepsSound, RustingKeepsSound, SaleKeepsSound};
ghost use Rattle.history.specs.Laws.{SoundMoneyStays, StartByPurchaseKeepsSound, StartKeepsSound, SuccessionKeepsSound};
ghost use Rattle.history.specs.Laws.{SvIsGivenAway, TokenKeepsSound, TradeKeepsSound, TrainPurchaseKeepsSound};
ghost use Rattle.history.specs.Laws.{WithholdingKeepsSound};
ghost use Rattle.totals.specs.AtEnd.{CashMoves, LastWordIsLast, LaysGrow, QuietSaysTheSame, RulingsAreCounted};
ghost use Rattle.totals.specs.AtEnd.{TokensGrow};
ghost use Rattle.totals.specs.Trains.{AllTrainsStay};

/// States that the last word on something is what the last event says of it, or if that says
/// nothing what was said before.
pub fn last_word_is_last<T>()
    ensures { LastWordIsLast T }
{}

/// States that a payment moves cash from the party that pays to the party that is paid, and changes
/// that of no other.
pub fn cash_moves()
    ensures { CashMoves }
{}

/// States that the bank, the seats at the table and the companies together have 12,000 dollars, as
/// long as money moves only between them.
#[tactic(auto, using(crate::proofs::Money::money_stays))]
pub fn all_money_stays()
    ensures { AllMoneyStays }
{}

/// States that the trains of a kind that the bank has sold are those in the bank pool, those of the
/// companies, and those that have left play.
pub fn all_trains_stay()
    ensures { AllTrainsStay }
{}

/// States that the parties of a sound list together have 12,000 dollars, and that the owner of a
/// private is one of them.
pub fn money_of_sound_lists()
    ensures together { SoundMoneyStays }
    ensures owners { OwnersAreParties }
{}

/// States that a quiet event changes nothing that parties have and own, and leaves SV's price. A
/// quiet event does not mention these, nor the tiles and tokens on the map.
pub fn quiet_says_the_same()
    ensures { QuietSaysTheSame }
{}

/// States that a quiet event keeps a list sound.
#[tactic(auto, using(crate::proofs::NearlySound::quiet_sound))]
pub fn quiet_keeps_sound()
    ensures { QuietKeepsSound }
{}

/// States that a bid that differs from those of other seats on the private keeps a list sound, if
/// the seat has its sum besides its other bids.
#[tactic(auto, using(crate::proofs::Acts::bid_sound))]
pub fn bid_keeps_sound()
    ensures { BidKeepsSound }
{}

/// States that a sale of an unsold private to a seat at the table keeps a list sound, if the seat
/// has the price besides its other bids.
#[tactic(auto, using(crate::proofs::Acts::sale_sound))]
pub fn sale_keeps_sound()
    ensures { SaleKeepsSound }
{}

/// States that a revenue to the owner of a private keeps a list sound.
#[tactic(auto, using(crate::proofs::Acts::revenue_sound))]
pub fn revenue_keeps_sound()
    ensures { RevenueKeepsSound }
{}

/// States that a price that SV may have keeps a list sound, and that a price of 0 followed by the
/// gift of SV to a seat at the table does.
#[tactic(auto, using(crate::proofs::Acts::price_sound, crate::proofs::Acts::gift_sound))]
pub fn price_keeps_sound()
    ensures price { PriceKeepsSound }
    ensures gift { SvIsGivenAway }
{}

/// States that a gift of shares to a seat at the table keeps a list sound, if enough of them are
/// left. So does the sale of CA with its share of PRR.
#[tactic(auto, using(crate::proofs::Gifts::given_sound, crate::proofs::Gifts::ca_sound))]
pub fn gift_keeps_sound()
    ensures gift { GiftKeepsSound }
    ensures ca { CaIsSoldWithItsGift }
{}

/// States that the start of a company by a seat at the table keeps a list sound, whether its
/// president's two shares are a gift or bought.
#[tactic(auto, using(crate::proofs::Starts::started_sound, crate::proofs::Purchases::start_by_purchase_sound))]
pub fn start_keeps_sound()
    ensures gift { StartKeepsSound }
    ensures purchase { StartByPurchaseKeepsSound }
{}

/// States that a purchase of shares of a started company keeps a list sound on two conditions.
/// There are that many, and a seat at the table has their price besides its bids.
pub fn purchase_keeps_sound()
    ensures { PurchaseKeepsSound }
{}

/// States that the exchange of MH for a share of NYC keeps a list sound, if its owner is at the
/// table and there is such a share.
#[tactic(auto, using(crate::proofs::Purchases::exchange_sound))]
pub fn exchange_keeps_sound()
    ensures { ExchangeKeepsSound }
{}

/// States that a presidency that passes to a seat with no fewer shares keeps a list sound.
#[tactic(auto, using(crate::proofs::Blocks::succession_sound))]
pub fn succession_keeps_sound()
    ensures { SuccessionKeepsSound }
{}

/// States that a sale of shares keeps a list sound if the president keeps two; and so does one
/// after which the presidency passes to a seat that has two.
pub fn block_keeps_sound()
    ensures stays { BlockKeepsSound }
    ensures passes { BlockWithSuccessionKeepsSound }
{}

/// States that a float keeps a list sound, if at most four shares are left in the initial offering.
#[tactic(auto, using(crate::proofs::Blocks::float_sound))]
pub fn float_keeps_sound()
    ensures { FloatKeepsSound }
{}

/// States that a token that moves from square to square keeps a list sound.
pub fn move_keeps_sound()
    ensures { MoveKeepsSound }
{}

/// States that a lay that a company can pay for keeps a list sound, if the map state fits with it.
#[tactic(auto, using(crate::proofs::Payments::lay_sound))]
pub fn lay_keeps_sound()
    ensures { LayKeepsSound }
{}

/// States that a token with which the map state fits keeps a list sound: that of a home, and one
/// that a company can pay for.
#[tactic(auto, using(crate::proofs::Payments::home_sound, crate::proofs::Payments::token_sound))]
pub fn token_keeps_sound()
    ensures home { HomeKeepsSound }
    ensures token { TokenKeepsSound }
{}

/// States that a company that withholds what it earned keeps a list sound.
#[tactic(auto, using(crate::proofs::Payments::withholding_sound))]
pub fn withholding_keeps_sound()
    ensures { WithholdingKeepsSound }
{}

/// States that a run keeps a list sound, and so does a dividend of the bank to a party of the game.
#[tactic(auto, using(crate::proofs::TrainActs::run_sound, crate::proofs::TrainActs::dividend_sound))]
pub fn dividend_keeps_sound()
    ensures run { RunKeepsSound }
    ensures dividend { DividendKeepsSound }
{}

/// States that the purchase of an available train keeps a list sound, if the company can pay for
/// it. So does trading in a train of the company.
#[tactic(auto, using(crate::proofs::TrainActs::train_purchase_sound, crate::proofs::TrainActs::trade_sound))]
pub fn train_purchase_keeps_sound()
    ensures purchase { TrainPurchaseKeepsSound }
    ensures trade { TradeKeepsSound }
{}

/// States that the effects of a new phase keep a list sound: that it begins, that trains rust, that
/// privates close, and that companies discard trains.
#[tactic(auto, using(crate::proofs::TrainActs::phase_sound, crate::proofs::TrainActs::rusting_sound, crate::proofs::TrainActs::closing_sound, crate::proofs::TrainActs::discard_sound))]
pub fn phase_keeps_sound()
    ensures phase { PhaseKeepsSound }
    ensures rusting { RustingKeepsSound }
    ensures closing { ClosingKeepsSound }
    ensures discard { DiscardKeepsSound }
{}

/// States that the purchase of a private from the seat that owns it keeps a list sound, if the
/// company can pay for it.
#[tactic(auto, using(crate::proofs::PrivateActs::private_sound))]
pub fn private_keeps_sound()
    ensures { PrivateKeepsSound }
{}

/// States that a forced purchase keeps a list sound: that it is due, and that the president is
/// bankrupt. So does what the president pays of it, if they have the sum besides their bids.
#[tactic(auto, using(crate::proofs::ForcedActs::forcing_sound, crate::proofs::ForcedActs::aid_sound, crate::proofs::ForcedActs::bankruptcy_sound))]
pub fn forcing_keeps_sound()
    ensures due { ForcingKeepsSound }
    ensures aid { AidKeepsSound }
    ensures bankruptcy { BankruptcyKeepsSound }
{}

/// States that a tile that is laid is the last of those laid, and a token that is placed is the
/// last of those placed.
#[tactic(auto, using(totals::proofs::InOrder::lays_grow, totals::proofs::InOrder::tokens_grow))]
pub fn map_state_grows()
    ensures lays { LaysGrow }
    ensures tokens { TokensGrow }
{}

/// States that each ruled line of a seat's sheet adds one to its count for the round, and that a
/// new round restarts the count.
#[tactic(auto, using(totals::proofs::InOrder::rulings_at_end))]
pub fn rulings_are_counted()
    ensures { RulingsAreCounted }
{}

/// States that companies with squares reached them by different events, so that one was earlier. If
/// the last event moves a company to a square, that company arrived last.
#[tactic(auto, using(crate::proofs::Arrivals::arrivals_differ_law, crate::proofs::Arrivals::arrival_at_end))]
pub fn arrivals_differ()
    ensures differ { ArrivalsDiffer }
    ensures last { ArrivalIsLast }
{}

/// States that in a sound game the private that `GameView::cheapest_unsold` returns is a cheapest
/// unsold one, at the bank's prices.
#[tactic(auto, using(crate::proofs::Cheapest::first_is_cheapest_law))]
pub fn first_is_cheapest()
    ensures { FirstIsCheapest }
{}
