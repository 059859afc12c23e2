//! Orders: what a line of an order file or of a certificate says, and how it is made from the
//! values of its words.
ghost use Rattle.std.specs.Prelude.{◌≡◌, false};
ghost use Rattle.order_grammar.specs.Family.{IsOfAmount, IsOfCertificate, IsOfFile, IsOfOne, IsOfTrains};
ghost use Rattle.order_grammar.specs.Order.{keyword_of_source, order_from, put_if, text_of_source};
ghost use Rattle.order_grammar.specs.declared.keyword.Keyword.TheVariants.{Buy, Lay as LayWord, Offer as OfferWord};
ghost use Rattle.order_grammar.specs.declared.keyword.Keyword.TheVariants.{Train};
ghost use Rattle.order_grammar.specs.declared.order.Trailing.TheVariants.{Nothing};
ghost use Rattle.order_grammar.specs.declared.order.Value.TheVariants.{Number};

use crate::keyword::Keyword;
use crate::name::Name;
use crate::play::PlayOrder;
use arrayvec::ArrayVec;
use map_tables::{Hex, Lay, Place, Rotation, Run, TileNo};
use tables::{Amount, Company, Kind, PLAYERS_MOST, Private, Round};

/// What a line orders or says, in an order file or in the text of a certificate.
#[derive(Drop)]
pub enum Order {
    /// A line without words.
    Blank,
    /// `GAME n n`: the game and the version of the file.
    Game {
        game: u32,
        version: u32,
    },
    /// `PLAYERS name name name ..`: the players, in the order of their seats.
    Players(ArrayVec<Name, PLAYERS_MOST>),
    /// `SHEET name round`: the sheet of a player for a round begins.
    Sheet {
        name: Name,
        round: Round,
    },
    /// `TURN`: the lines for one turn begin.
    Turn,
    /// `COMPANY co`: a company's orders begin.
    Company(Company),
    /// An order of play in few bytes.
    Play(PlayOrder),
    /// `RUN kind place place ..`: run a train of a kind through 2 to 280 places.
    Run {
        kind: Kind,
        run: Run,
    },
    /// `CERTS 1`: the text of a certificate begins, of version 1.
    Certs,
    /// `CERT round co n`: the certificate of a company's best runs in a round begins; they earn
    /// this many dollars.
    Cert {
        round: Round,
        company: Company,
        revenue: Amount,
    },
    /// `CLAIM kind place place ..`: one of those runs: a train of a kind, through 2 to 280 places.
    Claim {
        kind: Kind,
        run: Run,
    },
    /// `MARKS digits`: 1 to 1,000 hexadecimal digits, which are kept only as words of the line.
    Marks,
}

/// A sale to which a player consents before it is ordered.
#[derive(Clone, Copy, Debug, PartialEq, Eq)]
pub enum Offer {
    /// `PRIVATE p co n`: the player's private goes to a company for this many dollars.
    Private {
        private: Private,
        buyer: Company,
        price: Amount,
    },
    /// `TRAIN kind co co n`: a train goes from one company, of which the player is president, to
    /// another for this many dollars.
    Train {
        kind: Kind,
        seller: Company,
        buyer: Company,
        price: Amount,
    },
}

/// Where a share that no seat owns is bought.
#[derive(Clone, Copy, Debug, PartialEq, Eq)]
pub enum ShareSource {
    /// `IPO`: shares that the bank has never sold.
    InitialOffering,
    /// `POOL`: shares that seats have sold to the bank.
    BankPool,
}

/// Where a train is bought.
#[derive(Clone, Copy, Debug, PartialEq, Eq)]
pub enum TrainSource {
    /// `BANK`: from the bank's stock.
    Bank,
    /// `BANK TRADE kind`: from the bank's stock, with a train of this kind traded in.
    Trade(Kind),
    /// `POOL`: a train that was traded in or discarded.
    BankPool,
    /// `co n`: from another company, for this many dollars.
    Company { seller: Company, price: Amount },
}

impl ShareSource {
    /// Returns the word that names it in a line: `IPO` or `POOL`.
    pub fn text(self) -> &'static [u8]
        ensures { result.now ≡ text_of_source self }
    {
        self.keyword().text()
    }

    pub(crate) fn keyword(self) -> Keyword
        ensures { result ≡ keyword_of_source self }
    {
        match self {
            ShareSource::InitialOffering => Keyword::InitialOffering,
            ShareSource::BankPool => Keyword::Pool,
        }
    }
}

/// The value of a word of some class.
#[derive(Clone, Copy)]
pub(crate) enum Value {
    Number(u32),
    Name(Name),
    Round(Round),
    Private(Private),
    Company(Company),
    Kind(Kind),
    Tile(TileNo),
    Hex(Hex),
    Rotation(Rotation),
    Place(Place),
    /// Hexadecimal digits, which are not kept.
    HexDigits,
    /// A literal word is its own value.
    Word(Keyword),
}

impl Default for Value {
    ghost is_default = { λ value. value ≡ Number 0 };

    fn default() -> Value {
        Value::Number(0)
    }
}

/// The most values of an order before the repeated part.
pub(crate) const VALUES_MOST: usize = 5;

/// The values of an order, in the order of its words.
pub(crate) type Values = ArrayVec<Value, VALUES_MOST>;

/// The part of a line that belongs to the class repeated at its end.
#[derive(Drop)]
pub(crate) enum Trailing {
    /// No class is repeated.
    Nothing,
    Names(ArrayVec<Name, PLAYERS_MOST>),
    Places(Run),
}

const _: () = prove!(size_of::<Order>() <= 1024);

impl Order {
    /// Returns an equal order.
    pub fn duplicate(&self) -> Order
        ensures { result ≡ self.now }
    {
        match self {
            Order::Blank => Order::Blank,
            Order::Game { game, version } => Order::Game {
                game: *game,
                version: *version,
            },
            Order::Players(names) => Order::Players(duplicate_names(names)),
            Order::Sheet { name, round } => Order::Sheet {
                name: *name,
                round: *round,
            },
            Order::Turn => Order::Turn,
            Order::Company(company) => Order::Company(*company),
            Order::Play(order) => Order::Play(*order),
            Order::Run { kind, run } => Order::Run {
                kind: *kind,
                run: run.duplicate(),
            },
            Order::Certs => Order::Certs,
            Order::Cert {
                round,
                company,
                revenue,
            } => Order::Cert {
                round: *round,
                company: *company,
                revenue: *revenue,
            },
            Order::Claim { kind, run } => Order::Claim {
                kind: *kind,
                run: run.duplicate(),
            },
            Order::Marks => Order::Marks,
        }
    }
}

/// Overwrites `order` with the order of these parts, if there is one, and returns whether there is.
/// (An order has room for a run, so it is not passed by value.)
pub(crate) fn put_order(
    keyword: Keyword,
    values: &[Value],
    trailing: Trailing,
    order: &mut Order,
) -> bool
    ensures { put_if result order.new ≡ order_from keyword values.now trailing }
{
    match trailing {
        Trailing::Nothing => order_from_plain(keyword, values, order),
        Trailing::Names(names) => match keyword {
            Keyword::Players if values.is_empty() => {
                *order = Order::Players(names);
                true
            }
            _ => false,
        },
        Trailing::Places(run) => match (keyword, values) {
            (Keyword::Run, [Value::Kind(kind)]) => {
                *order = Order::Run { kind: *kind, run };
                true
            }
            (Keyword::Claim, [Value::Kind(kind)]) => {
                *order = Order::Claim { kind: *kind, run };
                true
            }
            _ => false,
        },
    }
}

/// Overwrites `order` with the order of these parts, in which no class is repeated; returns whether
/// there is one.
pub(crate) fn order_from_plain(keyword: Keyword, values: &[Value], order: &mut Order) -> bool
    ensures { put_if result order.new ≡ order_from keyword values.now Nothing }
{
    match keyword {
        Keyword::Game | Keyword::Sheet | Keyword::Turn | Keyword::Company => {
            put_line_of_file(keyword, values, order)
        }
        Keyword::Buy => put_purchase(values, order),
        Keyword::Bid
        | Keyword::Limit
        | Keyword::Par
        | Keyword::Private
        | Keyword::Sell
        | Keyword::Raise => put_amount(keyword, values, order),
        Keyword::Offer => put_offer(values, order),
        Keyword::Exchange | Keyword::Token | Keyword::Run => order_from_one(keyword, values, order),
        Keyword::Lay => put_lay(values, order),
        Keyword::Pay | Keyword::Withhold | Keyword::Discard => put_revenue_or_discard(
            keyword, values, order,
        ),
        Keyword::Train => put_train(values, order),
        Keyword::Certs | Keyword::Cert | Keyword::Marks => {
            put_certificate_line(keyword, values, order)
        }
        Keyword::Players | Keyword::Claim => false,
        Keyword::Best | Keyword::One => false,
        Keyword::InitialOffering | Keyword::Pool | Keyword::Mohawk | Keyword::Swap => false,
        Keyword::Bank | Keyword::Trade => false,
        Keyword::If | Keyword::Price | Keyword::AtLeast => false,
        Keyword::Phase | Keyword::Floated => false,
    }
}

/// Overwrites `order` with the order of these parts, if it is a line of the file or a head of its
/// sheets.
fn put_line_of_file(keyword: Keyword, values: &[Value], order: &mut Order) -> bool
    requires { IsOfFile keyword }
    ensures { put_if result order.new ≡ order_from keyword values.now Nothing }
{
    *order = match (keyword, values) {
        (Keyword::Game, [Value::Number(game), Value::Number(version)]) => Order::Game {
            game: *game,
            version: *version,
        },
        (Keyword::Sheet, [Value::Name(name), Value::Round(round)]) => Order::Sheet {
            name: *name,
            round: *round,
        },
        (Keyword::Turn, []) => Order::Turn,
        (Keyword::Company, [Value::Company(company)]) => Order::Company(*company),
        _ => return false,
    };
    true
}

/// Overwrites `order` with the order to buy that has these values: a private, or a share of a
/// company.
fn put_purchase(values: &[Value], order: &mut Order) -> bool
    ensures { put_if result order.new ≡ order_from Buy values.now Nothing }
{
    *order = Order::Play(match values {
        [Value::Private(private)] => PlayOrder::BuyPrivate(*private),
        [
            Value::Company(company),
            Value::Word(Keyword::InitialOffering),
        ] => {
            PlayOrder::BuyShare {
                company: *company,
                from: ShareSource::InitialOffering,
            }
        }
        [Value::Company(company), Value::Word(Keyword::Pool)] => PlayOrder::BuyShare {
            company: *company,
            from: ShareSource::BankPool,
        },
        _ => return false,
    });
    true
}

/// Overwrites `order` with the order of these parts, if it names an amount of dollars or shares.
fn put_amount(keyword: Keyword, values: &[Value], order: &mut Order) -> bool
    requires { IsOfAmount keyword }
    ensures { put_if result order.new ≡ order_from keyword values.now Nothing }
{
    let [subject, Value::Number(number)] = values else {
        return false;
    };
    let number = *number;
    *order = Order::Play(match (keyword, *subject) {
        (Keyword::Bid, Value::Private(private)) => PlayOrder::Bid {
            private,
            amount: number,
        },
        (Keyword::Limit, Value::Private(private)) => PlayOrder::Limit {
            private,
            amount: number,
        },
        (Keyword::Par, Value::Company(company)) => PlayOrder::Par {
            company,
            price: number,
        },
        (Keyword::Private, Value::Private(private)) => {
            PlayOrder::BuyOwnedPrivate {
                private,
                price: number,
            }
        }
        (Keyword::Sell, Value::Company(company)) => PlayOrder::Sell {
            company,
            shares: number,
        },
        (Keyword::Raise, Value::Company(company)) => PlayOrder::Raise {
            company,
            shares: number,
        },
        _ => return false,
    });
    true
}

/// Overwrites `order` with the order of these parts, if it has one value: what is exchanged, where
/// a token is placed, or BEST.
fn order_from_one(keyword: Keyword, values: &[Value], order: &mut Order) -> bool
    requires { IsOfOne keyword }
    ensures { put_if result order.new ≡ order_from keyword values.now Nothing }
{
    *order = Order::Play(match (keyword, values) {
        (Keyword::Exchange, [Value::Word(Keyword::Mohawk)]) => PlayOrder::ExchangeMohawk,
        (Keyword::Token, [Value::Place(place)]) => PlayOrder::Token(*place),
        (Keyword::Run, [Value::Word(Keyword::Best)]) => PlayOrder::RunBest,
        _ => return false,
    });
    true
}

/// Overwrites `order` with the order to lay a tile that has these values.
fn put_lay(values: &[Value], order: &mut Order) -> bool
    ensures { put_if result order.new ≡ order_from LayWord values.now Nothing }
{
    let (tile, hex, rot, swap) = match values {
        [Value::Tile(tile), Value::Hex(hex), Value::Rotation(rot)] => { (*tile, *hex, *rot, false) }
        [
            Value::Tile(tile),
            Value::Hex(hex),
            Value::Rotation(rot),
            Value::Word(Keyword::Swap),
        ] => { (*tile, *hex, *rot, true) }
        _ => return false,
    };
    *order = Order::Play(PlayOrder::Lay(Lay {
        hex,
        tile,
        rot,
        swap,
    }));
    true
}

/// Overwrites `order` with the order of these parts, if it pays, withholds, or discards a train.
fn put_revenue_or_discard(keyword: Keyword, values: &[Value], order: &mut Order) -> bool
    requires { IsOfTrains keyword }
    ensures { put_if result order.new ≡ order_from keyword values.now Nothing }
{
    *order = Order::Play(match (keyword, values) {
        (Keyword::Pay, []) => PlayOrder::Pay,
        (Keyword::Withhold, []) => PlayOrder::Withhold,
        (Keyword::Discard, [Value::Company(company), Value::Kind(kind)]) => PlayOrder::Discard {
            company: *company,
            kind: *kind,
        },
        _ => return false,
    });
    true
}

/// Overwrites `order` with the order to buy a train that has these values.
fn put_train(values: &[Value], order: &mut Order) -> bool
    ensures { put_if result order.new ≡ order_from Train values.now Nothing }
{
    let (kind, from) = match values {
        [Value::Kind(kind), Value::Word(Keyword::Bank)] => (*kind, TrainSource::Bank),
        [
            Value::Kind(kind),
            Value::Word(Keyword::Bank),
            Value::Word(Keyword::Trade),
            Value::Kind(other),
        ] => { (*kind, TrainSource::Trade(*other)) }
        [Value::Kind(kind), Value::Word(Keyword::Pool)] => (*kind, TrainSource::BankPool),
        [
            Value::Kind(kind),
            Value::Company(seller),
            Value::Number(price),
        ] => {
            let (seller, price) = (*seller, *price);
            (*kind, TrainSource::Company { seller, price })
        }
        _ => return false,
    };
    *order = Order::Play(PlayOrder::BuyTrain { kind, from });
    true
}

/// Overwrites `order` with the consent to a sale that has these values.
fn put_offer(values: &[Value], order: &mut Order) -> bool
    ensures { put_if result order.new ≡ order_from OfferWord values.now Nothing }
{
    let offer = match values {
        [
            Value::Word(Keyword::Private),
            Value::Private(private),
            Value::Company(buyer),
            Value::Number(price),
        ] => {
            Offer::Private {
                private: *private,
                buyer: *buyer,
                price: *price,
            }
        }
        [
            Value::Word(Keyword::Train),
            Value::Kind(kind),
            Value::Company(seller),
            Value::Company(buyer),
            Value::Number(price),
        ] => {
            Offer::Train {
                kind: *kind,
                seller: *seller,
                buyer: *buyer,
                price: *price,
            }
        }
        _ => return false,
    };
    *order = Order::Play(PlayOrder::Offer(offer));
    true
}

/// Overwrites `order` with the line of these parts, if it is one of a certificate's text.
fn put_certificate_line(keyword: Keyword, values: &[Value], order: &mut Order) -> bool
    requires { IsOfCertificate keyword }
    ensures { put_if result order.new ≡ order_from keyword values.now Nothing }
{
    *order = match (keyword, values) {
        (Keyword::Certs, [Value::Word(Keyword::One)]) => Order::Certs,
        (
            Keyword::Cert,
            [
                Value::Round(round),
                Value::Company(company),
                Value::Number(revenue),
            ],
        ) => Order::Cert {
            round: *round,
            company: *company,
            revenue: *revenue,
        },
        (Keyword::Marks, [Value::HexDigits]) => Order::Marks,
        _ => return false,
    };
    true
}

/// Returns equal names.
fn duplicate_names(names: &ArrayVec<Name, PLAYERS_MOST>) -> ArrayVec<Name, PLAYERS_MOST>
    ensures { result.items ≡ names.now.items }
{
    let mut copies = ArrayVec::new();
    for name in names.as_slice() {
        copies.push(*name);
    }
    copies
}
