//! The eight companies and the six privates, with their codes, shares, tokens, face values and
//! revenues.
ghost use Rattle.std.specs.Prelude.{◌≡◌, ◌<◌, codes};
ghost use Rattle.tables.specs.Roster.{code_of_company, code_of_private, face_of, index_of_company};
ghost use Rattle.tables.specs.Roster.{index_of_private, letter_of_company};
ghost use Rattle.tables.specs.Roster.{revenue_of, token_price_of, token_supply_of};

use crate::seat::Amount;

/// How many companies there are.
pub const COMPANIES: usize = 8;

/// How many shares a company has.
pub const SHARES: Amount = 10;

/// How many of them the president's certificate stands for.
pub const PRESIDENT_SHARES: u8 = 2;

/// The most shares of a company that the bank pool may hold.
pub const POOL_SHARES_MOST: u8 = 5;

/// How many privates there are.
pub const PRIVATES: usize = 6;

/// How many dollars a bid must be over the face of its private, and over every other bid on it.
pub const BID_STEP: Amount = 5;

/// A value for each company, in roster order: that of a company is at its `index`.
pub type PerCompany<T> = [T; COMPANIES];

/// A value for each private, in roster order: that of a private is at its `index`.
pub type PerPrivate<T> = [T; PRIVATES];

/// A share company, in roster order. The default is the first of them.
#[derive(Clone, Copy, Debug, PartialEq, Eq, Default)]
pub enum Company {
    /// PRR, the Pennsylvania.
    #[default]
    Pennsylvania,
    /// NYC, the New York Central.
    NewYorkCentral,
    /// CPR, the Canadian Pacific.
    CanadianPacific,
    /// BO, the Baltimore & Ohio.
    BaltimoreOhio,
    /// CO, the Chesapeake & Ohio.
    ChesapeakeOhio,
    /// ERIE, the Erie.
    Erie,
    /// NYNH, the New York, New Haven & Hartford.
    NewHaven,
    /// BM, the Boston & Maine.
    BostonMaine,
}

impl Company {
    /// The eight companies, in roster order.
    pub const ALL: PerCompany<Company> = [
        Company::Pennsylvania,
        Company::NewYorkCentral,
        Company::CanadianPacific,
        Company::BaltimoreOhio,
        Company::ChesapeakeOhio,
        Company::Erie,
        Company::NewHaven,
        Company::BostonMaine,
    ];

    /// Returns the code that order sheets and reports use, in upper case.
    pub fn code(self) -> &'static str
        ensures { result.now ≡ code_of_company self }
    {
        match self {
            Company::Pennsylvania => "PRR",
            Company::NewYorkCentral => "NYC",
            Company::CanadianPacific => "CPR",
            Company::BaltimoreOhio => "BO",
            Company::ChesapeakeOhio => "CO",
            Company::Erie => "ERIE",
            Company::NewHaven => "NYNH",
            Company::BostonMaine => "BM",
        }
    }

    /// Returns the letter that stands for its token where the chart or the map is shown.
    pub fn letter(self) -> &'static str
        ensures { result.now ≡ letter_of_company self }
    {
        match self {
            Company::Pennsylvania => "P",
            Company::NewYorkCentral => "N",
            Company::CanadianPacific => "C",
            Company::BaltimoreOhio => "B",
            Company::ChesapeakeOhio => "O",
            Company::Erie => "E",
            Company::NewHaven => "H",
            Company::BostonMaine => "M",
        }
    }

    /// Returns its place in the roster, from 0: its place in `ALL`.
    pub fn index(self) -> usize
        ensures value { result ≡ index_of_company self }
        ensures bound { result < 8 }
    {
        match self {
            Company::Pennsylvania => 0,
            Company::NewYorkCentral => 1,
            Company::CanadianPacific => 2,
            Company::BaltimoreOhio => 3,
            Company::ChesapeakeOhio => 4,
            Company::Erie => 5,
            Company::NewHaven => 6,
            Company::BostonMaine => 7,
        }
    }
}

/// A private company, in roster order, which is also the order of their faces.
#[derive(Clone, Copy, Debug, PartialEq, Eq)]
pub enum Private {
    /// SV, the Schuylkill Valley.
    SchuylkillValley,
    /// CS, the Champlain & St. Lawrence.
    ChamplainStLawrence,
    /// DH, the Delaware & Hudson.
    DelawareHudson,
    /// MH, the Mohawk & Hudson.
    MohawkHudson,
    /// CA, the Camden & Amboy.
    CamdenAmboy,
    /// BOP, the Baltimore & Ohio private.
    BaltimoreOhio,
}

impl Private {
    /// The six privates, in roster order.
    pub const ALL: PerPrivate<Private> = [
        Private::SchuylkillValley,
        Private::ChamplainStLawrence,
        Private::DelawareHudson,
        Private::MohawkHudson,
        Private::CamdenAmboy,
        Private::BaltimoreOhio,
    ];

    /// Returns the code that order sheets and reports use, in upper case.
    pub fn code(self) -> &'static str
        ensures { result.now ≡ code_of_private self }
    {
        match self {
            Private::SchuylkillValley => "SV",
            Private::ChamplainStLawrence => "CS",
            Private::DelawareHudson => "DH",
            Private::MohawkHudson => "MH",
            Private::CamdenAmboy => "CA",
            Private::BaltimoreOhio => "BOP",
        }
    }

    /// Returns its place in the roster, from 0: its place in `ALL`.
    pub fn index(self) -> usize
        ensures value { result ≡ index_of_private self }
        ensures bound { result < 6 }
    {
        match self {
            Private::SchuylkillValley => 0,
            Private::ChamplainStLawrence => 1,
            Private::DelawareHudson => 2,
            Private::MohawkHudson => 3,
            Private::CamdenAmboy => 4,
            Private::BaltimoreOhio => 5,
        }
    }
}

/// Returns the face value of a private, which is its price in the opening unless it has fallen.
pub fn face(private: Private) -> Amount
    ensures { result ≡ face_of private }
{
    match private {
        Private::SchuylkillValley => 20,
        Private::ChamplainStLawrence => 40,
        Private::DelawareHudson => 70,
        Private::MohawkHudson => 110,
        Private::CamdenAmboy => 160,
        Private::BaltimoreOhio => 220,
    }
}

/// Returns what the bank pays the owner of a private, in dollars, once in a round that pays.
pub fn revenue(private: Private) -> Amount
    ensures { result ≡ revenue_of private }
{
    match private {
        Private::SchuylkillValley => 5,
        Private::ChamplainStLawrence => 10,
        Private::DelawareHudson => 15,
        Private::MohawkHudson => 20,
        Private::CamdenAmboy => 25,
        Private::BaltimoreOhio => 30,
    }
}

/// Returns how many tokens a company has, including its home token.
pub fn tokens(company: Company) -> usize
    ensures { result ≡ token_supply_of company }
{
    match company {
        Company::Pennsylvania | Company::NewYorkCentral | Company::CanadianPacific => 4,
        Company::BaltimoreOhio | Company::ChesapeakeOhio | Company::Erie => 3,
        Company::NewHaven | Company::BostonMaine => 2,
    }
}

/// Returns what a company pays for its next token, in dollars, when this many of its tokens lie.
/// The home token is free, the second costs 40 and each later one 100.
pub fn token_price(laid: usize) -> Amount
    ensures { result ≡ token_price_of laid }
{
    match laid {
        0 => 0,
        1 => 40,
        _ => 100,
    }
}
