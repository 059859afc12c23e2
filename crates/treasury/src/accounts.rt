//! The accounts of the bank, the players and the companies, and payments between them.
ghost use Rattle.std.specs.Prelude.{◌≡◌, ◌↔◌, ◌+ℤ◌, FitsSigned, IsErr, OnErr, OnOk, true};
ghost use Rattle.std.specs.Int.{w128};
ghost use Rattle.events.specs.declared.event.Holder.TheVariants as holder;
ghost use Rattle.events.specs.declared.event.Party.TheVariants as party;
ghost use Rattle.totals.specs.LookBack.{IsModerate};
ghost use Rattle.treasury.specs.Accounts.{
  AreAccountsAt,
  AreAccountsOf,
  AreModerate,
  AreModerateForCompanies,
  AreModerateForSeats,
  AreOfCompanies,
  AreOfSeats,
  ArePaid,
  HasAccount,
  IsAdded,
  IsSum,
  cash_in,
  lacks_cash,
};

use history::{GameView, History, Holder, Party};
use tables::{COMPANIES, Company, Money, PLAYERS_MOST, PerCompany, PerSeat, Seat};
use thiserror::Error;

/// The cash of each party of a game, in dollars.
#[derive(Clone, Copy, Debug)]
pub struct Accounts {
    bank: Money,
    seats: PerSeat<Money>,
    companies: PerCompany<Money>,
}

/// A payment was refused: a player or a company has less than the sum.
#[derive(Clone, Copy, Debug, PartialEq, Eq, Drop, Error)]
#[error("the payer has less than the sum")]
pub struct Short;

impl Accounts {
    /// Returns the accounts of a game, read from the totals of its events.
    pub fn of(history: &History) -> Accounts
        ensures accounts { AreAccountsOf history.now result }
        ensures moderate { AreModerate result }
    {
        Accounts::at(&history.now())
    }

    /// Returns the accounts of a view of a game.
    pub fn at(view: &GameView) -> Accounts
        ensures accounts { AreAccountsAt view.now result }
        ensures moderate { AreModerate result }
    {
        Accounts {
            bank: view.cash(Party::Bank),
            seats: cash_of_seats(view),
            companies: cash_of_companies(view),
        }
    }

    /// Returns a party's cash, in dollars; the bank's may be negative. Only the first six seats
    /// have accounts; other seats have 0.
    pub fn cash(&self, party: Party) -> Money
        ensures { result ≡ cash_in self.now party }
    {
        match party {
            Party::Bank => self.bank,
            Party::Holder(Holder::Seat(seat)) => {
                self.seats.get(seat.index()).copied().unwrap_or(0)
            }
            Party::Holder(Holder::Company(company)) => self.companies[company.index()],
        }
    }

    /// Pays a sum of 0 to 1,000,000 dollars from one party to another. The error is `Short` if the
    /// payer is a player or a company and has less; then nothing changes. Money paid to a seat
    /// without an account leaves the accounts.
    pub fn pay(&mut self, from: Party, to: Party, sum: Money) -> Result<(), Short>
        requires sum { IsSum sum }
        requires from_cash { IsModerate (cash_in self.old from) }
        requires to_cash { IsModerate (cash_in self.old to) }
        ensures paid { OnOk result (ArePaid self.old self.new from to sum) }
        ensures short { IsErr result ↔ (lacks_cash self.old from sum ≡ true) }
        ensures unchanged { OnErr result (self.new ≡ self.old) }
    {
        if from != Party::Bank && self.cash(from) < sum {
            return Err(Short);
        }
        self.add(from, -sum);
        self.add(to, sum);
        Ok(())
    }

    /// Adds a change to what a party has, if it has an account.
    fn add(&mut self, party: Party, change: Money)
        requires { HasAccount party → FitsSigned w128 (cash_in self.old party +ℤ change) }
        ensures { IsAdded self.old self.new party change }
    {
        match party {
            Party::Bank => self.add_to_bank(change),
            Party::Holder(holder) => self.add_to_holder(holder, change),
        }
    }

    /// Adds a change to what the bank has.
    fn add_to_bank(&mut self, change: Money)
        requires { FitsSigned w128 (cash_in self.old party.Bank +ℤ change) }
        ensures { IsAdded self.old self.new party.Bank change }
    {
        self.bank += change;
    }

    /// Adds a change to what a player or a company has, if it has an account.
    fn add_to_holder(&mut self, holder: Holder, change: Money)
        requires { let party = party.Holder holder in
            HasAccount party → FitsSigned w128 (cash_in self.old party +ℤ change) }
        ensures { IsAdded self.old self.new (party.Holder holder) change }
    {
        match holder {
            Holder::Seat(seat) => self.add_to_seat(seat, change),
            Holder::Company(company) => self.companies[company.index()] += change,
        }
    }

    /// Adds a change to what a player has, if the seat is one of six.
    fn add_to_seat(&mut self, seat: Seat, change: Money)
        requires { let party = party.Holder (holder.Seat seat) in
            HasAccount party → FitsSigned w128 (cash_in self.old party +ℤ change) }
        ensures { IsAdded self.old self.new (party.Holder (holder.Seat seat)) change }
    {
        let number = seat.index();
        if number >= PLAYERS_MOST {
            return;
        }
        self.seats[number] += change;
    }
}

/// Returns what each seat has, by its number.
fn cash_of_seats(now: &GameView) -> PerSeat<Money>
    ensures cash { AreOfSeats now.now.seats now.now.events result }
    ensures moderate { AreModerateForSeats result }
{
    let mut cash = [0; PLAYERS_MOST];
    for number in 0..PLAYERS_MOST {
        cash[number] = now.cash(Party::of_seat(Seat::at(number)));
    }
    cash
}

/// Returns what each company has, by its place in the roster.
fn cash_of_companies(now: &GameView) -> PerCompany<Money>
    ensures cash { AreOfCompanies now.now.seats now.now.events result }
    ensures moderate { AreModerateForCompanies result }
{
    let mut cash = [0; COMPANIES];
    for (place, company) in Company::ALL.iter().enumerate() {
        cash[place] = now.cash(Party::of_company(*company));
    }
    cash
}
