//! Tables of balances: what came in to each entry, minus what went out. The bank, the companies and
//! six seats have entries; the entry of a further seat is past the table's end.
ghost use Rattle.std.specs.Prelude.{◌≡◌, ◌==◌, ◌<◌, ◌≤◌, ◌+ℤ◌, ◌-ℤ◌, ◌≤ℤ◌, ◌^◌, ℕ, if◌then◌else◌, length, neg_ℤ, pos};
ghost use Rattle.std.specs.Prelude.{Option};
ghost use Rattle.events.specs.Event.{payment_of, train_moved, transfer_of};
ghost use Rattle.totals.specs.Totals.{HasEntry, HasShares, IsSafe, balance_at, cash_balance, party_entry};
ghost use Rattle.totals.specs.Totals.{train_count_balance};
ghost use Rattle.totals.specs.Totals.{shares_balance, shares_entry, train_balance, train_entry, train_row};
ghost use Rattle.totals.specs.LookBack.{IsModerate, paid_by, paid_to};
ghost use Rattle.totals.specs.Shares.{brought_to, taken_from};
ghost use Rattle.totals.specs.Trains.{any_comes, any_goes, one_if, train_comes, train_goes};

use events::{Event, Holder, Party, Shareholder, TrainPlace};
use tables::{Amount, COMPANIES, Company, KINDS, Kind, Money, PLAYERS_MOST};

/// How many entries a table of cash has: the bank, the companies, and the seats.
pub(crate) const PARTIES: usize = 1 + COMPANIES + PLAYERS_MOST;

/// How many entries a table of shares has: for each company the initial offering, the bank pool,
/// and the seats.
pub(crate) const SHARE_PLACES: usize = COMPANIES * (2 + PLAYERS_MOST);

/// How many places of trains there are: the bank, the bank pool, the companies, and out of play.
pub(crate) const TRAIN_PLACES: usize = 2 + COMPANIES + 1;

/// How many entries a place of trains has: the kinds, and two that stay empty.
const TRAIN_COLUMNS: usize = KINDS + 2;

/// How many entries a table of trains has.
pub(crate) const TRAIN_ENTRIES: usize = TRAIN_PLACES * TRAIN_COLUMNS;

/// Returns a balance after a change, which is a sum of money or its negative.
fn changed(balance: Money, change: Money) -> Money
    requires not_under { neg_ℤ (pos (2 ^ 32)) ≤ℤ change }
    requires not_over { change ≤ℤ pos (2 ^ 32) }
    ensures { IsSafe balance → result ≡ balance +ℤ change }
{
    balance.saturating_add(change)
}

/// Changes an entry of a table, if it has that entry.
fn change(balances: &mut [Money], at: usize, change: Money)
    requires not_under { neg_ℤ (pos (2 ^ 32)) ≤ℤ change }
    requires not_over { change ≤ℤ pos (2 ^ 32) }
    ensures length { length balances.new ≡ length balances.old }
    ensures changed { (entry : ℕ) → entry < length balances.old
        → IsSafe (balance_at balances.old entry) →
        balance_at balances.new entry ≡ balance_at balances.old entry +ℤ
        (if at == entry then change else pos 0) }
{
    if at < balances.len() {
        balances[at] = changed(balances[at], change);
    }
}

/// Moves a sum from one entry of a table to another.
fn move_sum(balances: &mut [Money], from: usize, to: usize, sum: Amount)
    ensures length { length balances.new ≡ length balances.old }
    ensures moved { (entry : ℕ) → entry < length balances.old
        → IsModerate (balance_at balances.old entry) →
        balance_at balances.new entry ≡ (balance_at balances.old entry +ℤ pos
        (if to == entry then sum else 0))
        -ℤ pos (if from == entry then sum else 0) }
{
    change(balances, to, Money::from(sum));
    change(balances, from, -Money::from(sum));
}

/// Returns the entry of a party in a table of cash.
pub(crate) fn entry_of_party(party: Party) -> usize
    ensures { result ≡ party_entry party }
{
    match party {
        Party::Bank => 0,
        Party::Holder(Holder::Company(company)) => 1 + company.index(),
        Party::Holder(Holder::Seat(seat)) => 9 + seat.index(),
    }
}

/// Applies the payment that an event makes.
pub(crate) fn apply_payment(balances: &mut [Money; PARTIES], event: &Event)
    ensures moved { (party : Party) → HasEntry party → IsModerate (cash_balance balances.old party)
        →
        cash_balance balances.new party
        ≡ (cash_balance balances.old party +ℤ pos (paid_to party (payment_of event.now)))
        -ℤ pos (paid_by party (payment_of event.now)) }
    ensures to { (party : Party) → paid_to party (payment_of event.now) < 2 ^ 32 }
    ensures by { (party : Party) → paid_by party (payment_of event.now) < 2 ^ 32 }
{
    if let Some(payment) = event.payment() {
        let from = entry_of_party(payment.from);
        let to = entry_of_party(payment.to);
        move_sum(balances, from, to, payment.amount);
    }
}

/// Returns the entry of the shares of a company at a place in a table of shares.
pub(crate) fn entry_of_shares(company: Company, place: Shareholder) -> usize
    ensures { result ≡ shares_entry company place }
{
    let row = match place {
        Shareholder::InitialOffering => 0,
        Shareholder::BankPool => 1,
        Shareholder::Seat(seat) => 2 + seat.index(),
    };
    COMPANIES * row + company.index()
}

/// Applies the shares that an event moves.
pub(crate) fn apply_transfer(balances: &mut [Money; SHARE_PLACES], event: &Event)
    ensures moved { (company : Company) (place : Shareholder) → HasShares place →
        IsModerate (shares_balance balances.old company place)
        → shares_balance balances.new company place
        ≡ (shares_balance balances.old company place
        +ℤ pos (brought_to company place (transfer_of event.now)))
        -ℤ pos (taken_from company place (transfer_of event.now)) }
    ensures to { (company : Company) (place : Shareholder) →
        brought_to company place (transfer_of event.now) < 2 ^ 32 }
    ensures by { (company : Company) (place : Shareholder) →
        taken_from company place (transfer_of event.now) < 2 ^ 32 }
{
    if let Some(transfer) = event.transfer() {
        let from = entry_of_shares(transfer.company, transfer.from);
        let to = entry_of_shares(transfer.company, transfer.to);
        move_sum(balances, from, to, Amount::from(transfer.shares));
    }
}

/// Returns the row of a place in a table of trains. It is also the place's entry in the table of
/// numbers of trains.
pub(crate) fn row_of_trains(place: TrainPlace) -> usize
    ensures row { result ≡ train_row place }
    ensures within { result < 11 }
{
    match place {
        TrainPlace::Bank => 0,
        TrainPlace::BankPool => 1,
        TrainPlace::Company(company) => 2 + company.index(),
        TrainPlace::OutOfPlay => 10,
    }
}

/// Returns the entry of the trains of a kind at a place in a table of trains.
pub(crate) fn entry_of_train(place: TrainPlace, kind: Kind) -> usize
    ensures entry { result ≡ train_entry place kind }
    ensures within { result < 88 }
{
    TRAIN_COLUMNS * row_of_trains(place) + kind.index()
}

/// Applies the train that an event moves.
pub(crate) fn apply_train(balances: &mut [Money; TRAIN_ENTRIES], event: &Event)
    ensures { (place : TrainPlace) (kind : Kind) → IsModerate
        (train_balance balances.old place kind) →
        train_balance balances.new place kind
        ≡ (train_balance balances.old place kind
        +ℤ pos (one_if (train_comes place kind (train_moved event.now))))
        -ℤ pos (one_if (train_goes place kind (train_moved event.now))) }
{
    if let Some(train) = event.train() {
        let from = entry_of_train(train.from, train.kind);
        let to = entry_of_train(train.to, train.kind);
        move_sum(balances, from, to, 1);
    }
}

/// Applies the train that an event moves, in the table of how many trains each place has.
pub(crate) fn apply_train_owner(balances: &mut [Money; TRAIN_PLACES], event: &Event)
    ensures { (owner : Option Company) → IsModerate (train_count_balance balances.old owner) →
        train_count_balance balances.new owner
        ≡ (train_count_balance balances.old owner
        +ℤ pos (one_if (any_comes owner (train_moved event.now))))
        -ℤ pos (one_if (any_goes owner (train_moved event.now))) }
{
    if let Some(train) = event.train() {
        let from = row_of_trains(train.from);
        let to = row_of_trains(train.to);
        move_sum(balances, from, to, 1);
    }
}
