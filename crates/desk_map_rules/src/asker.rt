//! A company as the rules of the board see it.
ghost use Rattle.std.specs.Prelude.{◌≡◌, map};
ghost use Rattle.operating.specs.BoardAsker.{asker_of, is_companys, is_players};
ghost use Rattle.operating.specs.Progress.{at_start};
ghost use Rattle.tables.specs.Roster.{privates};
ghost use Rattle.totals.specs.LookBack.{owner_in};

use board::{Asker, TurnStep};
use history::{GameView, Holder, Owners, Party};
use tables::{Company, PerPrivate, Private};

/// Returns a company as the rules of the board see it, at the start of a turn.
pub(crate) fn asker_at(view: &GameView, company: Company) -> Asker
    ensures { result ≡ asker_of view.now company at_start }
{
    let owners = view.owners();
    Asker {
        company,
        cash: view.cash(Party::of_company(company)),
        pointer: TurnStep::Lay,
        lay_used: false,
        dh_laid: false,
        own_privates: of_company(&owners, company),
        player_privates: of_players(&owners),
    }
}

/// Returns which privates a company owns, by their places in the roster.
fn of_company(owners: &Owners, company: Company) -> PerPrivate<bool>
    ensures { result
        ≡ map (λ private. is_companys company (owner_in owners.now private)) privates }
{
    [
        is_companys(company, owners.owner(Private::SchuylkillValley)),
        is_companys(company, owners.owner(Private::ChamplainStLawrence)),
        is_companys(company, owners.owner(Private::DelawareHudson)),
        is_companys(company, owners.owner(Private::MohawkHudson)),
        is_companys(company, owners.owner(Private::CamdenAmboy)),
        is_companys(company, owners.owner(Private::BaltimoreOhio)),
    ]
}

/// Returns which privates players own, by their places in the roster.
fn of_players(owners: &Owners) -> PerPrivate<bool>
    ensures { result ≡ map (λ private. is_players (owner_in owners.now private)) privates }
{
    [
        is_players(owners.owner(Private::SchuylkillValley)),
        is_players(owners.owner(Private::ChamplainStLawrence)),
        is_players(owners.owner(Private::DelawareHudson)),
        is_players(owners.owner(Private::MohawkHudson)),
        is_players(owners.owner(Private::CamdenAmboy)),
        is_players(owners.owner(Private::BaltimoreOhio)),
    ]
}

/// Returns whether an owner is this company.
fn is_companys(company: Company, owner: Option<Holder>) -> bool
    ensures { result ≡ is_companys company owner }
{
    match owner {
        Some(Holder::Company(owner)) => owner == company,
        _ => false,
    }
}

/// Returns whether an owner is a player.
fn is_players(owner: Option<Holder>) -> bool
    ensures { result ≡ is_players owner }
{
    matches!(owner, Some(Holder::Seat(_)))
}
