//! The home token, which a company places for nothing as its turn begins.
ghost use Rattle.std.specs.Prelude.{◌≡◌, OnOk};
ghost use Rattle.operating.specs.HomeToken.{has_home_token, with_home};
ghost use Rattle.history.specs.Sound.{IsSound};

use board_state::has_token;
use history::{Event, History};
use map_tables::home;
use std::alloc::AllocError;
use tables::Company;

/// Places a company's home token, for nothing, unless the company has a token at its home. The
/// tokens on the map decide that, not whether the company had a turn. In play the two are the same,
/// since a company places its home token first.
pub(crate) fn place_home(history: &mut History, company: Company) -> Result<(), AllocError>
    requires { IsSound history.old }
    ensures seats { OnOk result (history.new.seats ≡ history.old.seats) }
    ensures event { OnOk result (history.new ≡ with_home history.old company) }
    ensures sound { OnOk result (IsSound history.new) }
{
    if has_home_token(history, company) {
        return Ok(());
    }
    history.append(Event::Home {
        company,
        place: home(company).place(),
    })?;
    Ok(())
}

/// Returns whether a token of a company lies at its home.
pub fn has_home_token(history: &History, company: Company) -> bool
    ensures { result ≡ has_home_token history.now.events company }
{
    has_token(history.tokens(), home(company), company)
}
