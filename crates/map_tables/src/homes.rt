//! Where each company places its home token, and the hexes on which no tile may be laid while a
//! player owns a private.
ghost use Rattle.std.specs.Prelude.{◌≡◌};
ghost use Rattle.map_tables.specs.Home.{hexes_of_private, home_of};

use crate::hex::Hex;
use crate::place::{Stop, StopNumber};
use tables::{Company, Private};

/// Returns where a company's first token is placed.
pub fn home(company: Company) -> Stop
    ensures { result ≡ home_of company }
{
    let hex = match company {
        Company::Pennsylvania => Hex::H12,
        Company::NewYorkCentral => Hex::E19,
        Company::CanadianPacific => Hex::A19,
        Company::BaltimoreOhio => Hex::I15,
        Company::ChesapeakeOhio => Hex::F6,
        Company::Erie => Hex::E11,
        Company::NewHaven => Hex::G19,
        Company::BostonMaine => Hex::E23,
    };
    Stop {
        hex,
        number: StopNumber::First,
    }
}

/// Returns the hexes on which no tile may be laid while a player owns the private.
pub fn private_hexes(private: Private) -> &'static [Hex]
    ensures { result.now ≡ hexes_of_private private }
{
    match private {
        Private::SchuylkillValley => &[Hex::G15],
        Private::ChamplainStLawrence => &[Hex::B20],
        Private::DelawareHudson => &[Hex::F16],
        Private::MohawkHudson => &[Hex::D18],
        Private::CamdenAmboy => &[Hex::H18],
        Private::BaltimoreOhio => &[Hex::I13, Hex::I15],
    }
}
