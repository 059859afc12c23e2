//! What a word of a command line names, in either case.
ghost use Rattle.std.specs.Prelude.{◌≡◌};
ghost use Rattle.desk_moves.specs.Words.{company_named, hex_named, kind_named, names_company, names_kind};

use map_tables::Hex;
use tables::{Company, Kind};

/// Returns the company with this code; `None` if there is none.
pub fn read_company(word: &[u8]) -> Option<Company>
    ensures { result ≡ company_named word.now }
{
    Company::ALL
        .iter()
        .copied()
        .find(|company| names_company(company, word))
}

/// Returns whether a word is a company's code.
fn names_company(company: &Company, word: &[u8]) -> bool
    ensures { result ≡ names_company word.now company.now }
{
    company.code().as_bytes().eq_ignore_ascii_case(word)
}

/// Returns the hex with this name; `None` if the map has none.
pub fn read_hex(word: &[u8]) -> Option<Hex>
    ensures { result ≡ hex_named word.now }
{
    Hex::from_text(word)
}

/// Returns the kind of trains with this code; `None` if there is none.
pub fn read_kind(word: &[u8]) -> Option<Kind>
    ensures { result ≡ kind_named word.now }
{
    Kind::ALL
        .iter()
        .copied()
        .find(|kind| names_kind(kind, word))
}

/// Returns whether a word is the code of a kind of train.
fn names_kind(kind: &Kind, word: &[u8]) -> bool
    ensures { result ≡ names_kind word.now kind.now }
{
    kind.code().as_bytes().eq_ignore_ascii_case(word)
}
