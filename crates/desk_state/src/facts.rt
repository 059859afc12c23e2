//! Facts as JSON: the members of an object, and how they are written. Each form of a fact is an
//! impl of `Serialize`, so that lists and objects are written as they are read from the game.
ghost use Rattle.std.specs.Prelude.{◌≡◌, ◌∷◌, ◌++◌, [], IfOk, List, Some, ℕ};
ghost use Rattle.serde.specs.Event.{Log};
ghost use Rattle.serde_json.specs.Sent.{IsTextOf};

use desk_base::{Piece, push};
use serde::{Described, Serialize, Serializer};
use std::alloc::{AllocError, Global};
use std::str;
use tables::{Amount, Company, Kind, Money, Private, Round, Square};

/// The message for a failed allocation.
pub(crate) const MEMORY: &str = "an allocation failed";

/// The form of the facts, under its name. It changes whenever a member is removed or changes its
/// meaning.
pub(crate) const FORM: (&str, Fact) = ("form", Fact::Number(1));

/// A fact that an object has.
#[derive(Clone, Copy)]
pub(crate) enum Fact<'a> {
    /// There is none.
    Nothing,
    /// A name, a code, a round or a square, in ASCII.
    Text(Piece<'a>),
    /// A sum in dollars, or how many there are.
    Number(Money),
    /// True or false.
    Flag(bool),
}

impl<'a> From<&'a [u8]> for Fact<'a> {
    fn from(name: &'a [u8]) -> Fact<'a> {
        Fact::Text(Piece::Bytes(name))
    }
}

impl<'a> From<&'a str> for Fact<'a> {
    fn from(word: &'a str) -> Fact<'a> {
        Fact::Text(Piece::Words(word))
    }
}

impl<'a> From<Company> for Fact<'a> {
    fn from(company: Company) -> Fact<'a> {
        Fact::Text(Piece::Words(company.code()))
    }
}

impl<'a> From<Private> for Fact<'a> {
    fn from(private: Private) -> Fact<'a> {
        Fact::Text(Piece::Words(private.code()))
    }
}

impl<'a> From<Kind> for Fact<'a> {
    fn from(kind: Kind) -> Fact<'a> {
        Fact::Text(Piece::Words(kind.code()))
    }
}

impl<'a> From<Round> for Fact<'a> {
    fn from(round: Round) -> Fact<'a> {
        Fact::Text(Piece::Round(round))
    }
}

impl<'a> From<Square> for Fact<'a> {
    fn from(square: Square) -> Fact<'a> {
        Fact::Text(Piece::Square(square))
    }
}

impl<'a> From<Money> for Fact<'a> {
    fn from(number: Money) -> Fact<'a> {
        Fact::Number(number)
    }
}

impl<'a> From<Amount> for Fact<'a> {
    fn from(amount: Amount) -> Fact<'a> {
        Fact::Number(Money::from(amount))
    }
}

impl<'a> From<bool> for Fact<'a> {
    fn from(flag: bool) -> Fact<'a> {
        Fact::Flag(flag)
    }
}

impl<'a> From<usize> for Fact<'a> {
    fn from(count: usize) -> Fact<'a> {
        Fact::Number(count as Money)
    }
}

/// A fact as it is written.
#[derive(Drop)]
pub(crate) struct Written<'a> {
    pub(crate) alloc: Global,
    pub(crate) fact: Fact<'a>,
}

impl Described for Written<'_> {}

impl Serialize for Written<'_> {
    fn serialize<S: Serializer>(&self, out: &mut S) -> Result<(), S::Error> {
        match self.fact {
            Fact::Nothing => out.unit(),
            Fact::Number(number) => out.i128(number),
            Fact::Flag(flag) => out.bool(flag),
            Fact::Text(piece) => {
                let mut text = Vec::new(self.alloc);
                if push(&mut text, &[piece]).is_err() {
                    return Err(out.custom(MEMORY));
                }
                out.str(str::from_utf8(text.as_slice()).unwrap_or(""))
            }
        }
    }
}

/// An object of facts, each under its name.
#[derive(Drop)]
pub(crate) struct Object<'a> {
    pub(crate) alloc: Global,
    pub(crate) facts: &'a [(&'static str, Fact<'a>)],
}

impl Described for Object<'_> {}

impl Serialize for Object<'_> {
    fn serialize<S: Serializer>(&self, out: &mut S) -> Result<(), S::Error> {
        out.begin_map(None)?;
        for (name, fact) in self.facts {
            out.key(name)?;
            Written {
                alloc: self.alloc,
                fact: *fact,
            }
            .serialize(out)?;
        }
        out.end_map()
    }
}

/// Returns a value as a line of JSON. JSON can express every fact, so it fails only if allocation
/// fails.
pub(crate) fn json_line<T: Serialize>(alloc: Global, value: &T) -> Result<Vec<u8>, AllocError>
    ensures { IfOk result (λ text. (log : Log) × (json : List ℕ) × T.writes value.now (Some []) log
        × IsTextOf log json × (text.items ≡ json ++ 10 ∷ [])) }
{
    let Ok(mut text) = serde_json::to_vec(alloc, value) else {
        // An allocation failed: passed on.
        return Err(AllocError);
    };
    text.push(b'\n')?;
    Ok(text)
}
