//! The table of the forms of lines, and how a line's words are read by it.
ghost use Rattle.std.specs.Prelude.{◌≡◌, ◌≤◌, IsTrue, map};
ghost use Rattle.std.specs.List.{list_all};
ghost use Rattle.order_grammar.specs.Form.{
  forms,
  nearer,
  order_of_values,
  put_reading,
  rows_reading,
  run_reading,
  trailing_reading,
  values_by_row,
  words_reading,
};
ghost use Rattle.order_grammar.specs.Row.{AreRead, has_forms, has_room, is_short_row};
ghost use Rattle.order_grammar.specs.Row.{names_reading, row_of_form, rows_of, rows_with};
ghost use Rattle.order_grammar.specs.Words.{raised, texts_of};
ghost use Rattle.order_grammar.specs.declared.form.TrailingClass.TheVariants.{Nothing};

use crate::class::{Class, Reading};
use crate::fault::Fault;
use crate::keyword::Keyword;
use crate::name::Name;
use crate::order::{Order, Trailing, Values, order_from_plain, put_order};
use crate::words::Words;
use arrayvec::ArrayVec;
use map_tables::{Place, Run};
use tables::{PLAYERS_LEAST, PLAYERS_MOST};

/// A form of line: its first word, the classes of the words after it, and the class repeated at the
/// end.
pub(crate) struct Form {
    pub(crate) keyword: Keyword,
    pub(crate) classes: &'static [Class],
    pub(crate) trailing_class: TrailingClass,
}

/// A class repeated at the end of a form, with its least and its greatest number.
#[derive(Clone, Copy)]
pub(crate) enum TrailingClass {
    Nothing,
    Names { least: usize, most: usize },
    /// The places of a run.
    Places,
}

/// Which forms a line may have.
#[derive(Clone, Copy)]
pub(crate) enum Grammar {
    /// Those of an order file: all but CERTS and MARKS.
    OrderFile,
    /// Those of orders, which may have a condition.
    Play,
    /// Those of the text of a certificate: CERT, CLAIM, CERTS and MARKS.
    Certificate,
}

impl Grammar {
    /// Returns the forms whose first word is a keyword.
    fn forms(self, keyword: Keyword) -> &'static [Form]
        ensures rows { map row_of_form result.now ≡ rows_with keyword (rows_of self) }
        ensures short { IsTrue (list_all is_short_row (map row_of_form result.now)) }
    {
        if self.has(keyword) {
            forms_with(keyword)
        } else {
            &[]
        }
    }

    /// Returns whether it has the forms whose first word is a keyword. It has either all or none of
    /// them.
    fn has(self, keyword: Keyword) -> bool
        ensures { result ≡ has_forms self keyword }
    {
        match self {
            Grammar::OrderFile => match keyword {
                Keyword::Certs | Keyword::Marks => false,
                _ => true,
            },
            Grammar::Play => match keyword {
                Keyword::Game
                | Keyword::Players
                | Keyword::Sheet
                | Keyword::Turn
                | Keyword::Company
                | Keyword::Cert
                | Keyword::Claim
                | Keyword::Certs
                | Keyword::Marks => false,
                _ => true,
            },
            Grammar::Certificate => match keyword {
                Keyword::Cert | Keyword::Claim | Keyword::Certs | Keyword::Marks => true,
                _ => false,
            },
        }
    }
}

/// A form: its first word, the classes of the words after it, and after a semicolon the class that
/// is repeated at the end.
macro_rules! form {
    ($keyword:ident) => { form!($keyword: ; TrailingClass::Nothing) };
    ($keyword:ident: $($class:expr),+) => { form!($keyword: $($class),+; TrailingClass::Nothing) };
    ($keyword:ident: $($class:expr),*; $trailing_class:expr) => {
        Form {
            keyword: Keyword::$keyword,
            classes: &[$($class),*],
            trailing_class: $trailing_class,
        }
    };
}

/// Returns all forms whose first word is a keyword. In order: the lines of a file and the heads of
/// its parts, orders, CERT and CLAIM, and then the lines that only a certificate's text has. A line
/// spells an order if its words fit a form.
fn forms_with(keyword: Keyword) -> &'static [Form]
    ensures rows { map row_of_form result.now ≡ rows_with keyword forms }
    ensures short { IsTrue (list_all is_short_row (map row_of_form result.now)) }
{
    match keyword {
        Keyword::Game => &[form!(Game: Class::Number, Class::Number)],
        Keyword::Players => &[
            form!(Players: ; TrailingClass::Names { least: PLAYERS_LEAST, most: PLAYERS_MOST }),
        ],
        Keyword::Sheet => &[form!(Sheet: Class::Name, Class::Round)],
        Keyword::Turn => &[form!(Turn)],
        Keyword::Company => &[form!(Company: Class::Company)],
        Keyword::Buy => &[
            form!(Buy: Class::Private),
            form!(Buy: Class::Company, Class::Word(Keyword::InitialOffering)),
            form!(Buy: Class::Company, Class::Word(Keyword::Pool)),
        ],
        Keyword::Bid => &[form!(Bid: Class::Private, Class::Number)],
        Keyword::Limit => &[form!(Limit: Class::Private, Class::Number)],
        Keyword::Par => &[form!(Par: Class::Company, Class::Number)],
        Keyword::Sell => &[form!(Sell: Class::Company, Class::Number)],
        Keyword::Exchange => &[form!(Exchange: Class::Word(Keyword::Mohawk))],
        Keyword::Lay => &[
            form!(Lay: Class::Tile, Class::Hex, Class::Rotation),
            form!(Lay: Class::Tile, Class::Hex, Class::Rotation, Class::Word(Keyword::Swap)),
        ],
        Keyword::Token => &[form!(Token: Class::Place)],
        Keyword::Run => &[
            form!(Run: Class::Kind; TrailingClass::Places),
            form!(Run: Class::Word(Keyword::Best)),
        ],
        Keyword::Pay => &[form!(Pay)],
        Keyword::Withhold => &[form!(Withhold)],
        Keyword::Train => &[
            form!(Train: Class::Kind, Class::Word(Keyword::Bank)),
            form!(Train: Class::Kind, Class::Word(Keyword::Bank), Class::Word(Keyword::Trade),
                Class::Kind),
            form!(Train: Class::Kind, Class::Word(Keyword::Pool)),
            form!(Train: Class::Kind, Class::Company, Class::Number),
        ],
        Keyword::Discard => &[form!(Discard: Class::Company, Class::Kind)],
        Keyword::Private => &[form!(Private: Class::Private, Class::Number)],
        Keyword::Raise => &[form!(Raise: Class::Company, Class::Number)],
        Keyword::Offer => &[
            form!(Offer: Class::Word(Keyword::Private), Class::Private, Class::Company,
                Class::Number),
            form!(Offer: Class::Word(Keyword::Train), Class::Kind, Class::Company, Class::Company,
                Class::Number),
        ],
        Keyword::Cert => &[form!(Cert: Class::Round, Class::Company, Class::Number)],
        Keyword::Claim => &[form!(Claim: Class::Kind; TrailingClass::Places)],
        Keyword::Certs => &[form!(Certs: Class::Word(Keyword::One))],
        Keyword::Marks => &[form!(Marks: Class::HexDigits)],
        _ => &[],
    }
}

/// Overwrites `order` with the order that the words of a line spell. The error says why they spell
/// none: the fault nearest to an order, over the forms of a grammar.
pub(crate) fn read_order(grammar: Grammar, words: &Words, order: &mut Order) -> Result<(), Fault>
    ensures { put_reading result order.new
        ≡ words_reading (rows_of grammar) (texts_of words.now) }
{
    let mut rest = words.duplicate();
    let Some(first) = rest.next() else {
        *order = Order::Blank;
        return Ok(());
    };
    read_nearest(grammar, first.text, &rest, order)
}

/// Overwrites `order` with the order that a first word and the words after it spell. The error says
/// why they spell none.
pub(crate) fn read_nearest(
    grammar: Grammar,
    first: &[u8],
    rest: &Words,
    order: &mut Order,
) -> Result<(), Fault>
    ensures { put_reading result order.new
        ≡ rows_reading (rows_of grammar) (raised first.now) (texts_of rest.now) }
{
    let Some(keyword) = Keyword::of_word(first) else {
        return Err(Fault::UnknownWord);
    };
    // Forms with another first word are never nearer.
    let forms = grammar.forms(keyword);
    let mut nearest = Fault::UnknownWord;
    for form in forms {
        match form.read(rest, order) {
            Ok(()) => return Ok(()),
            Err(fault) => nearest = nearer(nearest, fault),
        }
    }
    Err(nearest)
}

/// Returns the fault that is nearer to an order; the first if both are equally near.
fn nearer(first: Fault, second: Fault) -> Fault
    ensures { Err result ≡ nearer (Err first) (Err second) }
{
    match (first, second) {
        (Fault::NumberTooLarge, _) | (_, Fault::NumberTooLarge) => Fault::NumberTooLarge,
        (Fault::WrongWords, _) | (_, Fault::WrongWords) => Fault::WrongWords,
        _ => first,
    }
}

/// What a line has between its first word and the repeated part.
#[derive(Drop)]
pub(crate) struct Prefix {
    /// The values of its words.
    pub(crate) values: Values,
    /// Whether one of them is a number that is too large, which has no value.
    pub(crate) too_large: bool,
}

impl Form {
    /// Overwrites `order` with the order that the words after its first word spell by this form.
    /// The error is `WrongWords` if they do not fit, and `NumberTooLarge` if only numbers do not.
    fn read(&self, rest: &Words, order: &mut Order) -> Result<(), Fault>
        requires { IsTrue (is_short_row (row_of_form self.now)) }
        ensures { let row = row_of_form self.now in
            put_reading result order.new
            ≡ order_of_values row.keyword (values_by_row row (texts_of rest.now)) }
    {
        match self.trailing_class {
            TrailingClass::Nothing => self.read_plain(rest, order),
            _ => self.read_with_trailing(rest, order),
        }
    }

    /// Reads words as texts of the form's classes, and takes them off `rest`; `None` if they do not
    /// fit.
    fn read_values(&self, rest: &mut Words) -> Option<Prefix>
        requires { IsTrue (is_short_row (row_of_form self.now)) }
        ensures { AreRead (row_of_form self.now) (texts_of rest.old) (texts_of rest.new) result }
    {
        let mut values = Values::new();
        let mut too_large = false;
        for class in self.classes {
            let Some(word) = rest.next() else {
                return None;
            };
            match class.read(word.text) {
                Reading::Wrong => return None,
                Reading::TooLarge => too_large = true,
                Reading::Value(value) => values.push(value),
            }
        }
        Some(Prefix { values, too_large })
    }

    /// Overwrites `order` with the order that words spell by a form in which no class is repeated.
    fn read_plain(&self, words: &Words, order: &mut Order) -> Result<(), Fault>
        requires short { IsTrue (is_short_row (row_of_form self.now)) }
        requires plain { self.now.trailing_class ≡ Nothing }
        ensures { let row = row_of_form self.now in
            put_reading result order.new
            ≡ order_of_values row.keyword (values_by_row row (texts_of words.now)) }
    {
        let mut rest = words.duplicate();
        let Some(prefix) = self.read_values(&mut rest) else {
            return Err(Fault::WrongWords);
        };
        if rest.next().is_some() {
            return Err(Fault::WrongWords);
        }
        if prefix.too_large {
            return Err(Fault::NumberTooLarge);
        }
        if order_from_plain(self.keyword, prefix.values.as_slice(), order) {
            Ok(())
        } else {
            Err(Fault::WrongWords)
        }
    }

    /// Overwrites `order` with the order that words spell by a form. Only this function has room
    /// for the repeated part, so that other forms do not pay for it.
    #[inline(never)]
    fn read_with_trailing(&self, words: &Words, order: &mut Order) -> Result<(), Fault>
        requires { IsTrue (is_short_row (row_of_form self.now)) }
        ensures { let row = row_of_form self.now in
            put_reading result order.new
            ≡ order_of_values row.keyword (values_by_row row (texts_of words.now)) }
    {
        let mut rest = words.duplicate();
        let Some(prefix) = self.read_values(&mut rest) else {
            return Err(Fault::WrongWords);
        };
        let Some(trailing) = self.trailing_class.read_trailing(&rest) else {
            return Err(Fault::WrongWords);
        };
        if prefix.too_large {
            return Err(Fault::NumberTooLarge);
        }
        if put_order(self.keyword, prefix.values.as_slice(), trailing, order) {
            Ok(())
        } else {
            Err(Fault::WrongWords)
        }
    }
}

impl TrailingClass {
    /// Reads words as those of this class; `None` if they do not fit.
    fn read_trailing(self, words: &Words) -> Option<Trailing>
        requires { IsTrue (has_room self) }
        ensures { result ≡ trailing_reading self (texts_of words.now) }
    {
        match self {
            TrailingClass::Nothing => {
                let mut rest = words.duplicate();
                match rest.next() {
                    Some(_) => None,
                    None => Some(Trailing::Nothing),
                }
            }
            TrailingClass::Names { least, most } => Some(Trailing::Names(read_names(
                words, least, most,
            )?)),
            TrailingClass::Places => Some(Trailing::Places(read_run(words)?)),
        }
    }
}

/// Reads words as names; `None` if one is not a name, or there are too few or too many.
fn read_names(words: &Words, least: usize, most: usize) -> Option<ArrayVec<Name, PLAYERS_MOST>>
    requires { most ≤ 6 }
    ensures { result ≡ names_reading least most (texts_of words.now) }
{
    let mut rest = words.duplicate();
    let mut names = ArrayVec::new();
    while let Some(word) = rest.next() {
        if names.len() == most {
            return None;
        }
        names.push(Name::from_word(word.text)?);
    }
    if names.len() < least {
        return None;
    }
    Some(names)
}

/// Reads words as the places of a run; `None` if one is not a place, or there are too few or too
/// many.
fn read_run(words: &Words) -> Option<Run>
    ensures { result ≡ run_reading (texts_of words.now) }
{
    let mut rest = words.duplicate();
    let mut places = ArrayVec::new();
    while let Some(word) = rest.next() {
        if places.is_full() {
            return None;
        }
        places.push(Place::from_text(word.text)?);
    }
    Run::from_places(places)
}
