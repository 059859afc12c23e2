//! The events of a game, each as a line of the report.
ghost use Rattle.std.specs.Prelude.{◌≡◌, ◌∷◌, [], List, OnOk, codes, decimal, ℕ};
ghost use Rattle.report.specs.Column.{Adds};
ghost use Rattle.report.specs.Line.{event_line, holder_text, lay_line, line_of, name_of, ruled_line, ruling_words};
ghost use Rattle.report.specs.Line.{text_of_seller, text_of_square, text_of_train_owner};
ghost use Rattle.order_grammar.specs.Order.{text_of_source};
ghost use Rattle.order_grammar.specs.Print.{spaced, text_of_round};
ghost use Rattle.tables.specs.Roster.{code_of_company};

use history::{Event, Holder, PackedRuling, TrainSeller, Verdict};
use map_tables::Lay;
use order_grammar::{ShareSource, print_number, print_round};
use sheets::Sheets;
use std::alloc::AllocError;
use tables::{Amount, Company, Round, Seat, Square, price};

/// The letters of the rows of the stock market.
const ROWS: &[u8] = b"ABCDEFGHIJK";

/// A word of a line.
trait Word: Copy {
    /// Its text.
    ghost text: { Self → List ℕ };

    /// Adds the word.
    fn push_to(self, out: &mut Vec<u8>) -> Result<(), AllocError>
        ensures { OnOk result (Adds out.old out.new (text self)) };
}

impl Word for &str {
    ghost text = { λ word. word.now };

    fn push_to(self, out: &mut Vec<u8>) -> Result<(), AllocError> {
        out.extend_from_slice(self.as_bytes())
    }
}

impl Word for &[u8] {
    ghost text = { λ word. word.now };

    fn push_to(self, out: &mut Vec<u8>) -> Result<(), AllocError> {
        out.extend_from_slice(self)
    }
}

impl Word for u8 {
    ghost text = { decimal };

    fn push_to(self, out: &mut Vec<u8>) -> Result<(), AllocError> {
        print_number(out, self)
    }
}

impl Word for usize {
    ghost text = { decimal };

    fn push_to(self, out: &mut Vec<u8>) -> Result<(), AllocError> {
        print_number(out, self)
    }
}

impl Word for Amount {
    ghost text = { decimal };

    fn push_to(self, out: &mut Vec<u8>) -> Result<(), AllocError> {
        print_number(out, self)
    }
}

impl Word for &Round {
    ghost text = { λ round. text_of_round round.now };

    fn push_to(self, out: &mut Vec<u8>) -> Result<(), AllocError> {
        print_round(out, self)
    }
}

/// A square of the stock market: the letter of its row, and its column. A row that is not on the
/// chart has no letter.
impl Word for Square {
    ghost text = { text_of_square };

    fn push_to(self, out: &mut Vec<u8>) -> Result<(), AllocError> {
        if let Some(letter) = ROWS.get(usize::from(self.row)) {
            out.push(*letter)?;
        }
        print_number(out, self.column)
    }
}

/// Adds a line: its first word, each other word after a space, and its LF.
macro_rules! push_line {
    ($out:ident, $word:expr, $one:expr) => {
        push_one($out, $word, $one)
    };
    ($out:ident, $word:expr, $one:expr, $two:expr) => {
        push_two($out, $word, $one, $two)
    };
    ($out:ident, $word:expr, $one:expr, $two:expr, $three:expr) => {
        push_three($out, $word, $one, $two, $three)
    };
    ($out:ident, $word:expr, $one:expr, $two:expr, $three:expr, $four:expr) => {
        push_four($out, $word, $one, $two, $three, $four)
    };
    ($out:ident, $word:expr, $one:expr, $two:expr, $three:expr, $four:expr, $five:expr) => {
        push_five($out, $word, $one, $two, $three, $four, $five)
    };
}

/// Adds the line of an event. Each row has a kind of event and the words of its line. After the
/// rows are the arms of the other kinds.
macro_rules! push_line_of {
    (
        $out:ident, $event:ident
        $(Event::$kind:ident $fields:tt => $first:expr $(, $word:expr)*;)*
        else { $($other:pat => $line:expr,)* }
    ) => {
        match $event {
            $(Event::$kind $fields => push_line!($out, $first $(, $word)*),)*
            $($other => $line,)*
        }
    };
}

/// Adds an event as its line: its words, separated by single spaces, with its LF.
pub fn push_event(out: &mut Vec<u8>, sheets: &Sheets, event: &Event) -> Result<(), AllocError>
    ensures { OnOk result (Adds out.old out.new (event_line sheets.now event.now)) }
{
    push_line_of! { out, event
        Event::Round(round) => b"ROUND", round;
        Event::Passes(seat) => name(sheets, *seat), "PASSES";
        Event::Left { seat, lines } => b"LEFT", name(sheets, *seat), *lines;
        Event::Sold { private, seat, price } =>
            b"SOLD", private.code(), name(sheets, *seat), *price;
        Event::Bids { private, seat, amount } =>
            b"BIDS", private.code(), name(sheets, *seat), *amount;
        Event::Price { price } => b"PRICE", "SV", *price;
        Event::Revenue { private, owner, amount } =>
            b"REVENUE", private.code(), holder(sheets, *owner), *amount;
        Event::Given { company, seat, shares } =>
            b"GIVEN", company.code(), name(sheets, *seat), *shares;
        Event::Par { company, price } => b"PAR", company.code(), *price;
        Event::President { company, seat } => b"PRESIDENT", company.code(), name(sheets, *seat);
        Event::Bought { company, seat, shares, from, price } =>
            b"BOUGHT", company.code(), name(sheets, *seat), *shares, from.text(), *price;
        Event::Sells { company, seat, shares, price } =>
            b"SELLS", company.code(), name(sheets, *seat), *shares, *price;
        Event::Floats { company, amount } => b"FLOATS", company.code(), *amount;
        Event::Moves { company, square } => b"MOVES", company.code(), price(*square), *square;
        Event::Home { company, place } => b"HOME", company.code(), place.text().as_slice();
        Event::Token { company, place, cost } =>
            b"TOKEN", company.code(), place.text().as_slice(), *cost;
        Event::Withheld { company, amount } => b"WITHHELD", company.code(), *amount;
        Event::Runs { company, revenue } => b"RUNS", company.code(), *revenue;
        Event::Dividend { company, holder: paid, amount } =>
            b"DIVIDEND", company.code(), holder(sheets, *paid), *amount;
        Event::Traded { company, kind } => b"TRADED", company.code(), kind.code();
        Event::Train { company, kind, from, price } =>
            b"TRAIN", company.code(), kind.code(), seller(*from), *price;
        Event::Phase(kind) => b"PHASE", kind.code();
        Event::Rusted { owner, kind } => b"RUSTED", train_owner(*owner), kind.code();
        Event::Discarded { company, kind } => b"DISCARDED", company.code(), kind.code();
        Event::Closed(private) => b"CLOSED", private.code();
        Event::PrivateBought { private, company, price, .. } =>
            b"PRIVATE", private.code(), company.code(), *price;
        Event::Forced(company) => b"FORCED", company.code();
        Event::Aid { seat, company, amount } =>
            b"AID", name(sheets, *seat), company.code(), *amount;
        Event::Bankrupt(seat) => b"BANKRUPT", name(sheets, *seat);
        else {
            Event::Ruled { seat, line, ruling } => push_ruled(out, sheets, *seat, *line, ruling),
            Event::Exchanged { seat, from } => push_exchanged(out, sheets, *seat, *from),
            Event::Laid { company, lay, cost } => push_laid(out, *company, *lay, *cost),
            Event::Broken => out.extend_from_slice(b"BROKEN\n"),
        }
    }
}

/// Adds the line of a word and one more.
fn push_one<A: Word>(out: &mut Vec<u8>, word: &[u8], one: A) -> Result<(), AllocError>
    ensures { OnOk result (Adds out.old out.new
        (line_of word.now (A.text one ∷ []))) }
{
    out.extend_from_slice(word)?;
    push_word(out, one)?;
    push_end(out)
}

/// Adds the line of a word and two more.
fn push_two<A: Word, B: Word>(
    out: &mut Vec<u8>,
    word: &[u8],
    one: A,
    two: B,
) -> Result<(), AllocError>
    ensures { OnOk result (Adds out.old out.new
        (line_of word.now (A.text one ∷ B.text two ∷ []))) }
{
    out.extend_from_slice(word)?;
    push_word(out, one)?;
    push_word(out, two)?;
    push_end(out)
}

/// Adds the line of a word and three more.
fn push_three<A: Word, B: Word, C: Word>(
    out: &mut Vec<u8>,
    word: &[u8],
    one: A,
    two: B,
    three: C,
) -> Result<(), AllocError>
    ensures { OnOk result (Adds out.old out.new
        (line_of word.now (A.text one ∷ B.text two ∷ C.text three ∷ []))) }
{
    out.extend_from_slice(word)?;
    push_word(out, one)?;
    push_word(out, two)?;
    push_word(out, three)?;
    push_end(out)
}

/// Adds the line of a word and four more.
fn push_four<A: Word, B: Word, C: Word, D: Word>(
    out: &mut Vec<u8>,
    word: &[u8],
    one: A,
    two: B,
    three: C,
    four: D,
) -> Result<(), AllocError>
    ensures { OnOk result (Adds out.old out.new
        (line_of word.now (A.text one ∷ B.text two ∷ C.text three ∷ D.text four ∷ []))) }
{
    out.extend_from_slice(word)?;
    push_word(out, one)?;
    push_word(out, two)?;
    push_word(out, three)?;
    push_word(out, four)?;
    push_end(out)
}

/// Adds the line of a word and five more.
fn push_five<A: Word, B: Word, C: Word, D: Word, E: Word>(
    out: &mut Vec<u8>,
    word: &[u8],
    one: A,
    two: B,
    three: C,
    four: D,
    five: E,
) -> Result<(), AllocError>
    ensures { OnOk result (Adds out.old out.new
        (line_of word.now (A.text one ∷ B.text two ∷ C.text three ∷ D.text four ∷ E.text five ∷ []))) }
{
    out.extend_from_slice(word)?;
    push_word(out, one)?;
    push_word(out, two)?;
    push_word(out, three)?;
    push_word(out, four)?;
    push_word(out, five)?;
    push_end(out)
}

/// Adds the line of what became of a line of a seat's sheet.
fn push_ruled(
    out: &mut Vec<u8>,
    sheets: &Sheets,
    seat: Seat,
    line: u32,
    ruling: &PackedRuling,
) -> Result<(), AllocError>
    ensures { OnOk result (Adds out.old out.new (ruled_line sheets.now seat line ruling.now)) }
{
    push_name(out, sheets, seat)?;
    push_word(out, line)?;
    push_ruling(out, ruling)?;
    push_end(out)
}

/// Adds what became of a line, and its order with its condition, if it has one.
fn push_ruling(out: &mut Vec<u8>, ruling: &PackedRuling) -> Result<(), AllocError>
    ensures { OnOk result (Adds out.old out.new (spaced (ruling_words ruling.now))) }
{
    match ruling.verdict() {
        Verdict::Obeyed => {
            out.extend_from_slice(b" OBEYED ")?;
            ruling.print_order(out)
        }
        Verdict::Refused(rule) => {
            push_refused(out, rule.code())?;
            out.push(b' ')?;
            ruling.print_order(out)
        }
        Verdict::Faulty(fault) => push_refused(out, fault.code()),
    }
}

/// Adds that a line is refused, with the code for why.
fn push_refused(out: &mut Vec<u8>, code: &str) -> Result<(), AllocError>
    ensures { OnOk result
        (Adds out.old out.new (spaced (codes "REFUSED" ∷ code.now ∷ []))) }
{
    out.extend_from_slice(b" REFUSED")?;
    push_word(out, code)
}

/// Adds the line of a player's exchange of MH for a share of NYC.
fn push_exchanged(
    out: &mut Vec<u8>,
    sheets: &Sheets,
    seat: Seat,
    from: ShareSource,
) -> Result<(), AllocError>
    ensures { OnOk result (Adds out.old out.new (line_of (codes "EXCHANGED")
        (codes "MH" ∷ name_of sheets.now seat ∷ text_of_source from ∷ []))) }
{
    push_three(out, b"EXCHANGED", "MH", name(sheets, seat), from.text())
}

/// Adds the line of a tile that a company lays.
fn push_laid(out: &mut Vec<u8>, company: Company, lay: Lay, cost: Amount) -> Result<(), AllocError>
    ensures { OnOk result (Adds out.old out.new (lay_line company lay cost)) }
{
    out.extend_from_slice(b"LAID")?;
    push_word(out, company.code())?;
    push_word(out, lay.tile.number())?;
    push_word(out, lay.hex.text().as_slice())?;
    push_word(out, lay.rot.turns())?;
    if lay.swap {
        push_word(out, "SWAP")?;
        push_word(out, cost)?;
        return push_end(out);
    }
    push_word(out, cost)?;
    push_end(out)
}

/// Adds a word after a space.
fn push_word<W: Word>(out: &mut Vec<u8>, word: W) -> Result<(), AllocError>
    ensures { OnOk result (Adds out.old out.new (32 ∷ W.text word)) }
{
    out.push(b' ')?;
    word.push_to(out)
}

/// Adds the LF of a line.
fn push_end(out: &mut Vec<u8>) -> Result<(), AllocError>
    ensures { OnOk result (Adds out.old out.new (10 ∷ [])) }
{
    out.push(b'\n')?;
    Ok(())
}

/// Returns a player's name or a company's code.
pub fn holder<'a>(sheets: &'a Sheets, holder: Holder) -> &'a [u8]
    ensures { result.now ≡ holder_text sheets.now holder }
{
    match holder {
        Holder::Seat(seat) => name(sheets, seat),
        Holder::Company(company) => code(company),
    }
}

/// Returns a company's code.
fn code(company: Company) -> &'static [u8]
    ensures { result.now ≡ code_of_company company }
{
    company.code().as_bytes()
}

/// Returns the word for where a company buys a train: the code of a company that sells it.
fn seller(seller: TrainSeller) -> &'static [u8]
    ensures { result.now ≡ text_of_seller seller }
{
    match seller {
        TrainSeller::Bank => b"BANK",
        TrainSeller::BankPool => b"POOL",
        TrainSeller::Company(company) => code(company),
    }
}

/// Returns a company's code, or the word for the bank pool if there is no owner.
fn train_owner(owner: Option<Company>) -> &'static [u8]
    ensures { result.now ≡ text_of_train_owner owner }
{
    match owner {
        Some(company) => code(company),
        None => b"POOL",
    }
}

/// Adds the name of a seat's player; nothing for an empty seat.
pub(crate) fn push_name(out: &mut Vec<u8>, sheets: &Sheets, seat: Seat) -> Result<(), AllocError>
    ensures { OnOk result (Adds out.old out.new (name_of sheets.now seat)) }
{
    out.extend_from_slice(name(sheets, seat))
}

/// Returns the name of a seat's player; empty for an empty seat.
pub fn name<'a>(sheets: &'a Sheets, seat: Seat) -> &'a [u8]
    ensures { result.now ≡ name_of sheets.now seat }
{
    sheets.name(seat).unwrap_or(&[])
}
