//! What happened in the last round, in sentences: one for each turn.

use crate::cell_words::put_place;
use crate::told::{Thing, before_sum, doer_of, sum_of, thing_of, verb_of, whose_then};
use desk_cells::before_round;
use history::{Event, Holder, TrainSeller};
use markup::PagePiece::{Count, Hex as Hexed, Name, Number, Words};
use markup::{Tag, Writer, put_token};
use order_grammar::ShareSource;
use page_map::Scene;
use tables::{Money, Round};

/// Adds a sentence for each turn of the last round, and one for those who pass one after another.
/// Lines that were refused are not told.
pub fn put_story(out: &mut Writer, scene: &Scene) {
    let events = scene.history.events();
    let is_operating = matches!(scene.history.now().round(), Some(Round::Operating { .. }));
    let mut whose = None;
    let mut before: Option<(Option<Holder>, bool)> = None;
    for event in events.get(before_round(events)..).unwrap_or(&[]) {
        whose = whose_then(is_operating, whose, event);
        if !verb_of(event).is_empty() {
            let is_pass = matches!(event, Event::Passes(_));
            let subject = if is_pass { None } else { whose };
            if before == Some((subject, is_pass)) {
                out.put(&[Words(", ")]);
            } else {
                if before.is_some() {
                    out.put(&[Words(".")]);
                    out.end();
                }
                begin_turn(out, scene, subject);
            }
            put_thing(out, scene, doer_of(event));
            out.put(&[Words(verb_of(event))]);
            put_thing(out, scene, thing_of(event));
            if let Some(sum) = sum_of(event) {
                out.put(&[Words(before_sum(event)), Number(Money::from(sum))]);
            }
            before = Some((subject, is_pass));
        }
    }
    if before.is_some() {
        out.put(&[Words(".")]);
        out.end();
    }
}

/// Begins the sentence of a turn with whose turn it is, if it is anybody's: a company has its token
/// and its president.
fn begin_turn(out: &mut Writer, scene: &Scene, whose: Option<Holder>) {
    out.begin_as(Tag::Paragraph, "did");
    out.within();
    match whose {
        Some(Holder::Company(company)) => {
            put_token(out, company);
            out.element(Tag::Bold, &[Words(company.code())]);
            if let Some(president) = scene.history.now().president(company) {
                let name = Name(scene.name(president));
                out.put(&[Words(" ("), name, Words(")")]);
            }
            out.put(&[Words(" ")]);
        }
        Some(Holder::Seat(seat)) => {
            out.element(Tag::Bold, &[Name(scene.name(seat))]);
            out.put(&[Words(" ")]);
        }
        None => {}
    }
}

/// Adds what a sentence names.
fn put_thing(out: &mut Writer, scene: &Scene, thing: Thing) {
    match thing {
        Thing::Nothing => {}
        Thing::Party(Holder::Seat(seat)) => out.put(&[Name(scene.name(seat))]),
        Thing::Party(Holder::Company(company)) => out.put(&[Words(company.code())]),
        Thing::Private(private) => out.put(&[Words(private.code())]),
        Thing::PrivateOf(private, seat) => {
            let name = Name(scene.name(seat));
            out.put(&[Words(private.code()), Words(" of "), name]);
        }
        Thing::Shares(shares, company, from) => {
            let pool = match from {
                ShareSource::InitialOffering => "",
                ShareSource::BankPool => " of the pool",
            };
            let shares = Count(usize::from(shares));
            out.put(&[shares, Words(" "), Words(company.code()), Words(pool)]);
        }
        Thing::Tile(lay) => {
            let tile = Number(Money::from(lay.tile.number()));
            let turned = Count(lay.rot.turns());
            out.put(&[tile, Words("/"), turned, Words(" on "), Hexed(lay.hex)]);
        }
        Thing::Stop(place) => put_place(out, "", place),
        Thing::Train(kind) => out.put(&[Words(kind.code())]),
        Thing::TrainFrom(kind, from) => {
            let (of, seller) = match from {
                TrainSeller::Bank => ("", ""),
                TrainSeller::BankPool => (" of the pool", ""),
                TrainSeller::Company(company) => (" of ", company.code()),
            };
            out.put(&[Words(kind.code()), Words(of), Words(seller)]);
        }
        Thing::TrainOf(kind, owner) => {
            let owner = owner.map_or("the pool", |company| company.code());
            out.put(&[Words(owner), Words("'s "), Words(kind.code())]);
        }
    }
}
