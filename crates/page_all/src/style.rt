//! The style of the page of all rounds, to follow that of all pages.

use crate::lines::LINE;
use crate::replayed::Replayed;
use markup::PagePiece::{Count, Words};
use markup::{Writer, livery_of};
use replay::put_if_shown;
use tables::Company;

/// The style of the buttons and tables.
pub(crate) const STYLE_OF_BUTTONS: &str = "\
    input[type=radio]{position:fixed;top:0;left:0;opacity:0}\n\
    h1 a{color:inherit}\
    section,table,li{scroll-margin-top:96px}\n\
    .rounds{display:flex;align-items:flex-end;gap:6px;margin:0;position:sticky;top:0;z-index:1;\
    background:var(--paper);padding:4px 0}\
    .rounds label,.with label{font-size:12px;border:1px solid var(--rule);cursor:pointer}\
    .step{position:sticky;left:0;z-index:1;background:inherit}.step div{display:flex;gap:2px}\n\
    .go{box-sizing:border-box;width:68px;height:44px;display:flex;align-items:center;\
    justify-content:center}span.go{border:0}\
    .strip{display:flex;flex-wrap:wrap;gap:2px 0}\
    .strip label{min-width:40px;padding:0 3px 3px;text-align:center}\n\
    .strip small{display:block;height:14px;margin:0 -3px 2px;font-size:10px;line-height:14px;\
    white-space:nowrap;color:#000}\
    .py{background:#ffe45c}.pg{background:#97d784}.pb{background:#c5854d}\
    .strip .adr{display:none;padding:17px 3px 3px}.rd:target~.rounds .adr{display:block}\n\
    .with{margin:0;padding:2px 0 6px;font-size:13px}\
    .with label{display:inline-block;padding:3px 5px;margin:0 2px 2px 0}\
    [name=round]:focus-visible~.rounds,[name=with]:focus-visible~.with{outline:3px solid #1668b8}\n\
    #runs label{white-space:nowrap}#runs input{margin:0 4px 0 0}\n\
    @media screen and (max-width:700px){nav{white-space:nowrap;overflow-x:auto}.strip{flex-wrap:nowrap}.strip label{padding-bottom:11px}\
    .with label{padding:13px 8px}}\n\
    @media print{.rounds,.with,#runs input{display:none}}\n";

/// Adds the colour and the dash of the lines of each company.
pub(crate) fn put_lines_style(out: &mut Writer) {
    for &company in &Company::ALL {
        let (letter, dash) = (Words(company.letter()), livery_of(company).dash);
        out.put(&[Words(".l"), letter, Words("{stroke:var(--"), letter]);
        out.put(&[Words(");stroke-dasharray:")]);
        out.put(&[
            Words(if dash.is_empty() { "none" } else { dash }),
            Words("}"),
        ]);
    }
    out.put(&[Words("\n")]);
}

/// Adds the rules by which the boxes of routes show some of them alone. If a box of the page that
/// is shown is ticked, its lines fade, but for those whose boxes are ticked.
pub(crate) fn put_boxes_style(out: &mut Writer, replayed: &Replayed) {
    for (page, drawn) in replayed.lines.iter().enumerate() {
        if drawn.iter().any(|number| number.is_some()) {
            put_if_shown(out, page, replayed.last());
            out.put(&[Words("~main:has(:is(")]);
            let mut before = ".";
            for number in drawn {
                if let Some(number) = *number {
                    out.put(&[Words(before), Words(LINE), Count(number)]);
                    before = ",.";
                }
            }
            out.put(&[Words("):checked) .ra{opacity:.15}\n")]);
        }
    }
    for number in 0..replayed.drawings.count() {
        if replayed.has_line(number) {
            out.put(&[Words("main:has(."), Words(LINE), Count(number)]);
            out.put(&[Words(":checked) ."), Words(LINE), Count(number)]);
            out.put(&[Words("{opacity:1!important}\n")]);
        }
    }
}
