//! What a company's token and lines look like.

use crate::piece::PagePiece::Words;
use crate::tag::Attr;
use crate::writer::Writer;
use tables::{Company, PerCompany};

/// What the token and the lines of a company look like.
pub struct Livery {
    pub fill: &'static str,
    /// Whether its letter is white.
    pub is_dark: bool,
    /// The dashes of its lines: the lengths of strokes and gaps in turn. Empty for a solid line.
    pub dash: &'static str,
}

/// What the tokens and lines look like, in the order of the roster.
const LIVERIES: PerCompany<Livery> = [
    Livery {
        fill: "#1e793d",
        is_dark: true,
        dash: "",
    },
    Livery {
        fill: "#3a3a3c",
        is_dark: true,
        dash: "18 6",
    },
    Livery {
        fill: "#ca0b2d",
        is_dark: true,
        dash: "7 5",
    },
    Livery {
        fill: "#0a57a4",
        is_dark: true,
        dash: "18 5 5 5",
    },
    Livery {
        fill: "#9fd3ec",
        is_dark: false,
        dash: "3 5",
    },
    Livery {
        fill: "#ffe600",
        is_dark: false,
        dash: "28 6",
    },
    Livery {
        fill: "#f0913a",
        is_dark: false,
        dash: "12 4 3 4 3 4",
    },
    Livery {
        fill: "#5a2a6e",
        is_dark: true,
        dash: "9 9",
    },
];

/// Returns what the token and the lines of a company look like.
pub fn livery_of(company: Company) -> &'static Livery {
    &LIVERIES[company.index()]
}

impl Writer {
    /// Adds the colour of a company's lines to a start tag.
    pub fn line_colour(&mut self, company: Company) {
        self.value(
            Attr::Stroke,
            &[Words("var(--"), Words(company.letter()), Words(")")],
        );
    }

    /// Adds the colour of a company's lines in a chart to a start tag: one that is dark enough on
    /// white.
    pub fn chart_colour(&mut self, company: Company) {
        self.value(
            Attr::Stroke,
            &[Words("var(--l"), Words(company.letter()), Words(")")],
        );
    }

    /// Adds the dash of a company's lines to a start tag, if it has one.
    pub fn line_dash(&mut self, company: Company) {
        let dash = livery_of(company).dash;
        if !dash.is_empty() {
            self.value(Attr::Dash, &[Words(dash)]);
        }
    }
}
