//! Where a picture that is wider than its window opens, without a script: where most tokens are.
ghost use Rattle.std.specs.Prelude.{◌<◌};

use history::History;
use page_charts::ChartTokens;

/// Into how many parts the width of a picture is divided.
const PARTS: usize = 10;

/// Returns the part of the map in and beside which most tokens are.
pub fn map_opens_at(history: &History) -> usize
    ensures { result < 10 }
{
    let mut counts: [usize; PARTS] = [0; PARTS];
    for token in history.tokens() {
        if let Some(count) = counts.get_mut(usize::from(token.0.hex.column()) * 2 / 5) {
            *count = (*count).saturating_add(1);
        }
    }
    fullest(counts)
}

/// Returns the part of the stock chart in and beside which most tokens are.
pub fn chart_opens_at(tokens: &ChartTokens) -> usize
    ensures { result < 10 }
{
    let mut counts: [usize; PARTS] = [0; PARTS];
    for token in tokens.iter().flatten() {
        if let Some(count) = counts.get_mut(usize::from(token.square.column) / 2) {
            *count = (*count).saturating_add(1);
        }
    }
    fullest(counts)
}

/// Returns the part in and beside which most are; the middle if there are none.
fn fullest(counts: [usize; PARTS]) -> usize
    ensures { result < 10 }
{
    let mut most = 0;
    let mut place = PARTS / 2;
    for part in 0..PARTS {
        let before = if part > 0 { counts[part - 1] } else { 0 };
        let after = if part + 1 < PARTS {
            counts[part + 1]
        } else {
            0
        };
        let all = counts[part].saturating_add(before).saturating_add(after);
        if all > most {
            most = all;
            place = part;
        }
    }
    place
}
