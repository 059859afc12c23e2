//! Tables of rules: the first rule of an order that is broken, and the code and the sentence of
//! each rule.
ghost use Rattle.std.specs.Prelude.{◌≡◌, ℕ, All, List, MatchOption};
ghost use Rattle.tables.specs.RuleTexts.{HasCode, HasNotCode, ListsEachRule};

/// Returns the first rule of a table that is broken, or `None` if each is kept.
///
/// A table names the enum of its rules, and then each rule with the test that says whether it is
/// broken. A test is made only if each rule before it is kept. The rows are those of the table in
/// the definition, in its order:
///
/// ```text
/// rules! { StockRule
///     SoldInRound: now.has_sold_in_round(company, seat),
///     NoneThere: is_sold_out_there(now, purchase),
/// }
/// ```
#[macro_export]
macro_rules! rules {
    ($family:ident) => { None };
    ($family:ident $rule:ident: $broken:expr, $($later:tt)*) => {
        if $broken {
            Some($family::$rule)
        } else {
            $crate::rules!($family $($later)*)
        }
    };
}

/// A row of the table of all rules of a family: the rule, the code that a report prints, what is
/// wrong if the rule is broken, in a player's words, and what to do about it.
#[derive(Clone, Copy, Debug)]
pub struct RuleRow<R> {
    /// The rule.
    pub rule: R,
    /// Its code, in upper case.
    pub code: &'static str,
    /// Its sentence. The desk and the tables of the docs print no other.
    pub sentence: &'static str,
    /// What the writer of a refused file or line may do about it.
    pub advice: Advice,
}

/// What may be done about a refusal.
#[derive(Clone, Copy, Debug)]
pub struct Advice {
    /// What its writer may do about it.
    pub to_do: &'static str,
    /// The small game in `games/codes` that shows it; `None` if it is too large to keep.
    pub game: Option<&'static str>,
}

/// Returns the rows of a family's table: each rule with its code, its sentence, what to do about
/// it, and the small game that shows it.
///
/// ```text
/// rule_rows! { PayRule
///     NothingToPay: "D1", "the company has paid or withheld",
///         "write PAY or WITHHOLD once", Some("D1-pay-step-used"),
/// }
/// ```
#[macro_export]
macro_rules! rule_rows {
    ($family:ident $($rule:ident: $code:expr, $sentence:expr, $to_do:expr, $game:expr,)*) => {
        [$($crate::RuleRow {
            rule: $family::$rule,
            code: $code,
            sentence: $sentence,
            advice: $crate::Advice { to_do: $to_do, game: $game },
        },)*]
    };
}

/// What a report prints by a code.
pub trait Printed: Copy {
    /// The code.
    ghost code_of: { Self → List ℕ };

    /// Returns the code.
    fn printed(self) -> &'static str
        ensures { result.now ≡ code_of self };
}

/// Returns the rule with a code, in letters of either case, by the table of its family. The result
/// is `None` if no rule of the family has that code.
pub fn rule_with_code<R: Printed>(rows: &[RuleRow<R>], code: &str) -> Option<R>
    requires { ListsEachRule R.code_of rows.now }
    ensures { MatchOption result
        ((rule : R) → HasNotCode code.now (R.code_of rule))
        (λ rule. HasCode code.now (R.code_of rule)) }
{
    rule_among(rows, code)
}

/// Returns the rule of the first row with this code, in letters of either case.
fn rule_among<R: Printed>(rows: &[RuleRow<R>], code: &str) -> Option<R>
    ensures { MatchOption result
        (All (λ row. HasNotCode code.now (R.code_of row.rule)) rows.now)
        (λ rule. HasCode code.now (R.code_of rule)) }
{
    for row in rows {
        if row.rule.printed().eq_ignore_ascii_case(code) {
            return Some(row.rule);
        }
    }
    None
}
