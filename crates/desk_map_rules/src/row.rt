//! A rule of a kind of order, and whether an order breaks it.
ghost use Rattle.std.specs.Prelude.{◌≡◌, ◌++◌, IfOk, OnOk};
ghost use Rattle.std.specs.List.{flat_map};
ghost use Rattle.desk_map_rules.specs.Broken.{rules_of, row_rule};

use history::Refusal;
use std::alloc::{AllocError, Global};

/// A rule, and whether the order breaks it.
#[derive(Clone, Copy)]
pub struct Row {
    /// The rule.
    pub rule: Refusal,
    /// Whether it is asked and broken.
    pub is_broken: bool,
}

/// Returns the rules of some rows that are broken, in their order. Fails only if allocation fails.
pub fn rules_of(alloc: Global, rows: &[Row]) -> Result<Vec<Refusal>, AllocError>
    ensures { IfOk result (λ rules. rules.items ≡ rules_of rows.now) }
{
    let mut rules = Vec::new(alloc);
    for row in rows {
        push_row(&mut rules, *row)?;
    }
    Ok(rules)
}

/// Adds the rule of a row, if it is broken.
fn push_row(rules: &mut Vec<Refusal>, row: Row) -> Result<(), AllocError>
    ensures { OnOk result (rules.new.items ≡ rules.old.items ++ row_rule row) }
{
    if row.is_broken {
        rules.push(row.rule)?;
    }
    Ok(())
}
