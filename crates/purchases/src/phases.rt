//! The effects of the first train of a later kind: its phase begins, trains rust, privates close,
//! and companies discard trains over the limit.
ghost use Rattle.std.specs.Prelude.{◌≡◌, OnOk, None};
ghost use Rattle.std.specs.List.{fold};
ghost use Rattle.history.specs.Sound.{IsSound};
ghost use Rattle.purchases.specs.Phases.{excess_of, rusts_at, with_all_closed, with_closed, with_company_rusted};
ghost use Rattle.purchases.specs.Phases.{with_kind_rusted, with_kind_rusted_at, with_limit_kept, with_limits_kept};
ghost use Rattle.purchases.specs.Phases.{with_phase, with_privates_closed, with_rusted, with_trains_rusted};
ghost use Rattle.tables.specs.Roster.{companies};
ghost use Rattle.tables.specs.Train.{rusting_of};
ghost use Rattle.totals.specs.Trains.{at_least_zero};

use crate::discard::discard;
use history::{Event, History, at_least_zero};
use std::alloc::{AllocError, Global};
use tables::{Company, Kind, Money, Private, limit, rusts};

/// Begins a phase, by the first train of its kind: trains rust, privates close, and companies
/// discard trains over the limit.
pub(crate) fn begin_phase(
    alloc: Global,
    history: &mut History,
    phase: Kind,
) -> Result<(), AllocError>
    requires { IsSound history.old }
    ensures after { OnOk result (history.new ≡ with_phase history.old phase) }
    ensures sound { OnOk result (IsSound history.new) }
{
    history.record_event(Event::Phase(phase))?;
    rust_kinds(history, phase)?;
    close_privates(history, phase)?;
    keep_limits(alloc, history)
}

/// Rusts the trains that the first train of a kind rusts.
fn rust_kinds(history: &mut History, new: Kind) -> Result<(), AllocError>
    requires { IsSound history.old }
    ensures after { OnOk result (history.new ≡ with_rusted new history.old) }
    ensures sound { OnOk result (IsSound history.new) }
{
    for &kind in &Kind::ALL {
        rust_kind_at(history, kind, new)?;
    }
    Ok(())
}

/// Rusts all trains of a kind, if the first train of the new kind rusts them.
fn rust_kind_at(history: &mut History, kind: Kind, new: Kind) -> Result<(), AllocError>
    requires { IsSound history.old }
    ensures after { OnOk result (history.new ≡ with_kind_rusted_at new history.old kind) }
    ensures sound { OnOk result (IsSound history.new) }
{
    if is_rusted_by(kind, new) {
        rust_kind(history, kind)?;
    }
    Ok(())
}

/// Returns whether the trains of a kind rust at the first train of the new kind.
fn is_rusted_by(kind: Kind, new: Kind) -> bool
    ensures { result ≡ rusts_at (rusting_of kind) new }
{
    matches!(rusts(kind), Some(rusting) if rusting == new)
}

/// Rusts all trains of a kind: company by company, then those of the pool.
fn rust_kind(history: &mut History, kind: Kind) -> Result<(), AllocError>
    requires { IsSound history.old }
    ensures after { OnOk result (history.new ≡ with_kind_rusted history.old kind) }
    ensures sound { OnOk result (IsSound history.new) }
{
    rust_of_companies(history, kind)?;
    rust_trains_of(history, None, kind)
}

/// Rusts the trains of a kind that the companies have.
fn rust_of_companies(history: &mut History, kind: Kind) -> Result<(), AllocError>
    requires { IsSound history.old }
    ensures after { OnOk result (history.new
        ≡ fold (with_company_rusted kind) history.old companies) }
    ensures sound { OnOk result (IsSound history.new) }
{
    for &company in &Company::ALL {
        rust_trains_of(history, Some(company), kind)?;
    }
    Ok(())
}

/// Rusts the trains of a kind that a company has, or those of the pool if there is no owner.
fn rust_trains_of(
    history: &mut History,
    owner: Option<Company>,
    kind: Kind,
) -> Result<(), AllocError>
    requires { IsSound history.old }
    ensures after { OnOk result (history.new ≡ with_trains_rusted owner kind history.old) }
    ensures sound { OnOk result (IsSound history.new) }
{
    for _ in 0..at_least_zero(Money::from(history.trains(owner, kind))) {
        history.append(Event::Rusted { owner, kind })?;
    }
    Ok(())
}

/// Closes the privates, if a phase closes them.
fn close_privates(history: &mut History, phase: Kind) -> Result<(), AllocError>
    requires { IsSound history.old }
    ensures after { OnOk result (history.new ≡ with_privates_closed phase history.old) }
    ensures sound { OnOk result (IsSound history.new) }
{
    if phase == Kind::Five {
        close_all(history)?;
    }
    Ok(())
}

/// Closes each private that is open.
fn close_all(history: &mut History) -> Result<(), AllocError>
    requires { IsSound history.old }
    ensures after { OnOk result (history.new ≡ with_all_closed history.old) }
    ensures sound { OnOk result (IsSound history.new) }
{
    for &private in &Private::ALL {
        close(history, private)?;
    }
    Ok(())
}

/// Closes a private, if it is open.
pub(crate) fn close(history: &mut History, private: Private) -> Result<(), AllocError>
    requires { IsSound history.old }
    ensures after { OnOk result (history.new ≡ with_closed history.old private) }
    ensures sound { OnOk result (IsSound history.new) }
{
    if history.owner(private).is_none() {
        return Ok(());
    }
    history.append(Event::Closed(private))?;
    Ok(())
}

/// Discards the trains that each company has over the limit of the phase.
fn keep_limits(alloc: Global, history: &mut History) -> Result<(), AllocError>
    requires { IsSound history.old }
    ensures after { OnOk result (history.new ≡ with_limits_kept history.old) }
    ensures sound { OnOk result (IsSound history.new) }
{
    for &company in &Company::ALL {
        keep_limit(alloc, history, company)?;
    }
    Ok(())
}

/// Discards the trains that a company has over the limit of the phase.
fn keep_limit(alloc: Global, history: &mut History, company: Company) -> Result<(), AllocError>
    requires { IsSound history.old }
    ensures after { OnOk result (history.new ≡ with_limit_kept history.old company) }
    ensures sound { OnOk result (IsSound history.new) }
{
    for _ in 0..at_least_zero(excess(history, company)) {
        discard(alloc, history, company)?;
    }
    Ok(())
}

/// Returns how many trains a company has over the limit of the phase; negative if it may have more.
fn excess(history: &History, company: Company) -> Money
    ensures { excess_of history.now company ≡ at_least_zero result }
{
    Money::from(history.now().train_count(Some(company))) - limit(history.phase()) as Money
}
