//! The best of a company's trains on a network: the greatest revenue, with runs that earn it and
//! marks that show it. The search solves for the last trains first, which bounds what they earn
//! after others.
ghost use Rattle.std.specs.Prelude.{◌≡◌, ◌-◌, ◌<◌, ◌≤◌, IfOk, length};
ghost use Rattle.best_run.specs.Revenue.{IsBest};
ghost use Rattle.best_run.specs.Memo.{IsNothing};
ghost use Rattle.best_run.specs.Moves.{Explores, between};
ghost use Rattle.best_run.specs.Suffix.{IsSolved, IsTop, nothing_before};
ghost use Rattle.certificate.specs.Filled.{IsAcceptedFilled};
ghost use Rattle.certificate.specs.Holding.{IsAcceptedClaim};
ghost use Rattle.legal_runs.specs.Set.{IsGreatest};

use crate::bounded_task::BoundedTask;
use crate::claim_and_marks::Best;
use crate::claimed::claimed_runs;
use crate::memo::Found;
use crate::move_path::Mark;
use crate::search::assign_next;
use crate::state::Assigned;
use crate::trains::greatest_first;
use certificate::{Claim, write_marks};
use reach::Network;
use search_task::{Borders, ReadyTask};
use std::alloc::{AllocError, Global};
use tables::{Amount, Company, Kind};

/// Tries all ways for this many of the last trains, by themselves.
fn assign_last(bounded: &BoundedTask, count: usize, best: &mut Found)
    requires { count ≤ length bounded.now.task.now.trains.items }
    ensures { let next = length bounded.now.task.now.trains.items - count in
        Explores bounded.now.task.now (between (nothing_before next)) best.old best.new }
{
    let nothing = Assigned {
        next: bounded.task.train_count() - count,
        total: 0,
        kind: 0,
        cap: 0,
        used: Borders::none(),
    };
    assign_next(bounded, &nothing, best);
}

/// Solves for no train, for the last one, for the last two, and so on, up to all but the first.
/// What is found bounds what these trains earn after others. With one more train, what has been
/// found is earned as well if that train passes. Fails only if allocation fails.
fn assign_suffixes(
    task: &ReadyTask,
    alloc: Global,
    best: &mut Found,
) -> Result<Vec<Amount>, AllocError>
    requires nothing { IsNothing best.old }
    ensures { let all = length task.now.trains.items in
        IfOk result (λ bounds. IsSolved task.now all bounds.items best.new) }
{
    let mut bounds = Vec::with_capacity(alloc, task.train_count())?;
    for count in 0..task.train_count() {
        let bounded = BoundedTask {
            task,
            bounds: &bounds,
        };
        assign_last(&bounded, count, best);
        bounds.push(best.amount)?;
        best.move_path.write(Mark::Pass);
    }
    Ok(bounds)
}

/// Returns the greatest total of all ways from nothing assigned to the end, with the moves that
/// earn it. Fails only if allocation fails.
fn greatest(task: &ReadyTask, alloc: Global) -> Result<Found, AllocError>
    ensures { IfOk result (IsTop task.now) }
{
    let mut best = Found::nothing(alloc);
    let bounds = assign_suffixes(task, alloc, &mut best)?;
    let bounded = BoundedTask {
        task,
        bounds: &bounds,
    };
    assign_last(&bounded, task.train_count(), &mut best);
    let found = best.unless_refused()?;
    Ok(found)
}

/// Returns the greatest revenue that any legal set of runs for some trains of a company earns on a
/// network, with a path that gives the runs of one. The trains are given greatest first. Fails only
/// if allocation fails.
fn find<N: Network>(
    alloc: Global,
    network: &N,
    company: Company,
    kinds: &[Kind],
) -> Result<Found, AllocError>
    ensures { let position = N.position network.now in
        IfOk result (IsBest position company kinds.now) }
{
    network.keeps_laws();
    let task = ReadyTask::of(alloc, network, company, kinds)?;
    let found = greatest(&task, alloc)?;
    Ok(found)
}

/// Returns the greatest revenue that any legal set of runs for these trains of a company earns on a
/// network, in dollars. Fails only if allocation fails.
pub(crate) fn greatest_revenue<N: Network>(
    alloc: Global,
    network: &N,
    company: Company,
    trains: &[Kind],
) -> Result<Amount, AllocError>
    ensures { let position = N.position network.now in
        IfOk result (IsGreatest position company trains.now) }
{
    let kinds = greatest_first(alloc, trains)?;
    let found = find(alloc, network, company, &kinds)?;
    Ok(found.amount)
}

/// Returns the greatest revenue that any legal set of runs for these trains of a company earns on a
/// network, in dollars, less than 50,000. With it come the runs of a legal set that earns it, and
/// marks that show that no set earns more, even after they are printed and read again. If no run is
/// legal, the revenue is 0, by no run. Fails only if allocation fails.
pub fn best<N: Network>(
    alloc: Global,
    network: &N,
    company: Company,
    trains: &[Kind],
) -> Result<Best, AllocError>
    ensures accepted { let position = N.position network.now in
        IfOk result (λ best. IsAcceptedClaim position company trains.now best.claim best.marks) }
    ensures filled { let position = N.position network.now in
        IfOk result (λ best.
        IsAcceptedFilled position company trains.now best.claim best.marks) }
    ensures greatest { let position = N.position network.now in
        IfOk result (λ best. IsGreatest position company trains.now best.claim.revenue) }
    ensures small { IfOk result (λ best. best.claim.revenue < 50000) }
{
    let kinds = greatest_first(alloc, trains)?;
    let found = find(alloc, network, company, &kinds)?;
    let revenue = found.amount;
    let runs = claimed_runs(alloc, &kinds, found.move_path)?;
    let marks = write_marks(alloc, network, company, trains, revenue)?;
    Ok(Best {
        claim: Claim { revenue, runs },
        marks,
    })
}
