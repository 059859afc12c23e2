//! Whether marks hold, and the writing of marks for a revenue.
ghost use Rattle.std.specs.Prelude.{◌≡◌, ◌↔◌, IsTrue, IfOk, List};
ghost use Rattle.certificate.specs.Filled.{AreMarksFilled};
ghost use Rattle.certificate.specs.Holding.{AreMarks, IsAcceptedClaim};
ghost use Rattle.certificate.specs.Read.{AreZeros};
ghost use Rattle.legal_runs.specs.Set.{IsGreatest};

use crate::bits::Bits;
use crate::reader::{Marks, Reader, SliceMarks};
use crate::tree::Tree;
use crate::tree_walk::choose;
use crate::writer::Writer;
use legal_runs::{Claim, Used, claim_holds};
use reach::Network;
use std::alloc::{AllocError, Global};
use tables::{Amount, Company, Kind};

/// Returns whether a claim for a company's trains is accepted by bits: it holds, and the bits are
/// marks that hold for its revenue. At most three 0 bits may follow. A claim that is accepted has
/// the greatest revenue, whoever made the bits. Allocates nothing, and searches for nothing.
pub fn accepts<N: Network>(
    network: &N,
    company: Company,
    trains: &[Kind],
    claim: &Claim,
    marks: &[bool],
) -> bool
    ensures { let position = N.position network.now in
        IsTrue result ↔ IsAcceptedClaim position company trains.now claim.now marks.now }
{
    if !claim_holds(network, company, trains, claim) {
        return false;
    }
    marks_hold(
        network,
        company,
        trains,
        claim.revenue,
        SliceMarks { marks },
    )
}

/// Returns whether a claim is accepted by bits that are kept, by the rule of `accepts`.
pub fn accepts_bits<N: Network>(
    network: &N,
    company: Company,
    trains: &[Kind],
    claim: &Claim,
    bits: &Bits,
) -> bool
    ensures { let position = N.position network.now in
        IsTrue result ↔ IsAcceptedClaim position company trains.now claim.now bits.now }
{
    if !claim_holds(network, company, trains, claim) {
        return false;
    }
    marks_hold(network, company, trains, claim.revenue, bits.reader())
}

/// Returns whether bits are marks that hold for a revenue of a company's trains, and at most three
/// 0 bits after them. Allocates nothing.
pub(crate) fn marks_hold<N: Network, M: Marks + Drop>(
    network: &N,
    company: Company,
    trains: &[Kind],
    revenue: Amount,
    marks: M,
) -> bool
    ensures { let position = N.position network.now in
        IsTrue result ↔ AreMarks position company trains.now revenue (M.left marks) }
{
    network.keeps_laws();
    crate::laws::marks_are_read();
    let tree = Tree::of(network, company, trains);
    let mut reader = Reader { marks, revenue };
    let mut used = Used::new();
    if !choose(network, &tree, 0, 0, &mut used, &mut reader) {
        return false;
    }
    are_zeros(&mut reader.marks, 3)
}

/// Returns whether the bits that are left are at most this many, each 0.
fn are_zeros<M: Marks>(bits: &mut M, most: usize) -> bool
    ensures { IsTrue result ↔ AreZeros most (M.left bits.old) }
{
    match bits.next_mark() {
        None => true,
        Some(true) => false,
        Some(false) => {
            if most == 0 {
                return false;
            }
            are_zeros(bits, most - 1)
        }
    }
}

/// Writes the marks for a revenue of a company's trains. Each node of the choice tree is cut if its
/// bound is at most the revenue, and split otherwise. For the greatest revenue they are marks that
/// hold, whatever pads the last digit of their text. Fails only if allocation fails.
pub fn write_marks<N: Network>(
    alloc: Global,
    network: &N,
    company: Company,
    trains: &[Kind],
    revenue: Amount,
) -> Result<Bits, AllocError>
    ensures marks { let position = N.position network.now in
        IfOk result (λ bits. IsGreatest position company trains.now revenue
        → AreMarks position company trains.now revenue bits) }
    ensures filled { let position = N.position network.now in
        IfOk result (λ bits. IsGreatest position company trains.now revenue
        → AreMarksFilled position company trains.now revenue bits) }
{
    network.keeps_laws();
    crate::laws::written_marks_hold();
    let tree = Tree::of(network, company, trains);
    let mut writer = Writer {
        bits: Bits::new(alloc),
        revenue,
        refused: None,
    };
    let mut used = Used::new();
    let _whole = choose(network, &tree, 0, 0, &mut used, &mut writer);
    match writer.refused {
        Some(error) => Err(error),
        None => Ok(writer.bits),
    }
}
