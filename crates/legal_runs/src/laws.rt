//! The laws of runs. Each is the contract of a function that does nothing.
ghost use Rattle.legal_runs.specs.Law.{
  BordersHaveOwnNumbers,
  CrossedBordersAreUsed,
  EachLegalRunIsNamed,
  LegalByMarks,
  LegalWhereNoRuleIsBroken,
  RunsEarnByBorders,
  RunsShareNoBorder,
};
ghost use Rattle.legal_runs.specs.Greatest.{
  AGreatestExists,
  GreaterTrainsEarnNoLess,
  MoreTrainsEarnNoLess,
  OneGreatest,
  OrderOfTrainsChangesNothing,
};
ghost use Rattle.legal_runs.specs.InTurn.{ClaimHoldsInTurn};
ghost use Rattle.legal_runs.specs.Places.{ClaimsHavePlaces};

/// States that some places name a legal run exactly if they break no rule. The walk that they name
/// then leads from a stop to a stop and has every property of a legal run.
#[tactic(auto, using(crate::proofs::Lawful::legal_where_unbroken))]
pub fn legal_where_no_rule_is_broken()
    ensures { LegalWhereNoRuleIsBroken }
{}

/// States that each border has its own number. Two sides of hexes that are at borders have the same
/// number exactly if they are the same side, or the two sides of one border.
pub fn borders_have_own_numbers()
    ensures { BordersHaveOwnNumbers }
{
    map_tables::laws::neighbours_pair();
}

/// States that after a run the used borders are those used before it and those that it crosses, and
/// no others.
pub fn crossed_borders_are_used()
    ensures { CrossedBordersAreUsed }
{}

/// States that a run is legal by the marks of the used borders exactly if it is legal over these
/// borders.
pub fn legal_by_marks()
    ensures { LegalByMarks }
{}

/// States that a run that is legal after another shares no border with it.
pub fn runs_share_no_border()
    ensures { RunsShareNoBorder }
{}

/// States that a run that breaks no rule earns at most 160 dollars for each border that it uses. So
/// all runs of a turn together earn at most 44,640 dollars.
#[tactic(auto, using(crate::proofs::Earning::earn_by_borders))]
pub fn runs_earn_by_borders()
    ensures { RunsEarnByBorders }
{}

/// States that each legal run can be written in full: 2 to 280 places name it.
pub fn each_legal_run_is_named()
    ensures { EachLegalRunIsNamed }
{}

/// States that there is a greatest revenue that a company's trains can earn, whatever is on the
/// map: some legal set of runs earns it and none earns more. It is less than 50,000 dollars.
#[tactic(auto, using(crate::proofs::Greatest::a_greatest_exists))]
pub fn a_greatest_exists()
    ensures { AGreatestExists }
{}

/// States that there is only one greatest revenue.
#[tactic(auto, using(crate::proofs::Greatest::one_greatest))]
pub fn one_greatest()
    ensures { OneGreatest }
{}

/// States that more trains never earn less.
#[tactic(auto, using(crate::proofs::Greatest::more_trains))]
pub fn more_trains_earn_no_less()
    ensures { MoreTrainsEarnNoLess }
{}

/// States that a train that may visit as many stops as another, or more, never earns less in its
/// place.
pub fn greater_trains_earn_no_less()
    ensures { GreaterTrainsEarnNoLess }
{}

/// States that the order of a company's trains changes nothing.
#[tactic(auto, using(crate::proofs::Greatest::order_of_trains))]
pub fn order_of_trains_changes_nothing()
    ensures { OrderOfTrainsChangesNothing }
{}

/// States that a claim holds exactly if it has no more runs of each kind than there are trains, its
/// runs are legal one after another, and together they earn the claimed revenue.
pub fn claim_holds_in_turn()
    ensures { ClaimHoldsInTurn }
{}

/// States that each run of a claim that holds is named by 2 to 280 places.
pub fn claims_have_places()
    ensures { ClaimsHavePlaces }
{}
