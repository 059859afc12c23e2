//! The laws of what companies buy. Each is the contract of a function that does nothing.
ghost use Rattle.purchases.specs.ConsentLaws.{CompaniesAgree, OwnersAgree};
ghost use Rattle.purchases.specs.PrivateLaws.{ClosedHasNoOwner, OthersKeepClosed, SalesKeepClosed};
ghost use Rattle.purchases.specs.SaleLaws.{OthersKeepAgreed};
ghost use Rattle.purchases.specs.TrainLaws.{AllTrainsAreThereAtFirst, OthersKeepAll, OthersKeepStanding, PhasesGoOn};
ghost use Rattle.purchases.specs.TrainLaws.{PurchasesKeepAll};

/// States that whoever sells a train or a private to a company has agreed to exactly this sale. The
/// seller is the selling company's president, or the player who owns the private. They preside over
/// the buyer too, or have offered the sale in this round. Other events do not change that for
/// earlier sales of a list.
pub fn sellers_agree()
    ensures trains { CompaniesAgree }
    ensures privates { OwnersAgree }
    ensures others { OthersKeepAgreed }
{}

/// States that a purchase never moves the phase back.
pub fn phases_go_on()
    ensures { PhasesGoOn }
{}

/// States that the bank, its pool and the companies together have the initial number of trains of
/// each kind until they rust, and none after that. Nobody has a negative number of them. Each legal
/// purchase keeps this true.
pub fn all_trains_are_there()
    ensures first { AllTrainsAreThereAtFirst }
    ensures others { OthersKeepAll }
    ensures standing { OthersKeepStanding }
    ensures purchases { PurchasesKeepAll }
{}

/// States that a closed private has no owner, and stays closed after an event that names no owner
/// and after the sale of an unsold private.
pub fn closed_for_good()
    ensures owner { ClosedHasNoOwner }
    ensures others { OthersKeepClosed }
    ensures sales { SalesKeepClosed }
{}
