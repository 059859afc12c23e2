//! Laws of the definitions, each the contract of a function that does nothing.
ghost use Rattle.desk_dues.specs.Laws.{ColoursOpen, NoOtherOpens, RustsAsRuled, RustsNoOther};

/// States that the trains of which a next kind says that they rust are those of which the rules of
/// trains say so, and no others.
pub fn trains_rust_as_ruled()
    ensures ruled { RustsAsRuled }
    ensures no_other { RustsNoOther }
{}

/// States that the colour of which a next kind says that its tiles may be laid from then on is the
/// one that the rules of a lay allow then and not before, and that there is no other.
pub fn tiles_open_as_ruled()
    ensures opens { ColoursOpen }
    ensures no_other { NoOtherOpens }
{}
