//! The laws of choice trees, marks and their text. Each is the contract of a function that does
//! nothing.
ghost use Rattle.certificate.specs.Digits.{
  PrintsInLowerCase,
  PrintsWhatWasRead,
  ReadsWhatWasPrinted,
};
ghost use Rattle.certificate.specs.Example.{WorkedMarks, WorkedTree};
ghost use Rattle.certificate.specs.HoldingLaws.{
  AcceptedIsGreatest,
  MarksAreRead,
  MarksHoldWhereRead,
  WrittenMarksHold,
};
ghost use Rattle.certificate.specs.TreeLaws.{
  BoundsFall,
  LeavesAreLegalSets,
  LeavesEarnTheirBounds,
  LegalSetsAreLeaves,
  NoLeafEarnsMore,
};

/// States that in the choice tree no child's bound exceeds its node's.
pub fn bounds_fall()
    ensures { BoundsFall }
{}

/// States that a leaf's bound is what it earns.
pub fn leaves_earn_their_bounds()
    ensures { LeavesEarnTheirBounds }
{}

/// States that no leaf below a node earns more than the node's bound.
pub fn no_leaf_earns_more()
    ensures { NoLeafEarnsMore }
{}

/// States that the assigned runs of each leaf are a legal set.
pub fn leaves_are_legal_sets()
    ensures { LeavesAreLegalSets }
{}

/// States that each legal set is the assigned runs of a leaf of the choice tree.
pub fn legal_sets_are_leaves()
    ensures { LegalSetsAreLeaves }
{}

/// States a small example of the choice tree: two trains, two cities, and one border between them.
pub fn worked_tree()
    ensures { WorkedTree }
{}

/// States that marks hold at a node exactly if they are read over it and none is left over.
pub fn marks_hold_where_read()
    ensures { MarksHoldWhereRead }
{}

/// States that bits are marks exactly if they are read as such, at the stops that the company
/// reaches.
pub fn marks_are_read()
    ensures { MarksAreRead }
{}

/// States that a claim that holds, with marks that hold for its revenue, has the greatest revenue,
/// whoever made the marks.
pub fn accepted_is_greatest()
    ensures { AcceptedIsGreatest }
{}

/// States that what is written over the root for the greatest revenue are marks that hold for it,
/// with at most three 0 bits after them.
pub fn written_marks_hold()
    ensures { WrittenMarksHold }
{}

/// States the marks of the small example, in hexadecimal digits.
pub fn worked_marks()
    ensures { WorkedMarks }
{}

/// States how texts and bits correspond. If `read_hex` reads a text of digits in lower case,
/// `print_hex` prints that text again, and it prints only such texts. What it printed is read as
/// the bits, with at most three 0 bits after them.
pub fn digits_and_bits()
    ensures prints_again { PrintsWhatWasRead }
    ensures prints_lower { PrintsInLowerCase }
    ensures reads_again { ReadsWhatWasPrinted }
{}
