//! The classes by which the rule of style of a page leaves a part or hides it.
ghost use Rattle.std.specs.Prelude.{◌≡◌};
ghost use Rattle.replay.specs.Classes.{first_class, last_class};

/// The classes of a part: a letter and a number each. The rule of a page hides what a later page
/// has first, and what an earlier page has last.
#[derive(Clone, Copy, PartialEq, Eq)]
pub(crate) struct Classes {
    /// The number of the class `f`, if there is one.
    pub(crate) first: Option<usize>,
    /// The number of the class `t`, if there is one.
    pub(crate) last: Option<usize>,
}

impl Classes {
    /// The classes of a part that all pages have: none.
    pub(crate) const NONE: Classes = Classes {
        first: None,
        last: None,
    };
}

/// Returns the classes of a part that the pages from one up to another have, given the number of
/// the last page.
pub(crate) fn classes_of(from: usize, to: usize, last: usize) -> Classes
    ensures first { result.first ≡ first_class from }
    ensures last { result.last ≡ last_class to last }
{
    Classes {
        first: first_class(from),
        last: last_class(to, last),
    }
}

/// Returns the number of the class `f` of a part, given the page that has it first.
fn first_class(from: usize) -> Option<usize>
    ensures { result ≡ first_class from }
{
    if from > 0 { Some(from) } else { None }
}

/// Returns the number of the class `t` of a part, given the page that has it last, and the last
/// page of all.
fn last_class(to: usize, last: usize) -> Option<usize>
    ensures { result ≡ last_class to last }
{
    if to < last { Some(to) } else { None }
}
