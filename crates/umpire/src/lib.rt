//! The umpire: bytes of an order file in, bytes of its report out. The report is written part by
//! part, so that memory holds the text of only one part at a time: the header, a round, 4,096
//! unread lines, or the end.
//!
//! An order file in memory, `FIRST`, and its report:
//!
//! ```
//! let mut text = Vec::new(rt.alloc());
//! let mut reader = Watched::new(FIRST.as_bytes());
//! let mut writer = Watched::new(&mut text);
//! assert_eq!(rt; run(rt.alloc(), &mut reader, &mut writer), Ok(()));
//! assert_eq!(rt; text.as_slice(), FIRST_REPORT.as_bytes());
//! ```
//!
//! Reading order: `watched` (readers and writers that remember a failure), `fault`, `input`,
//! `output` (a text), `refusal` (of a file), `report_end` (what follows the rounds of a report),
//! `program` (the report, and `run`); `certificates` (writing those of a game), `group_text` (how a
//! group is written), `input_split` (an order file and the text of certificates after it), `groups`
//! (how one is read from that text), `verifier` (a runner that reads its results from them),
//! `verification` (the game of a file, checked by them); `buffered_write` (writing a text in long
//! pieces), `migration` (migrating a file to version 2); `laws`, `migration_laws`.
#![tactic(auto)]

mod buffered_write;
mod certificates;
mod fault;
mod group_text;
mod groups;
mod input;
mod input_split;
pub mod laws;
mod migration;
mod migration_laws;
mod output;
mod program;
mod refusal;
mod report_end;
mod verification;
mod verifier;
mod watched;

pub use certificates::certs;
pub use fault::{Fault, status, word};
pub use input_split::{CERTIFICATES_MOST, Parted, part};
pub use migration::migrate;
pub use program::run;
pub use verification::verify;
pub use watched::Watched;
