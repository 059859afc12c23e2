//! The calls that the program can make, with their names, and what it writes before and after one.

use crate::fault::OutcomeFault;
use std::rt::Runtime;

/// A call that allocates.
#[derive(Clone, Copy, PartialEq, Eq)]
pub enum Call {
    Collect,
    CollectUnread,
    PrintLine,
    PrintConditional,
    ReadHex,
    PrintHex,
    Append,
    BoardOf,
    PlainBoardOf,
    PutLay,
    PutToken,
    TryLay,
    TryToken,
    Reached,
    ReachedPlain,
    Best,
    BestPlain,
    Search,
    Keeping,
    PlayOpening,
    PlayStock,
    PlayCompany,
    Play,
    PlayWith,
    StepOpening,
    StepStock,
    StepOperating,
    StepBest,
    HeaderText,
    NextText,
    EndText,
    RoundText,
    Report,
    ReportUnread,
    PlayConditions,
}

impl Call {
    /// All calls.
    pub const ALL: [Call; 35] = [
        Call::Collect,
        Call::CollectUnread,
        Call::PrintLine,
        Call::PrintConditional,
        Call::ReadHex,
        Call::PrintHex,
        Call::Append,
        Call::BoardOf,
        Call::PlainBoardOf,
        Call::PutLay,
        Call::PutToken,
        Call::TryLay,
        Call::TryToken,
        Call::Reached,
        Call::ReachedPlain,
        Call::Best,
        Call::BestPlain,
        Call::Search,
        Call::Keeping,
        Call::PlayOpening,
        Call::PlayStock,
        Call::PlayCompany,
        Call::Play,
        Call::PlayWith,
        Call::StepOpening,
        Call::StepStock,
        Call::StepOperating,
        Call::StepBest,
        Call::HeaderText,
        Call::NextText,
        Call::EndText,
        Call::RoundText,
        Call::Report,
        Call::ReportUnread,
        Call::PlayConditions,
    ];

    /// Returns its name.
    pub fn name(self) -> &'static str {
        match self {
            Call::Collect => "collect",
            Call::CollectUnread => "collect of unread lines",
            Call::PrintLine => "print_line",
            Call::PrintConditional => "print_conditional",
            Call::ReadHex => "read_hex",
            Call::PrintHex => "print_hex",
            Call::Append => "append",
            Call::BoardOf => "Board::of",
            Call::PlainBoardOf => "PlainBoard::of",
            Call::PutLay => "put_lay",
            Call::PutToken => "put_token",
            Call::TryLay => "try_lay",
            Call::TryToken => "try_token",
            Call::Reached => "reached",
            Call::ReachedPlain => "reached on a plain board",
            Call::Best => "best",
            Call::BestPlain => "best on a plain board",
            Call::Search => "Search",
            Call::Keeping => "Keeping",
            Call::PlayOpening => "play_opening",
            Call::PlayStock => "play_stock",
            Call::PlayCompany => "play_company",
            Call::Play => "play",
            Call::PlayWith => "play_with",
            Call::StepOpening => "step of an opening round",
            Call::StepStock => "step of a stock round",
            Call::StepOperating => "step of an operating round",
            Call::StepBest => "step of a round with RUN BEST",
            Call::HeaderText => "header_text",
            Call::NextText => "next_text",
            Call::EndText => "end_text",
            Call::RoundText => "round_text",
            Call::Report => "report",
            Call::ReportUnread => "report of unread lines",
            Call::PlayConditions => "play of version 2",
        }
    }

    /// Writes its name: the call is about to be made.
    pub fn begin(self, rt: &HostRuntime) -> Result<(), OutcomeFault> {
        rt.print(self.name())?;
        Ok(())
    }
}

/// Writes that the call was made.
pub fn made(rt: &HostRuntime) -> Result<(), OutcomeFault> {
    rt.print(": made: ")?;
    Ok(())
}
