//! The command line: a word, and what follows it. Each word is a row of `WORDS`, and a case of
//! `answer_to`.
ghost use Rattle.std.specs.Prelude.{◌<◌, length};

use crate::version::VERSION;
use clap::{Arg, ArgAction, ArgMatches, Command, Error};
use desk_moves::{read_company, read_hex, read_kind};
use desk_state::read_round;
use map_tables::Hex;
use std::alloc::{AllocError, Global};
use tables::{Company, Kind, Round};

/// What a word of the program writes.
#[derive(Clone, Copy)]
pub(crate) enum Job {
    /// A round's part of the report.
    Round,
    /// What is wrong with the file beyond its report.
    Check,
    /// What codes mean.
    Explain,
    /// What the trains of each company ran in a round.
    Runs,
    /// The state of the game, now or earlier.
    State,
    /// A round for its players.
    Bulletin,
    /// What a company may lay, and where it may place its next token.
    Lays,
    /// What a player may do.
    May,
    /// The best runs of a company.
    Best,
    /// How the awaited round would come out with the sheets that the file has.
    Trial,
    /// What a hex has now.
    Hex,
    /// The game as a page, or the page of all tiles.
    Page,
}

/// What the program is asked for.
#[derive(Drop)]
pub(crate) struct Task<'a> {
    /// What its word writes.
    pub(crate) job: Job,
    /// The round that is named, if one is.
    pub(crate) round: Option<Round>,
    /// Whether to write which rules were broken.
    pub(crate) why: bool,
    /// Whether to write the state before the round.
    pub(crate) before: bool,
    /// Whether to write JSON.
    pub(crate) json: bool,
    /// Whether to leave nothing out.
    pub(crate) all: bool,
    /// The first line of the file that is reported.
    pub(crate) from: usize,
    /// When the next sheets are due; empty if that is unknown.
    pub(crate) due: &'a str,
    /// Whether to write order lines only.
    pub(crate) lines: bool,
    /// Whether to tell what the best runs would earn.
    pub(crate) best: bool,
    /// Whether to ask after the orders of the player's own sheet.
    pub(crate) drafted: bool,
    /// Whether to write the page of all tiles.
    pub(crate) tiles: bool,
    /// Whether to write on the page what may be done.
    pub(crate) lays: bool,
    /// The companies of which it is written; all if none is named.
    pub(crate) companies: Vec<Company>,
    /// The company that is named, if one is.
    pub(crate) company: Option<Company>,
    /// The hex that is named, if one is.
    pub(crate) hex: Option<Hex>,
    /// The trains that are named.
    pub(crate) trains: Vec<Kind>,
    /// The codes or players that are named.
    pub(crate) names: Vec<&'a str>,
}

/// What a command line asks for.
#[derive(Drop)]
pub(crate) enum Asked<'a> {
    /// A task.
    Task(Task<'a>),
    /// Nothing, for this reason.
    Nothing(&'static str),
}

impl Task<'_> {
    /// Returns whether it needs an order file.
    pub(crate) fn needs_file(&self) -> bool {
        !matches!(self.job, Job::Explain) && !self.tiles
    }
}

/// A word of the program, with what its help says of it.
struct Word {
    name: &'static str,
    about: &'static str,
    example: &'static str,
    job: Job,
    /// What may follow it.
    operands: &'static [Operand],
}

/// What may follow a word.
#[derive(Clone, Copy)]
enum Operand {
    /// A round, or none.
    Round,
    /// `--why`.
    Why,
    /// `--before`.
    Before,
    /// `--json`.
    Json,
    /// `--all`.
    All,
    /// `--from LINE`.
    From,
    /// Codes, or none.
    Codes,
    /// `--due TEXT`.
    Due,
    /// `--lines`.
    Lines,
    /// `--best`.
    Best,
    /// `--drafted`.
    Drafted,
    /// `--all`, of rounds.
    Rounds,
    /// `--tiles`.
    Tiles,
    /// `--lays`, with companies or none.
    Lays,
    /// `--after ROUND`.
    After,
    /// A company.
    Company,
    /// A hex.
    Hex,
    /// Trains, or none.
    Trains,
    /// A player.
    Player,
    /// Players, or none.
    Players,
}

/// The words, as the help lists them.
static WORDS: [Word; 12] = [
    Word {
        name: "round",
        about: "Writes a round's part of the report",
        example: "Example: desk round OR2.1 --why < our-game.orders",
        job: Job::Round,
        operands: &[Operand::Round, Operand::Why, Operand::Json],
    },
    Word {
        name: "check",
        about: "Writes what to correct in sheets: late ones, mail, bad lines, orders that are refused",
        example: "Example: desk check --from 120 < our-game.orders",
        job: Job::Check,
        operands: &[Operand::All, Operand::From],
    },
    Word {
        name: "explain",
        about: "Writes what codes mean, and what to do about them",
        example: "Example: desk explain G3 S4",
        job: Job::Explain,
        operands: &[Operand::Codes, Operand::All],
    },
    Word {
        name: "runs",
        about: "Writes what the trains of each company ran in a round, stop by stop",
        example: "Example: desk runs OR2.1 < our-game.orders",
        job: Job::Runs,
        operands: &[Operand::Round],
    },
    Word {
        name: "state",
        about: "Writes the state of the game: who owes a sheet, players, companies, chart and map",
        example: "Example: desk state OR2.1 < our-game.orders",
        job: Job::State,
        operands: &[Operand::Round, Operand::Before, Operand::Json],
    },
    Word {
        name: "bulletin",
        about: "Writes a round for its players: what each had, and what each line led to",
        example: "Example: desk bulletin OR2.1 < our-game.orders",
        job: Job::Bulletin,
        operands: &[Operand::Round, Operand::Due],
    },
    Word {
        name: "lays",
        about: "Writes what a company may lay, and where it may place its next token",
        example: "Example: desk lays PRR --best < our-game.orders",
        job: Job::Lays,
        operands: &[
            Operand::Company,
            Operand::Best,
            Operand::Lines,
            Operand::Drafted,
            Operand::After,
        ],
    },
    Word {
        name: "may",
        about: "Writes what a player may buy, bid and sell, what they may not, and what a company must buy",
        example: "Example: desk may ANN < our-game.orders",
        job: Job::May,
        operands: &[
            Operand::Player,
            Operand::Lines,
            Operand::Drafted,
            Operand::After,
        ],
    },
    Word {
        name: "best",
        about: "Writes the best runs of a company, with its trains or with others",
        example: "Example: desk best CO 4 4 D < our-game.orders",
        job: Job::Best,
        operands: &[Operand::Company, Operand::Trains, Operand::After],
    },
    Word {
        name: "trial",
        about: "Writes how the next round would come out, with empty sheets for those who owe one",
        example: "Example: cat our-game.orders my-sheet | desk trial",
        job: Job::Trial,
        operands: &[Operand::Players, Operand::Why],
    },
    Word {
        name: "hex",
        about: "Writes a hex as it is: tile, stops, tokens, and what meets at its sides",
        example: "Example: desk hex H10 < our-game.orders",
        job: Job::Hex,
        operands: &[Operand::Hex, Operand::After],
    },
    Word {
        name: "page",
        about: "Writes the game as one page of HTML: map, routes, chart, history, tables, tiles",
        example: "Example: desk page < our-game.orders > our-game.html",
        job: Job::Page,
        operands: &[
            Operand::Round,
            Operand::Due,
            Operand::Rounds,
            Operand::Tiles,
            Operand::Lays,
        ],
    },
];

/// Returns what the command line asks for. An error has the text to print: what is wrong, the help
/// or the version.
pub(crate) fn asked_by<'a>(alloc: Global, words: &'a [String]) -> Result<Asked<'a>, Error> {
    let matches = command_line(alloc)?.try_get_matches_from(words)?;
    let Some((name, given)) = matches.subcommand() else {
        return Ok(Asked::Nothing("it needs a word"));
    };
    match word_named(name) {
        Some(word) => Ok(task_of(alloc, word, given)?),
        None => Ok(Asked::Nothing("there is no such word")),
    }
}

/// Returns what a command line may ask for.
fn command_line<'a>(alloc: Global) -> Result<Command<'a>, AllocError> {
    let mut command = program(alloc)?;
    for word in &WORDS {
        command = command.subcommand(command_of(alloc, word)?)?;
    }
    Ok(command)
}

/// Returns the program without its words.
fn program<'a>(alloc: Global) -> Result<Command<'a>, AllocError> {
    Ok(
        Command::new(alloc, "desk")
            .about(
                "Prints what the report of a game of 1830 does not say; the order file is standard input",
            )
            .version(VERSION)
            .bin_name("desk")?
            .subcommand_required(true),
    )
}

/// Returns a word with what may follow it.
fn command_of<'a>(alloc: Global, word: &'static Word) -> Result<Command<'a>, AllocError> {
    let mut command = Command::new(alloc, word.name)
        .about(word.about)
        .after_help(word.example);
    for operand in word.operands {
        command = command.arg(argument_of(alloc, *operand).help(help_of(*operand)))?;
    }
    Ok(command)
}

/// Returns what may follow a word, without its help.
fn argument_of<'a>(alloc: Global, operand: Operand) -> Arg<'a> {
    match operand {
        Operand::Round => Arg::new(alloc, "ROUND"),
        Operand::Why => flag(alloc, "why"),
        Operand::Before => flag(alloc, "before"),
        Operand::Json => flag(alloc, "json"),
        Operand::All | Operand::Rounds => flag(alloc, "all"),
        Operand::From => Arg::new(alloc, "from").long("from").value_name("LINE"),
        Operand::Due => Arg::new(alloc, "due").long("due").value_name("TEXT"),
        Operand::Codes => Arg::new(alloc, "CODE").num_args(0..),
        Operand::Lines => flag(alloc, "lines"),
        Operand::Best => flag(alloc, "best"),
        Operand::Drafted => flag(alloc, "drafted"),
        Operand::Tiles => flag(alloc, "tiles"),
        Operand::Lays => Arg::new(alloc, "lays")
            .long("lays")
            .value_name("COMPANY")
            .num_args(0..),
        Operand::After => Arg::new(alloc, "after").long("after").value_name("ROUND"),
        Operand::Company => Arg::new(alloc, "COMPANY").required(true),
        Operand::Hex => Arg::new(alloc, "HEX").required(true),
        Operand::Trains => Arg::new(alloc, "TRAIN").num_args(0..),
        Operand::Player => Arg::new(alloc, "PLAYER").required(true),
        Operand::Players => Arg::new(alloc, "PLAYER").num_args(0..),
    }
}

/// Returns the help for what may follow a word. It is never empty.
fn help_of(operand: Operand) -> &'static str
    ensures { 0 < length result.now }
{
    match operand {
        Operand::Round => "The round, such as OR2.1; the last one if none is named",
        Operand::Why => "Show below each refused line which rule it broke",
        Operand::Before => "The state before that round",
        Operand::Json => "Write facts for other programs, as JSON",
        Operand::All => "Show everything",
        Operand::From => "Show only findings from this line of the file on",
        Operand::Due => "When the next sheets are due, in your own words",
        Operand::Codes => "The codes, such as G3; a list of them all if none is named",
        Operand::Lines => "Write only order lines, each with its price or outcome",
        Operand::Best => "Show what the company's best runs would earn after each",
        Operand::Drafted => {
            "Start after the orders in the player's own sheet, or in the president's"
        }
        Operand::Rounds => "Show all rounds, with a button for each",
        Operand::Tiles => "Write all tiles in their six rotations, without a game",
        Operand::Lays => "Add what these companies may lay, or all, and what players may do next",
        Operand::After => "Answer for the round after this one, such as OR2.1",
        Operand::Company => "The company, such as PRR",
        Operand::Hex => "The hex, such as H10",
        Operand::Trains => "The trains, such as 4 4 D; those that it has if none is named",
        Operand::Player => "The player's name",
        Operand::Players => "Those who owe a sheet; the trial fails if somebody else does too",
    }
}

/// Returns a flag: `--` and this name.
fn flag<'a>(alloc: Global, name: &'static str) -> Arg<'a> {
    Arg::new(alloc, name).long(name).action(ArgAction::SetTrue)
}
/// Returns the row of a word; `None` if there is no such word.
fn word_named(name: &str) -> Option<&'static Word> {
    for word in &WORDS {
        if word.name == name {
            return Some(word);
        }
    }
    None
}

/// Returns what a word and what follows it ask for.
fn task_of<'a>(
    alloc: Global,
    word: &Word,
    given: &ArgMatches<'a>,
) -> Result<Asked<'a>, AllocError> {
    let mut task = Task {
        job: word.job,
        round: None,
        why: false,
        before: false,
        json: false,
        all: false,
        from: 1,
        due: "",
        lines: false,
        best: false,
        drafted: false,
        tiles: false,
        lays: false,
        companies: Vec::new(alloc),
        company: None,
        hex: None,
        trains: Vec::new(alloc),
        names: Vec::new(alloc),
    };
    for operand in word.operands {
        if let Some(wrong) = take_operand(&mut task, given, *operand) {
            return Ok(Asked::Nothing(wrong));
        }
        if let Some(wrong) = take_list(alloc, &mut task, given, *operand)? {
            return Ok(Asked::Nothing(wrong));
        }
    }
    Ok(Asked::Task(task))
}

/// Takes what was given after a word that may have several operands. Returns what is wrong with
/// them; `None` if nothing is.
fn take_list<'a>(
    alloc: Global,
    task: &mut Task<'a>,
    given: &ArgMatches<'a>,
    operand: Operand,
) -> Result<Option<&'static str>, AllocError> {
    let name = match operand {
        Operand::Codes => "CODE",
        Operand::Player | Operand::Players => "PLAYER",
        Operand::Trains => "TRAIN",
        Operand::Lays => "lays",
        _ => return Ok(None),
    };
    let Some(words) = given.get_strs(name) else {
        return Ok(None);
    };
    if let Operand::Lays = operand {
        return take_companies(task, words);
    }
    if let Operand::Trains = operand {
        for word in words {
            match read_kind(word.as_bytes()) {
                Some(kind) => task.trains.push(kind)?,
                None => return Ok(Some(
                    "there is no such train; the kinds are 2, 3, 4, 5, 6 and D",
                )),
            }
        }
    } else {
        task.names = Vec::from_slice(alloc, words)?;
    }
    Ok(None)
}

/// Takes what was given after a word. Returns what is wrong with it; `None` if nothing is.
fn take_operand<'a>(
    task: &mut Task<'a>,
    given: &ArgMatches<'a>,
    operand: Operand,
) -> Option<&'static str> {
    match operand {
        Operand::Why => task.why = given.get_flag("why"),
        Operand::Before => task.before = given.get_flag("before"),
        Operand::Json => task.json = given.get_flag("json"),
        Operand::All | Operand::Rounds => task.all = given.get_flag("all"),
        Operand::Lines => task.lines = given.get_flag("lines"),
        Operand::Best => task.best = given.get_flag("best"),
        Operand::Drafted => task.drafted = given.get_flag("drafted"),
        Operand::Tiles => task.tiles = given.get_flag("tiles"),
        Operand::Round => return take_round(task, given.get_str("ROUND")?),
        Operand::After => return take_round(task, given.get_str("after")?),
        Operand::From => return take_from(task, given.get_str("from")?),
        Operand::Due => task.due = given.get_str("due")?,
        Operand::Company => return take_company(task, given.get_str("COMPANY")?),
        Operand::Hex => return take_hex(task, given.get_str("HEX")?),
        Operand::Lays => task.lays = given.contains_id("lays"),
        Operand::Codes | Operand::Trains | Operand::Player | Operand::Players => {}
    }
    None
}

/// Takes a round by its name. Returns what is wrong with it; `None` if nothing is.
fn take_round(task: &mut Task, word: &str) -> Option<&'static str> {
    task.round = read_round(word.as_bytes());
    match task.round {
        Some(_) => None,
        None => Some("there is no such round; PR1, SR1 and OR1.1 are names of rounds"),
    }
}

/// Takes the number of the first line to report. Returns what is wrong with it; `None` if nothing
/// is.
fn take_from(task: &mut Task, word: &str) -> Option<&'static str> {
    let Ok(line) = word.parse() else {
        return Some("--from takes the number of a line of the file");
    };
    task.from = line;
    None
}

/// What is said if there is no company of a code.
const NO_COMPANY: &str =
    "there is no such company; the companies are PRR NYC CPR BO CO ERIE NYNH BM";

/// Takes a company by its code. Returns what is wrong with it; `None` if nothing is.
fn take_company(task: &mut Task, word: &str) -> Option<&'static str> {
    task.company = read_company(word.as_bytes());
    match task.company {
        Some(_) => None,
        None => Some(NO_COMPANY),
    }
}

/// Takes the companies of a page by their codes. Returns what is wrong with them; `None` if nothing
/// is.
fn take_companies(task: &mut Task, words: &[&str]) -> Result<Option<&'static str>, AllocError> {
    for word in words {
        match read_company(word.as_bytes()) {
            Some(company) => task.companies.push(company)?,
            None => return Ok(Some(NO_COMPANY)),
        }
    }
    Ok(None)
}

/// Takes a hex by its name. Returns what is wrong with it; `None` if nothing is.
fn take_hex(task: &mut Task, word: &str) -> Option<&'static str> {
    task.hex = read_hex(word.as_bytes());
    match task.hex {
        Some(_) => None,
        None => Some("the map has no such hex; H10 is one"),
    }
}
