//! The words of the command line.
ghost use Rattle.std.specs.Prelude.{◌≡◌, ◌≢◌, ◌⊎◌, ◌≤◌, ◌↔◌, IsTrue, ℕ, [], true, false, Option, Some, codes, map};
ghost use Rattle.std.specs.Prelude.{option_map, string_bytes};
ghost use Rattle.clap.specs.Faults.{fault_of};
ghost use Rattle.clap.specs.Words.{HasKind};
ghost use Rattle.std.specs.Prelude.{unwrap_or, IfOk, IfErr, OnErr, IfSome, IfNone};
ghost use Rattle.timecode.specs.Rate.{rate_text};
ghost use Rattle.clap.specs.Words.{all_of, app_of, first_of, found_of, kind_of, rows_of, rule_of, subcommand_rows_of};
ghost use Rattle.clap.specs.Words.{Shape, takes, with_subcommand};
ghost use Rattle.playout_args.specs.Words.{a_word, a_flag, an_option, a_wanted_option, idle_option, peers_option};
ghost use Rattle.playout_args.specs.Words.{some_words, program, program_head, IsSubcommand};
ghost use Rattle.playout_args.specs.Words.{answer_words, check_words, diff_words, list_words, serve_head, serve_words};
ghost use Rattle.playout_args.specs.Words.{table_words, with_rate, with_file};
ghost use Rattle.clap.specs.Simple.{new_shape};
ghost use Rattle.playout_args.specs.Words.{timecode_words};
ghost use Rattle.playout_args.specs.Words.{table_name, SaysForm, SaysNumber, SaysTurns, AsksFor, AskNothingOf, IsAsked};
ghost use Rattle.playout_args.specs.Words.{AreAsking, AreRead, AskForNothing, IsToldOf};

use clap::error::ErrorKind;
use clap::{Arg, ArgAction, ArgMatches, Command, Error};
use std::alloc::{AllocError, Global};
use timecode::{Rate, decimal_number};

/// Which table of a channel is asked for.
#[derive(Clone, Copy)]
pub enum TableName {
    /// `vault`: its tapes.
    Vault,
    /// `clips`: its clips.
    Clips,
    /// `offers`: what it lends.
    Offers,
    /// `lent`: what it is lent.
    Lent,
    /// `days`: its broadcast days.
    Days,
}

/// As what the events of a list are printed.
#[derive(Clone, Copy)]
pub enum EventForm {
    /// `--json`, and without a word: JSON Lines.
    Json,
    /// `--csv`: CSV.
    Csv,
}

/// Why the words ask for nothing.
#[derive(Drop)]
pub enum NoAction {
    /// Help or the version was asked for: its text, for standard output.
    Help(String),
    /// Words that aren't taken: what they should be, for standard error.
    Usage(String),
    /// Memory ran out.
    Unavailable,
}

/// What the words ask for.
#[derive(Drop)]
pub enum Action<'a> {
    /// `answer ROW...`: answer the messages of standard input over the plan of these rows.
    Answer(Vec<&'a str>),
    /// `answer --db FILE ROW...`: answer them over the tables in this file, made of the plan of these rows, or with no
    /// row as they stand there.
    AnswerFile(&'a str, Vec<&'a str>),
    /// `serve --db FILE --port N --peers P --turns N --idle SECONDS`: serve so many connections on this port, over the
    /// tables in this file, P at once at most, or without end. A peer of one is waited for so many seconds at once.
    Serve {
        file: &'a str,
        port: u16,
        peers: u16,
        turns: Option<u32>,
        idle: u16,
    },
    /// `table --db FILE --ch N NAME`: print a table of this channel, from the tables in this file.
    Table {
        file: &'a str,
        channel: u16,
        table: TableName,
    },
    /// `check RATE`: check an edit list.
    Check(Rate),
    /// `check RATE FILE...`: check the edit lists in these files.
    CheckFiles(Rate, Vec<&'a str>),
    /// `diff RATE A B`: compare the edit lists in two files.
    Compare {
        rate: Rate,
        one: &'a str,
        other: &'a str,
    },
    /// `list RATE --json` or `--csv`: print the events of an edit list.
    Events(Rate, EventForm),
    /// `tc RATE LABEL`: print the frame of a label.
    Timecode(Rate, &'a str),
}

fn wanted_word<'a>(alloc: Global, name: &'a str, help: &'a str) -> Arg<'a>
    ensures rule { rule_of result ≡ a_word name.now }
    ensures local { result.global ≡ false }
{
    Arg::new(alloc, name).required(true).help(help)
}

fn rate_word<'a>(alloc: Global) -> Arg<'a>
    ensures rule { rule_of result ≡ a_word (codes "RATE") }
    ensures local { result.global ≡ false }
{
    wanted_word(alloc, "RATE", "24, 25, 30 or df (drop-frame)")
}

fn option<'a>(alloc: Global, name: &'a str, value: &'a str, help: &'a str) -> Arg<'a>
    ensures rule { rule_of result ≡ an_option name.now }
    ensures local { result.global ≡ false }
{
    Arg::new(alloc, name)
        .long(name)
        .value_name(value)
        .help(help)
}

fn wanted_option<'a>(alloc: Global, name: &'a str, value: &'a str, help: &'a str) -> Arg<'a>
    ensures rule { rule_of result ≡ a_wanted_option name.now }
    ensures local { result.global ≡ false }
{
    option(alloc, name, value, help).required(true)
}

fn flag<'a>(alloc: Global, name: &'a str, help: &'a str) -> Arg<'a>
    ensures rule { rule_of result ≡ a_flag name.now }
    ensures local { result.global ≡ false }
{
    Arg::new(alloc, name)
        .long(name)
        .action(ArgAction::SetTrue)
        .help(help)
}

// It comes once: twice is usage.
fn file_option<'a>(alloc: Global) -> Arg<'a>
    ensures rule { rule_of result ≡ a_wanted_option (codes "db") }
    ensures local { result.global ≡ false }
{
    wanted_option(alloc, "db", "FILE", "The database FILE, as it stands")
}

fn idle_option<'a>(alloc: Global) -> Arg<'a>
    ensures rule { rule_of result ≡ idle_option }
    ensures local { result.global ≡ false }
{
    let help = "A connection ends whose peer is waited for so long, 1 to 3600";
    option(alloc, "idle", "SECONDS", help).default_value("30")
}

fn peers_option<'a>(alloc: Global) -> Arg<'a>
    ensures rule { rule_of result ≡ peers_option }
    ensures local { result.global ≡ false }
{
    let help = "How many connections are open at once, 1 to 10000";
    option(alloc, "peers", "P", help).default_value("1")
}

fn turns_option<'a>(alloc: Global) -> Arg<'a>
    ensures rule { rule_of result ≡ an_option (codes "turns") }
    ensures local { result.global ≡ false }
{
    let help =
        "How many connections in all, 1 to 1000000; of several at once without end, where none is said";
    option(alloc, "turns", "N", help)
}

fn row_words<'a>(alloc: Global) -> Arg<'a>
    ensures rule { rule_of result ≡ some_words (codes "ROW") }
    ensures local { result.global ≡ false }
{
    Arg::new(alloc, "ROW").num_args(0..).help(
        "A channel of the plan, as 1,25,06:00:00:00,40: number, rate, start label, slots",
    )
}

fn file_words<'a>(alloc: Global) -> Arg<'a>
    ensures rule { rule_of result ≡ some_words (codes "FILE") }
    ensures local { result.global ≡ false }
{
    Arg::new(alloc, "FILE")
        .num_args(0..)
        .help("An edit list; without one that of standard input")
}

fn answer_command<'a>(alloc: Global) -> Result<Command<'a>, AllocError>
    ensures { IfOk result (IsSubcommand answer_words) }
{
    let rows =
        "Keep the rows in the database FILE: made for the plan of the ROWs, or with no ROW as it stands";
    Command::new(alloc, "answer")
        .about("Answers the messages of standard input")
        .arg(option(alloc, "db", "FILE", rows))?
        .arg(row_words(alloc))
}

// A subcommand with this name, which RATE follows.
fn rate_command<'a>(alloc: Global, name: &'a str, about: &'a str) -> Result<Command<'a>, AllocError>
    ensures { IfOk result (IsSubcommand (with_rate name.now)) }
{
    Command::new(alloc, name).about(about).arg(rate_word(alloc))
}

// A subcommand with this name, which a file of tables follows.
fn file_command<'a>(alloc: Global, name: &'a str, about: &'a str) -> Result<Command<'a>, AllocError>
    ensures { IfOk result (IsSubcommand (with_file name.now)) }
{
    Command::new(alloc, name)
        .about(about)
        .arg(file_option(alloc))
}

fn check_command<'a>(alloc: Global) -> Result<Command<'a>, AllocError>
    ensures { IfOk result (IsSubcommand check_words) }
{
    let about =
        "Counts what an edit list on standard input, or each in a FILE, holds, or names its first fault";
    rate_command(alloc, "check", about)?.arg(file_words(alloc))
}

fn diff_command<'a>(alloc: Global) -> Result<Command<'a>, AllocError>
    ensures { IfOk result (IsSubcommand diff_words) }
{
    let about = "Compares two edit lists frame by frame, picture and sound";
    rate_command(alloc, "diff", about)?
        .arg(wanted_word(alloc, "A", "The file of the first list"))?
        .arg(wanted_word(alloc, "B", "The file of the other list"))
}

fn list_command<'a>(alloc: Global) -> Result<Command<'a>, AllocError>
    ensures { IfOk result (IsSubcommand list_words) }
{
    let about = "Prints the events of an edit list on standard input, a line each";
    rate_command(alloc, "list", about)?
        .arg(flag(alloc, "json", "As JSON Lines, as without a word"))?
        .arg(flag(alloc, "csv", "As CSV, behind a line of names"))
}

// What is served, and to how many at once.
fn serve_head<'a>(alloc: Global) -> Result<Command<'a>, AllocError>
    ensures { IfOk result (IsSubcommand serve_head) }
{
    let port = "0 to 65535; 0 takes a free one";
    file_command(alloc, "serve", "Serves connections on a port of 127.0.0.1")?
        .arg(wanted_option(alloc, "port", "N", port))?
        .arg(peers_option(alloc))
}

fn serve_command<'a>(alloc: Global) -> Result<Command<'a>, AllocError>
    ensures { IfOk result (IsSubcommand serve_words) }
{
    serve_head(alloc)?
        .arg(turns_option(alloc))?
        .arg(idle_option(alloc))
}

fn table_command<'a>(alloc: Global) -> Result<Command<'a>, AllocError>
    ensures { IfOk result (IsSubcommand table_words) }
{
    let tables = "vault, clips, offers, lent or days";
    file_command(alloc, "table", "Prints a table of a channel, to read")?
        .arg(wanted_option(alloc, "ch", "N", "The channel, 1 to 999"))?
        .arg(wanted_word(alloc, "NAME", tables))
}

fn timecode_command<'a>(alloc: Global) -> Result<Command<'a>, AllocError>
    ensures { IfOk result (IsSubcommand timecode_words) }
{
    let label = "A label, as 06:00:00:00, or - for lines of labels and of frames";
    rate_command(alloc, "tc", "Prints the frame of a label")?.arg(wanted_word(
        alloc, "LABEL", label,
    ))
}

// A broadcast day, from an empty plan to the match table.
const A_DAY: &str = "\
A broadcast day, from an empty plan to the match table:
  playout answer --db day.db 1,25,06:00:00:00,40 2,25,06:00:00:00,40 < /dev/null
  playout serve --db day.db --port 8080 --turns 1000
and then, as HTTP messages to that port:
  POST /ch/1/tapes, /ch/1/clips     tapes, and the clips on them
  POST /ch/2/offers                 another channel lends a clip
  POST /ch/1/days                   the day is opened
  POST /ch/1/days/1/import/strict   an edit list is imported
  POST /ch/1/days/1/items           an item is added
  POST /ch/1/days/1/seal            the day is sealed
  GET  /ch/1/days/1                 its plan; /ch/1/days/1/list as an edit list
  POST /ch/1/days/1/asrun/1         a batch of what was aired
  GET  /ch/1/days/1/match           what was planned and what went out
docs/broadcast-day has such a day with its answers, docs/FORMATS.md each form.";

// The program's version, the first heading of CHANGELOG.md, and that of the tables in its files.
const VERSION: &str = "1.0.0, tables 2";

// The program's name, what it is, and its version.
fn named_command<'a>(alloc: Global) -> Command<'a>
    ensures { app_of result ≡ record { top = record (new_shape (codes "playout")) { has_version = true }; subs = [] } }
{
    Command::new(alloc, "playout")
        .about("The traffic and tape library office of a playout centre")
        .version(VERSION)
}

fn bare_command<'a>(alloc: Global) -> Command<'a>
    ensures { app_of result ≡ record { top = program_head; subs = [] } }
{
    named_command(alloc)
        .no_binary_name(true)
        .after_help(A_DAY)
        .subcommand_required(true)
}

// The command with this subcommand behind its others, where there was memory for both.
fn with<'a>(
    command: Command<'a>,
    subcommand: Result<Command<'a>, AllocError>,
) -> Result<Command<'a>, AllocError>
    ensures { IfOk result (λ c. (shape : Shape) → IfOk subcommand.entry (IsSubcommand shape) →
        app_of c ≡ with_subcommand (app_of command.entry) shape) }
{
    command.subcommand(subcommand?)
}

fn command<'a>(alloc: Global) -> Result<Command<'a>, AllocError>
    ensures { IfOk result (λ c. app_of c ≡ program) }
{
    let command = with(bare_command(alloc), answer_command(alloc))?;
    let command = with(command, check_command(alloc))?;
    let command = with(command, diff_command(alloc))?;
    let command = with(command, list_command(alloc))?;
    let command = with(command, serve_command(alloc))?;
    let command = with(command, table_command(alloc))?;
    with(command, timecode_command(alloc))
}

// The first value of a word or an option.
fn text_in<'a>(found: &ArgMatches<'a>, name: &str) -> Option<&'a str>
    ensures { option_map (λ t. t.now) result ≡ first_of name.now (rows_of (found_of found.now)) }
{
    found.get_str(name)
}

fn answer_asked<'a>(alloc: Global, found: &ArgMatches<'a>) -> Result<Action<'a>, AllocError>
    ensures { IfOk result (AsksFor (codes "answer") (rows_of (found_of found.now))) }
{
    let rows = words_in(alloc, found, "ROW")?;
    Ok(match text_in(found, "db") {
        Some(file) => Action::AnswerFile(file, rows),
        None => Action::Answer(rows),
    })
}

// The words of a name, as they stand.
fn words_in<'a>(
    alloc: Global,
    found: &ArgMatches<'a>,
    name: &str,
) -> Result<Vec<&'a str>, AllocError>
    ensures { IfOk result (λ v. map (λ t. t.now) v.items
        ≡ unwrap_or (all_of name.now (rows_of (found_of found.now))) []) }
{
    match found.get_strs(name) {
        Some(words) => Vec::from_slice(alloc, words),
        None => Ok(Vec::new(alloc)),
    }
}

// The rate that RATE names.
fn rate_in(found: &ArgMatches<'_>) -> Option<Rate>
    ensures rate { IfSome result
        (λ rate. first_of (codes "RATE") (rows_of (found_of found.now)) ≡ Some (rate_text rate)) }
    ensures none { IfNone result ((rate : Rate) →
        first_of (codes "RATE") (rows_of (found_of found.now)) ≡ Some (rate_text rate) → ⊥) }
{
    match text_in(found, "RATE") {
        Some(text) => Rate::from_text(text.as_bytes()),
        None => None,
    }
}

fn check_asked<'a>(found: &ArgMatches<'a>, files: Vec<&'a str>) -> Result<Action<'a>, &'static str>
    requires { map (λ t. t.now) files.items ≡ unwrap_or (all_of (codes "FILE") (rows_of (found_of found.now))) [] }
    ensures asks { IfOk result (AsksFor (codes "check") (rows_of (found_of found.now))) }
    ensures none { OnErr result (AskNothingOf (codes "check") (rows_of (found_of found.now))) }
{
    match rate_in(found) {
        Some(rate) if files.is_empty() => Ok(Action::Check(rate)),
        Some(rate) => Ok(Action::CheckFiles(rate, files)),
        None => Err("RATE is 24, 25, 30 or df"),
    }
}

fn diff_asked<'a>(found: &ArgMatches<'a>) -> Result<Action<'a>, &'static str>
    ensures asks { IfOk result (AsksFor (codes "diff") (rows_of (found_of found.now))) }
    ensures none { OnErr result (AskNothingOf (codes "diff") (rows_of (found_of found.now))) }
{
    let Some(rate) = rate_in(found) else {
        return Err("RATE is 24, 25, 30 or df");
    };
    let Some(one) = text_in(found, "A") else {
        return Err("a file A is wanted");
    };
    match text_in(found, "B") {
        Some(other) => Ok(Action::Compare { rate, one, other }),
        None => Err("a file B is wanted"),
    }
}

// Whether a flag is among the words.
fn has_flag(found: &ArgMatches<'_>, name: &str) -> bool
    ensures { IsTrue result ↔ (first_of name.now (rows_of (found_of found.now)) ≡ Some (codes "true")) }
{
    match text_in(found, name) {
        Some(value) => value == "true",
        None => false,
    }
}

// The form that the flags say, which is one.
fn form_in(found: &ArgMatches<'_>) -> Option<EventForm>
    ensures form { IfSome result (SaysForm (rows_of (found_of found.now))) }
    ensures none { IfNone result ((form : EventForm) → SaysForm (rows_of (found_of found.now)) form → ⊥) }
{
    match (has_flag(found, "json"), has_flag(found, "csv")) {
        (true, true) => None,
        (false, true) => Some(EventForm::Csv),
        (_, false) => Some(EventForm::Json),
    }
}

fn list_asked<'a>(found: &ArgMatches<'a>) -> Result<Action<'a>, &'static str>
    ensures asks { IfOk result (AsksFor (codes "list") (rows_of (found_of found.now))) }
    ensures none { OnErr result (AskNothingOf (codes "list") (rows_of (found_of found.now))) }
{
    let Some(rate) = rate_in(found) else {
        return Err("RATE is 24, 25, 30 or df");
    };
    match form_in(found) {
        Some(form) => Ok(Action::Events(rate, form)),
        None => Err("--json or --csv, and not both"),
    }
}

fn timecode_asked<'a>(found: &ArgMatches<'a>) -> Result<Action<'a>, &'static str>
    ensures asks { IfOk result (AsksFor (codes "tc") (rows_of (found_of found.now))) }
    ensures none { OnErr result (AskNothingOf (codes "tc") (rows_of (found_of found.now))) }
{
    let Some(rate) = rate_in(found) else {
        return Err("RATE is 24, 25, 30 or df");
    };
    match text_in(found, "LABEL") {
        Some(label) => Ok(Action::Timecode(rate, label)),
        None => Err("a LABEL is wanted"),
    }
}

// A number of an option, of at most so many digits, in a range.
fn number_in(
    found: &ArgMatches<'_>,
    option: &str,
    digits: usize,
    least: u64,
    most: u64,
) -> Option<u64>
    requires { digits ≤ 10 }
    ensures says { IfSome result (λ n. SaysNumber option.now digits (rows_of (found_of found.now)) n
        × (least ≤ n) × (n ≤ most)) }
    ensures none { IfNone result ((n : ℕ) → SaysNumber option.now digits (rows_of (found_of found.now)) n →
        least ≤ n → n ≤ most → ⊥) }
{
    let text = text_in(found, option)?;
    let n = decimal_number(text.as_bytes(), digits)?;
    if least <= n && n <= most {
        Some(n)
    } else {
        None
    }
}

// How many connections are served in all, where so many may be open at once.
fn turns_in(found: &ArgMatches<'_>, peers: u64) -> Option<Option<u32>>
    ensures says { IfSome result (SaysTurns (rows_of (found_of found.now)) peers) }
    ensures none { IfNone result ((turns : Option ℕ) → SaysTurns (rows_of (found_of found.now)) peers turns → ⊥) }
{
    match text_in(found, "turns") {
        Some(_) => match number_in(found, "turns", 7, 1, 1_000_000) {
            Some(turns) => Some(Some(turns as u32)),
            None => None,
        },
        None if peers > 1 => Some(None),
        None => None,
    }
}

fn serve_asked<'a>(found: &ArgMatches<'a>) -> Result<Action<'a>, &'static str>
    ensures asks { IfOk result (AsksFor (codes "serve") (rows_of (found_of found.now))) }
    ensures none { OnErr result (AskNothingOf (codes "serve") (rows_of (found_of found.now))) }
{
    let Some(file) = text_in(found, "db") else {
        return Err("a FILE is wanted");
    };
    let Some(port) = number_in(found, "port", 5, 0, 65_535) else {
        return Err("the port is 0 to 65535");
    };
    let Some(peers) = number_in(found, "peers", 5, 1, 10_000) else {
        return Err("the peers are 1 to 10000");
    };
    let Some(turns) = turns_in(found, peers) else {
        return Err("the turns are 1 to 1000000");
    };
    let Some(idle) = number_in(found, "idle", 4, 1, 3_600) else {
        return Err("the idle seconds are 1 to 3600");
    };
    Ok(Action::Serve {
        file,
        port: port as u16,
        peers: peers as u16,
        turns,
        idle: idle as u16,
    })
}

// The table of this name.
fn table_named(name: &str) -> Option<TableName>
    ensures table { IfSome result (λ table. table_name table ≡ name.now) }
    ensures none { IfNone result ((table : TableName) → table_name table ≡ name.now → ⊥) }
{
    match name.as_bytes() {
        b"vault" => Some(TableName::Vault),
        b"clips" => Some(TableName::Clips),
        b"offers" => Some(TableName::Offers),
        b"lent" => Some(TableName::Lent),
        b"days" => Some(TableName::Days),
        _ => None,
    }
}

// The table that NAME names.
fn table_in(found: &ArgMatches<'_>) -> Option<TableName>
    ensures table { IfSome result
        (λ table. first_of (codes "NAME") (rows_of (found_of found.now)) ≡ Some (table_name table)) }
    ensures none { IfNone result ((table : TableName) →
        first_of (codes "NAME") (rows_of (found_of found.now)) ≡ Some (table_name table) → ⊥) }
{
    match text_in(found, "NAME") {
        Some(name) => table_named(name),
        None => None,
    }
}

fn table_asked<'a>(found: &ArgMatches<'a>) -> Result<Action<'a>, &'static str>
    ensures asks { IfOk result (AsksFor (codes "table") (rows_of (found_of found.now))) }
    ensures none { OnErr result (AskNothingOf (codes "table") (rows_of (found_of found.now))) }
{
    let Some(file) = text_in(found, "db") else {
        return Err("a FILE is wanted");
    };
    let Some(channel) = number_in(found, "ch", 3, 1, 999) else {
        return Err("the channel is 1 to 999");
    };
    match table_in(found) {
        Some(table) => Ok(Action::Table {
            file,
            channel: channel as u16,
            table,
        }),
        None => Err("NAME is vault, clips, offers, lent or days"),
    }
}

// The files that are to be checked, which other subcommands don't have.
fn files_in<'a>(
    alloc: Global,
    name: &str,
    found: &ArgMatches<'a>,
) -> Result<Vec<&'a str>, AllocError>
    ensures { IfOk result (λ v. name.now ≡ codes "check" → map (λ t. t.now) v.items
        ≡ unwrap_or (all_of (codes "FILE") (rows_of (found_of found.now))) []) }
{
    match name.as_bytes() {
        b"check" => words_in(alloc, found, "FILE"),
        _ => Ok(Vec::new(alloc)),
    }
}

// What a subcommand asks for, or what its words should be.
fn asked_of<'a>(
    name: &str,
    found: &ArgMatches<'a>,
    files: Vec<&'a str>,
) -> Result<Action<'a>, &'static str>
    requires { name.now ≡ codes "check" → map (λ t. t.now) files.items
        ≡ unwrap_or (all_of (codes "FILE") (rows_of (found_of found.now))) [] }
    ensures asks { IfOk result (AsksFor name.now (rows_of (found_of found.now))) }
    ensures none { name.now ≢ codes "answer" →
        OnErr result (AskNothingOf name.now (rows_of (found_of found.now))) }
{
    match name.as_bytes() {
        b"check" => check_asked(found, files),
        b"diff" => diff_asked(found),
        b"list" => list_asked(found),
        b"serve" => serve_asked(found),
        b"table" => table_asked(found),
        b"tc" => timecode_asked(found),
        _ => Err("a word is wanted"),
    }
}

fn misused(alloc: Global, message: &str) -> Result<Error, AllocError>
    ensures { IfOk result (λ e. kind_of e ≡ ErrorKind.InvalidValue) }
{
    command(alloc)?.error(ErrorKind::InvalidValue, message)
}

// What was found asks for this, or for nothing.
fn action_in<'a>(alloc: Global, name: &str, found: &ArgMatches<'a>) -> Result<Action<'a>, Error>
    ensures asks { IfOk result (AsksFor name.now (rows_of (found_of found.now))) }
    ensures fails { IfErr result (λ e. (kind_of e ≡ ErrorKind.OutOfMemory)
        ⊎ ((kind_of e ≡ ErrorKind.InvalidValue) × AskNothingOf name.now (rows_of (found_of found.now)))) }
{
    if name.as_bytes() == b"answer".as_slice() {
        return Ok(answer_asked(alloc, found)?);
    }
    let files = files_in(alloc, name, found)?;
    match asked_of(name, found, files) {
        Ok(action) => Ok(action),
        Err(message) => Err(misused(alloc, message)?),
    }
}

// What the subcommand that was met asks for.
fn action_met<'a>(alloc: Global, matches: &ArgMatches<'a>) -> Result<Action<'a>, Error>
    ensures asks { IfOk result (IsAsked (subcommand_rows_of matches.now)) }
    ensures fails { IfErr result (λ e. (kind_of e ≡ ErrorKind.OutOfMemory) ⊎ ((kind_of e ≡ ErrorKind.InvalidValue)
        × ((action : Action) → IsAsked (subcommand_rows_of matches.now) action → ⊥))) }
{
    match matches.subcommand() {
        Some((name, found)) => action_in(alloc, name, found),
        None => Err(misused(alloc, "a word is wanted")?),
    }
}

fn action_of<'a>(alloc: Global, words: &'a [String]) -> Result<Action<'a>, Error>
    ensures asks { IfOk result (AreAsking (map string_bytes words.now)) }
    ensures fails { IfErr result (λ e. takes program (map string_bytes words.now) ≡ true →
        (kind_of e ≡ ErrorKind.OutOfMemory) ⊎ AskForNothing (map string_bytes words.now)) }
    // It has a kind that `clap` gives at the words; or they are taken, and what they say is none.
    ensures ends { IfErr result (λ e. HasKind (fault_of program (map string_bytes words.now)) e
        ⊎ ((fault_of program (map string_bytes words.now) ≡ []) × (kind_of e ≡ ErrorKind.InvalidValue)
        × AskForNothing (map string_bytes words.now))) }
{
    let command = command(alloc)?;
    match command.try_get_matches_from(words) {
        Ok(matches) => action_met(alloc, &matches),
        Err(error) => Err(error),
    }
}

// The text of an error. One that says nothing would leave who typed the words without a hint.
fn text_of(alloc: Global, error: &Error) -> Result<String, AllocError>
    ensures { IfOk result (λ text. string_bytes text ≢ []) }
{
    let mut text = format!(in alloc; "{error}")?;
    if text.is_empty() {
        text.push_str("--help says what the words may be\n")?;
    }
    Ok(text)
}

// What is told of words that ask for nothing.
fn explanation(alloc: Global, error: &Error) -> Result<NoAction, AllocError>
    ensures memory { IfOk result (λ said. kind_of error.now ≡ ErrorKind.OutOfMemory → said ≡ NoAction.Unavailable) }
    ensures told { IfOk result (IsToldOf (kind_of error.now)) }
{
    if error.kind() == ErrorKind::OutOfMemory {
        return Ok(NoAction::Unavailable);
    }
    let text = text_of(alloc, error)?;
    Ok(match error.use_stderr() {
        true => NoAction::Usage(text),
        false => NoAction::Help(text),
    })
}

fn no_action(alloc: Global, error: &Error) -> NoAction
    ensures memory { kind_of error.now ≡ ErrorKind.OutOfMemory → result ≡ NoAction.Unavailable }
    ensures told { IsToldOf (kind_of error.now) result }
{
    match explanation(alloc, error) {
        Ok(said) => said,
        Err(_) => NoAction::Unavailable,
    }
}

/// Reads the words, the program's name left out: what they ask for, or why they ask for nothing. They ask for nothing
/// where `clap` doesn't take them as words of the command that stands here, or where a rate, a table or a number said
/// in them is none: a channel is 1 to 999, peers are 1 to 10,000, turns 1 to 1,000,000, and idle seconds 1 to 3,600.
pub fn read_words<'a>(alloc: Global, words: &'a [String]) -> Result<Action<'a>, NoAction>
    ensures { AreRead (map string_bytes words.now) result }
{
    match action_of(alloc, words) {
        Ok(action) => Ok(action),
        Err(error) => Err(no_action(alloc, &error)),
    }
}
