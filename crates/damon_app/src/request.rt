ghost use Rattle.std.specs.Prelude.{◌≡◌, ◌≢◌, IfOk, None, false, map};
ghost use Rattle.std.specs.Option.{option_copied};
ghost use Rattle.clap.specs.Words.{kind_of, subcommand_rows_of};
ghost use Rattle.damon_app.specs.Parser.{begins_with_hyphen, by_number, has_option, request_found, words_found};
ghost use Rattle.damon_app.specs.Request.{asked, asked_alone, asked_to_tune, asked_with, columns_of};

use crate::command::make_command;
use crate::goal_words::goals_of;
use clap::error::ErrorKind;
use clap::{ArgMatches, Error};
use line_text::read_number;
use quota_goal::Goals;
use snapshot_print::Form;
use std::alloc::{AllocError, Global};

/// What the words after the program's name ask for.
#[derive(Debug, Drop)]
pub enum Request {
    /// To read a script, to run it, and to write its report.
    Report { run: Run },
    /// To check the text of a journal, and to write a line of its counts: `verify`.
    Verify,
    /// To check the text of a journal, and to write its heat tables with this number of columns for each
    /// target: `heat N`.
    Heat { columns: Columns },
    /// To read the lines of up to eight contexts, to run the script of each, and to write what they say:
    /// `admin`.
    Admin,
    /// To run the generated script of a number, and to write a line about it: `gen N`. Nothing is
    /// read.
    Generate { number: u64 },
}

/// How a script is run.
#[derive(Debug, Drop)]
pub enum Run {
    /// As it stands, with its report in a form: `replay` for lines of text, `json` for JSON lines.
    Plain { form: Form },
    /// Over a model of resident pages: `reclaim`.
    Reclaim,
    /// With quotas that follow 1 to 16 goals: `tune GOALS`.
    Tune { goals: Goals },
}

/// The columns of a heat table.
#[derive(Clone, Copy, Debug, PartialEq, Eq)]
pub enum Columns {
    /// 8 columns.
    Eight,
    /// 16 columns.
    Sixteen,
    /// 64 columns.
    SixtyFour,
}

// What the words ask for; `None` if they are no request. Memory may run out.
pub(crate) fn read_request(alloc: Global, words: &[String]) -> Result<Option<Request>, AllocError>
    ensures { IfOk result (λ request. request ≡ asked words.now) }
{
    // There are no options.
    if has_option(words) {
        return Ok(None);
    }
    parse(alloc, words)
}

// Whether a word begins with a hyphen.
fn has_option(words: &[String]) -> bool
    ensures { result ≡ has_option words.now }
{
    words.iter().any(|word| begins_with_hyphen(word.as_bytes()))
}

// Whether this word begins with a hyphen.
fn begins_with_hyphen(word: &[u8]) -> bool
    ensures { result ≡ begins_with_hyphen word.now }
{
    match word {
        [first, ..] => *first == b'-',
        [] => false,
    }
}

// What words ask for, none of which begins with a hyphen.
fn parse(alloc: Global, words: &[String]) -> Result<Option<Request>, AllocError>
    requires { has_option words.now ≡ false }
    ensures { IfOk result (λ request. request ≡ asked words.now) }
{
    let command = make_command(alloc)?;
    match command.try_get_matches_from(words) {
        Ok(matches) => Ok(request_in(&matches)),
        // What clap would print is never printed.
        Err(error) => refusal(&error),
    }
}

// What a failed parse comes to: out of memory, or no request.
fn refusal(error: &Error) -> Result<Option<Request>, AllocError>
    ensures { IfOk result (λ request.
        (request ≡ None) × (kind_of error.now ≢ ErrorKind.OutOfMemory)) }
{
    if error.kind() == ErrorKind::OutOfMemory {
        Err(AllocError)
    } else {
        Ok(None)
    }
}

// What the subcommand asks for that was found.
fn request_in(matches: &ArgMatches) -> Option<Request>
    ensures { result ≡ request_found (words_found (subcommand_rows_of matches.now)) }
{
    let (name, found) = matches.subcommand()?;
    match found.get_strs("goals") {
        Some(words) => asked_to_tune(words),
        None => asked_by_number(name, found.get_str("number")),
    }
}

// What a subcommand without goals asks for, with a number or without.
fn asked_by_number(name: &str, number: Option<&str>) -> Option<Request>
    ensures { result ≡ by_number name.now (option_copied number.entry) }
{
    match number {
        Some(number) => asked_with(name.as_bytes(), number.as_bytes()),
        None => asked_alone(name.as_bytes()),
    }
}

// What the words after `tune` ask for.
fn asked_to_tune(words: &[&str]) -> Option<Request>
    ensures { result ≡ asked_to_tune (map (λ word. word.now) words.now) }
{
    let goals = goals_of(words)?;
    Some(Request::Report {
        run: Run::Tune { goals },
    })
}

// What one word asks for.
fn asked_alone(word: &[u8]) -> Option<Request>
    ensures { result ≡ asked_alone word.now }
{
    if word == b"replay".as_slice() {
        Some(Request::Report {
            run: Run::Plain { form: Form::Text },
        })
    } else if word == b"json".as_slice() {
        Some(Request::Report {
            run: Run::Plain { form: Form::Json },
        })
    } else if word == b"verify".as_slice() {
        Some(Request::Verify)
    } else if word == b"admin".as_slice() {
        Some(Request::Admin)
    } else if word == b"reclaim".as_slice() {
        Some(Request::Report { run: Run::Reclaim })
    } else {
        None
    }
}

// What two words ask for.
fn asked_with(word: &[u8], number: &[u8]) -> Option<Request>
    ensures { result ≡ asked_with word.now number.now }
{
    if word == b"gen".as_slice() {
        let number = read_number(number, u64::MAX)?;
        Some(Request::Generate { number })
    } else if word == b"heat".as_slice() {
        let columns = columns_of(number)?;
        Some(Request::Heat { columns })
    } else {
        None
    }
}

// The number of columns that a word says.
fn columns_of(word: &[u8]) -> Option<Columns>
    ensures { result ≡ columns_of word.now }
{
    if word == b"8".as_slice() {
        Some(Columns::Eight)
    } else if word == b"16".as_slice() {
        Some(Columns::Sixteen)
    } else if word == b"64".as_slice() {
        Some(Columns::SixtyFour)
    } else {
        None
    }
}
