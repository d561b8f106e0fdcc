//! What the words of the command line ask for.
ghost use Rattle.std.specs.Prelude.{◌≡◌, ◌<◌, ◌↔◌, ℕ, List, [], ◌∷◌, codes, decimal, drop, map, option_map, string_bytes, IfErr, IfOk, IsErr, Some, None, true};
ghost use Rattle.std.specs.IoError.{error_kind};
ghost use Rattle.std.specs.List.{list_any};
ghost use Rattle.std.specs.Vec.Iter.{into_iter_items};
ghost use Rattle.clap.specs.Words.{found_of, kind_of, rows_of, subcommand_rows_of};
ghost use Rattle.pm_words.specs.Lists.{wanted_of};
ghost use Rattle.pm_words.specs.Told.{asks_journal, IsText, IsValue, Tells, TellsMet};
ghost use Rattle.pm_words.specs.Words.{is_flag, words_of, AskFile, AskRun, AskGenerate, AskServe, AskServeJournal, AskRequestLines, AskExport, AskOther, HasFile, IsAsked};

use crate::command::make_command;
use crate::grammar::{FILE, PORT, SIZE, WORKERS, Wanted};
use clap::error::ErrorKind as Refusal;
use clap::{ArgMatches, Error};
use itoa::Buffer;
use pm_model::Memory;
use std::alloc::{AllocError, Global};
use std::env::Args;
use std::io;
use std::io::ErrorKind;

/// What the words ask for.
#[derive(Clone, Copy, Debug, PartialEq, Eq)]
pub enum Asked {
    /// Replies to the lines of the input.
    Run,
    /// A run of the generated policy of this size.
    Generate { size: u16 },
    /// A server on this port, with so many workers.
    Serve { port: u16, workers: u16 },
    /// The same, with a journal in the file that `file_in` tells.
    ServeJournal { port: u16, workers: u16 },
    /// The request lines that make the policy document of the input.
    RequestLines,
    /// The policy document of the machine that the lines of the input make.
    Export,
}

// The number that the word is, in decimal digits with no zero in front.
fn number(word: &str) -> Option<u16>
    ensures { (n : ℕ) → (result ≡ Some n) ↔ ((word.now ≡ decimal n) × (n < 65536)) }
{
    let Ok(number) = u16::from_str_radix(word, 10) else {
        return None;
    };
    let mut buffer = Buffer::new();
    if buffer.format(number) == word {
        return Some(number);
    }
    None
}

// The value of this name, where it is a number within its bounds.
fn value(values: &ArgMatches<'_>, wanted: &Wanted) -> Option<u16>
    ensures { (n : ℕ) → (result ≡ Some n) ↔ IsValue (found_of values.now) (wanted_of wanted.now) n }
{
    let (name, least, most) = *wanted;
    let value = number(values.get_str(name)?)?;
    if value < least || most < value {
        return None;
    }
    Some(value)
}

// The value of this name, where it isn't empty.
fn text<'a>(values: &ArgMatches<'a>, label: &str) -> Option<&'a str>
    ensures { (t : List ℕ) → (option_map (λ text. text.now) result ≡ Some t) ↔ IsText (found_of values.now) label.now t }
{
    let text = values.get_str(label)?;
    if text.is_empty() {
        return None;
    }
    Some(text)
}

// The run that the value of `generate` asks for.
fn generator(values: &ArgMatches<'_>) -> Option<Asked>
    ensures { (words : List (List ℕ)) → Tells words (codes "generate") (rows_of (found_of values.now)) → IsAsked words result }
{
    let size = value(values, &SIZE)?;
    Some(Asked::Generate { size })
}

// The server that the values of `serve` ask for.
fn server(values: &ArgMatches<'_>) -> Option<Asked>
    ensures { (words : List (List ℕ)) → Tells words (codes "serve") (rows_of (found_of values.now)) → IsAsked words result }
{
    let port = value(values, &PORT)?;
    let workers = value(values, &WORKERS)?;
    Some(Asked::Serve { port, workers })
}

// The server with a journal that the values of `serve-journal` ask for.
fn journal_server(values: &ArgMatches<'_>) -> Option<Asked>
    ensures { (words : List (List ℕ)) → Tells words (codes "serve-journal") (rows_of (found_of values.now)) → IsAsked words result }
{
    let port = value(values, &PORT)?;
    let workers = value(values, &WORKERS)?;
    let _file = text(values, FILE)?;
    Some(Asked::ServeJournal { port, workers })
}

// What the word of this name asks for with these values.
fn told_by(name: &str, values: &ArgMatches<'_>) -> Option<Asked>
    ensures { (words : List (List ℕ)) → Tells words name.now (rows_of (found_of values.now)) → IsAsked words result }
{
    match name {
        "run" => Some(Asked::Run),
        "generate" => generator(values),
        "serve" => server(values),
        "serve-journal" => journal_server(values),
        "request-lines" => Some(Asked::RequestLines),
        "export" => Some(Asked::Export),
        _ => None,
    }
}

// What the words ask for that the matches tell.
fn told(matches: &ArgMatches<'_>) -> Option<Asked>
    ensures { (words : List (List ℕ)) → TellsMet words (subcommand_rows_of matches.now) → IsAsked words result }
{
    let (name, values) = matches.subcommand()?;
    told_by(name, values)
}

// Whether the word begins with `-`.
fn is_flag(word: &str) -> bool
    ensures { result ≡ is_flag word.now }
{
    word.starts_with('-')
}

// Whether one of the words begins with `-`.
fn has_flag(words: &[String]) -> bool
    ensures { result ≡ list_any (λ word. is_flag (string_bytes word)) words.now }
{
    words.iter().any(|word| is_flag(word.as_str()))
}

// Whether the words were refused for want of memory.
fn lacks_memory(error: &Error) -> bool
    ensures { (result ≡ true) ↔ (kind_of error.now ≡ Refusal.OutOfMemory) }
{
    error.kind() == Refusal::OutOfMemory
}

// What the words ask for.
fn asked_in<'a>(alloc: Global, words: &'a [String]) -> Result<Option<Asked>, Memory>
    ensures { IfOk result (IsAsked (map string_bytes words.entry.now)) }
{
    if has_flag(words) {
        return Ok(None);
    }
    match make_command(alloc)?.try_get_matches_from(words) {
        Ok(matches) => Ok(told(&matches)),
        Err(error) if lacks_memory(&error) => Err(Memory),
        Err(_) => Ok(None),
    }
}

// The words behind the program's name.
fn words_in(alloc: Global, mut args: Args) -> Result<Vec<String>, AllocError>
    ensures { IfOk result (λ words. words.items ≡ drop 1 (into_iter_items args)) }
{
    let _name = args.next();
    args.collect(alloc)
}

/// What the words, as the system gives them, ask for; None where they are outside the grammar.
///
/// To read them takes memory, and where there is none the words are not told.
pub fn read_words(alloc: Global, args: io::Result<Args>) -> Result<Option<Asked>, Memory>
    ensures run { IfOk result (λ asked. (asked ≡ Some Asked.Run) ↔ AskRun args) }
    ensures generate { (n : ℕ) → IfOk result (λ asked. (asked ≡ Some (Asked.Generate n)) ↔ AskGenerate args n) }
    ensures serve { (p w : ℕ) → IfOk result (λ asked. (asked ≡ Some (Asked.Serve p w)) ↔ AskServe args p w) }
    ensures serve_journal { (p w : ℕ) → IfOk result (λ asked. (asked ≡ Some (Asked.ServeJournal p w)) ↔ AskServeJournal args p w) }
    ensures request_lines { IfOk result (λ asked. (asked ≡ Some Asked.RequestLines) ↔ AskRequestLines args) }
    ensures export { IfOk result (λ asked. (asked ≡ Some Asked.Export) ↔ AskExport args) }
    ensures other { IfOk result (λ asked. (asked ≡ None) ↔ AskOther args) }
    ensures memory { IfErr args (λ error. IsErr result ↔ (error_kind error ≡ ErrorKind.OutOfMemory)) }
{
    match args {
        Ok(args) => {
            let words = words_in(alloc, args)?;
            asked_in(alloc, words.as_slice())
        }
        Err(error) if error.kind() == ErrorKind::OutOfMemory => Err(Memory),
        Err(_) => Ok(None),
    }
}

// Whether a server with a journal is asked for.
fn asks_journal(asked: Option<Asked>) -> bool
    ensures { result ≡ asks_journal asked }
{
    matches!(asked, Some(Asked::ServeJournal { .. }))
}

// The file of the journal that the words ask for; None where they ask for none.
fn file_behind(alloc: Global, args: Args) -> Result<Option<String>, Memory>
    ensures { (text : List ℕ) → IfOk result (λ file. (option_map string_bytes file ≡ Some text) ↔ HasFile (words_of args) text) }
{
    let mut words = words_in(alloc, args)?;
    let asked = asked_in(alloc, words.as_slice())?;
    if asks_journal(asked) {
        return Ok(words.pop());
    }
    Ok(None)
}

/// The file of the journal that the words, as the system gives them, ask for; None where they ask for none.
///
/// To read them takes memory, and where there is none the file is not told.
pub fn file_in(alloc: Global, args: io::Result<Args>) -> Result<Option<String>, Memory>
    ensures file { (text : List ℕ) → IfOk result (λ file. (option_map string_bytes file ≡ Some text) ↔ AskFile args text) }
    ensures memory { IfErr args (λ error. IsErr result ↔ (error_kind error ≡ ErrorKind.OutOfMemory)) }
{
    match args {
        Ok(args) => file_behind(alloc, args),
        Err(error) if error.kind() == ErrorKind::OutOfMemory => Err(Memory),
        Err(_) => Ok(None),
    }
}
