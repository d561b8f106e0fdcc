//! Reads the lines of replies on standard input, and prints each again; an empty line in place of one that is no reply. With
//! two words, for measurement: how many times the lines are read, and how many times what they say is printed; then it tells
//! how many are replies.
#![tactic(auto)]

use pm_model::Memory;
use pm_print::print_reply;
use pm_replies::{Numbered, ReplyError, ReplyLine, read_reply, with_numbers};
use std::alloc::Global;
use std::env;
use std::env::Args;
use std::io::{Read, Write};
use std::marker::Model;
use std::process::ExitCode;

/// The next word as a number.
fn number(args: &mut Args) -> Option<u32> {
    args.next()?.parse::<u32>().ok()
}

/// What a line says, and the same to be printed: each element that it tells has a name.
struct Told {
    line: ReplyLine,
    numbered: Numbered,
}

impl Drop for Told {
    fn drop(self) {
        let Told {
            line: _,
            numbered: _,
        } = self;
    }
}

impl Model for Told {
    ghost use Rattle.pm_model.specs.Nameable.{IsNameable};
    ghost use Rattle.pm_replies.specs.Numbered.{is_among};
    ghost use Rattle.pm_replies.specs.declared.texts.ReplyLine.{ReplyLine};

    ghost Value = { ReplyLine };

    ghost view = { λ t. t.line };

    ghost invariant = { λ t. IsNameable (is_among t.numbered.names.list) t.numbered.reply };
}

/// How many of the lines are replies.
fn read_all(alloc: Global, text: &[u8]) -> usize {
    let mut count = 0usize;
    for line in text.split(|byte| *byte == b'\n') {
        if read_reply(alloc, line).is_ok() {
            count = count.saturating_add(1);
        }
    }
    count
}

/// What the lines that are replies say.
fn tell_all(alloc: Global, text: &[u8]) -> Result<Vec<Told>, Memory> {
    let mut all = Vec::new(alloc);
    for piece in text.split(|byte| *byte == b'\n') {
        if let Ok(line) = read_reply(alloc, piece) {
            let numbered = with_numbers(alloc, &line.text)?;
            all.push(Told { line, numbered })?;
        }
    }
    Ok(all)
}

/// Puts the lines of the replies where others stood.
fn print_all(all: &[Told], out: &mut Vec<u8>) -> Result<(), Memory> {
    out.clear();
    for told in all {
        let numbered = &told.numbered;
        let line = &told.line;
        print_reply(line.id, line.version, &numbered.reply, &numbered.names, out)?;
    }
    Ok(())
}

/// How many of the lines are replies, and whether they are printed as they stand.
fn measure(alloc: Global, text: &[u8], reads: u32, prints: u32) -> Result<(usize, bool), Memory> {
    let all = tell_all(alloc, text)?;
    let mut out = Vec::new(alloc);
    print_all(all.as_slice(), &mut out)?;
    let mut same = out.as_slice() == text;
    for _ in 0..reads {
        same = same && read_all(alloc, text) == all.len();
    }
    for _ in 0..prints {
        print_all(all.as_slice(), &mut out)?;
    }
    Ok((all.len(), same && out.as_slice() == text))
}

/// Puts the reply that the line is behind the others, or an empty line where it is none.
fn print_again(alloc: Global, line: &[u8], out: &mut Vec<u8>) -> Result<(), Memory> {
    match read_reply(alloc, line) {
        Ok(said) => {
            let told = with_numbers(alloc, &said.text)?;
            print_reply(said.id, said.version, &told.reply, &told.names, out)
        }
        Err(ReplyError::NotReply) => Ok(out.push(b'\n')?),
        Err(ReplyError::Memory) => Err(Memory),
    }
}

/// What is printed for all the lines.
fn all_again(alloc: Global, text: &[u8]) -> Result<Vec<u8>, Memory> {
    let mut out = Vec::new(alloc);
    let lines = text.strip_suffix(b"\n").unwrap_or(text);
    for line in lines.split(|byte| *byte == b'\n') {
        print_again(alloc, line, &mut out)?;
    }
    Ok(out)
}

/// What is said of the lines: the replies, or how many there are where they are read and printed so often.
fn said(
    alloc: Global,
    text: &[u8],
    reads: Option<u32>,
    prints: Option<u32>,
) -> Result<Vec<u8>, Memory> {
    let (Some(reads), Some(prints)) = (reads, prints) else {
        return all_again(alloc, text);
    };
    let (count, same) = measure(alloc, text, reads, prints)?;
    let told = format!(in alloc; "{count} replies, printed as they stand: {same}\n")?;
    Ok(told.into_bytes())
}

fn main(rt: HostRuntime) -> ExitCode {
    let Ok(mut args) = env::args(&rt) else {
        return ExitCode::FAILURE;
    };
    let _name = args.next();
    let (reads, prints) = (number(&mut args), number(&mut args));
    let mut text = Vec::new(rt.alloc());
    if rt.stdin().read_to_end(&mut text).is_err() {
        return ExitCode::FAILURE;
    }
    let Ok(told) = said(rt.alloc(), text.as_slice(), reads, prints) else {
        return ExitCode::FAILURE;
    };
    match rt.stdout().write_all(told.as_slice()) {
        Ok(()) => ExitCode::SUCCESS,
        Err(_) => ExitCode::FAILURE,
    }
}
