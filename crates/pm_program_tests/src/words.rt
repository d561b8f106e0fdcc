//! Words, and what they ask for.

use pm_model::Memory;
use pm_words::{Asked, file_in, read_words};
use std::alloc::{AllocError, Global};
use std::env::Args;
use std::io::{Error, ErrorKind};
use std::test::Fail;

// Lines outside the grammar, with a comma between two words.
const OUTSIDE: &str = "
,,
run,x
run,run
run,
,run
 run
run 
RUN
ru
runs
walk
generate
generate,
generate,0
generate,03
generate,201
generate,65537
generate,3,4
generate,-1
generate,+1
generate,1.0
generate,x
generate,3,
generate, 3
generate,--,3
generators,3
Generate,3
generate=3
generate,N
help,generate
serve
serve,80
serve,,1
serve,80,
serve,080,1
serve,00,1
serve,80,01
serve,+80,1
serve,80,+1
serve,-80,1
serve,80,-1
serve,65536,1
serve,18446744073709551616,1
serve,80,0
serve,80,33
serve,80,65537
serve,0x50,1
serve,8o,1
serve, 80,1
serve,80 ,1
serve,8_0,1
serve,80.0,1
serve,\u{664},1
serve,80,1,1
serve,80,1,
serve,80,1,run
serve,serve,80,1
serve,--,80,1
serve,80,--,1
serve,80,1,--
Serve,80,1
server,80,1
serve=80,1
serve-journal
serve-journal,80
serve-journal,80,1
serve-journal,80,1,
serve-journal,80,1,-
serve-journal,80,1,--
serve-journal,80,1,-kept
serve-journal,80,1,--kept
serve-journal,80,1,--,kept
serve-journal,80,1,kept,
serve-journal,80,1,kept,more
serve-journal,kept,80,1
serve-journal,80,kept,1
serve-journal,kept
serve-journal,080,1,kept
serve-journal,65536,1,kept
serve-journal,80,0,kept
serve-journal,80,33,kept
serve_journal,80,1,kept
serve-journals,80,1,kept
serve-,80,1,kept
serve,80,1,kept
serve,journal,80,1,kept
request-lines,x
request-lines,
request-lines,1
request-lines,--
request_lines
request-line
Request-lines
request,lines
run,request-lines
export,x
export,
export,--
exports
Export
run,export
80,1
PORT,WORKERS
help
help,run
help,serve
run,help
version
-
--
--,run
run,--
run,-
run,-h
run,--help
-h
-V
--help
--help,run
--version
--run
--serve,80,1
--serve-journal,80,1,kept
--port=80";

// The words of the command line, the program's name first.
fn args(alloc: Global, line: &str) -> Result<Args, AllocError> {
    let mut words = vec![in alloc; String::from_str(alloc, "ngac")?]?;
    for text in line.split(',') {
        let word = String::from_str(alloc, text)?;
        words.push(word)?;
    }
    Ok(words.into_iter())
}

// What the words of the line ask for.
fn asked_by(alloc: Global, line: &str) -> Result<Option<Asked>, Memory> {
    let args = args(alloc, line)?;
    read_words(alloc, Ok(args))
}

#[test]
fn words_in_the_grammar(rt: HostRuntime) -> Result<(), Fail> {
    let alloc = rt.alloc();
    assert_eq!(rt; asked_by(alloc, "run")?, Some(Asked::Run));
    assert_eq!(rt;
        asked_by(alloc, "request-lines")?,
        Some(Asked::RequestLines)
    );
    assert_eq!(rt; asked_by(alloc, "export")?, Some(Asked::Export));
    for (line, size) in [
        ("generate,1", 1),
        ("generate,30", 30),
        ("generate,200", 200),
    ] {
        assert_eq!(rt;
            asked_by(alloc, line)?,
            Some(Asked::Generate { size }),
            "{line}"
        );
    }
    let table = [
        ("serve,0,1", 0, 1),
        ("serve,8080,2", 8080, 2),
        ("serve,65535,32", 65535, 32),
    ];
    for (line, port, workers) in table {
        let server = Asked::Serve { port, workers };
        assert_eq!(rt; asked_by(alloc, line)?, Some(server), "{line}");
    }
    Ok(())
}

// The file that the words of the line name.
fn file_by(alloc: Global, line: &str) -> Result<Option<String>, Memory> {
    let args = args(alloc, line)?;
    file_in(alloc, Ok(args))
}

static JOURNALS: &[(&str, u16, u16, &str)] = &[
    ("serve-journal,0,1,kept", 0, 1, "kept"),
    ("serve-journal,65535,32,/a b/c.d", 65535, 32, "/a b/c.d"),
    ("serve-journal,8080,2,run", 8080, 2, "run"),
    ("serve-journal,8080,2,7", 8080, 2, "7"),
    ("serve-journal,8080,2, -", 8080, 2, " -"),
    ("serve-journal,8080,2,\u{e9}", 8080, 2, "\u{e9}"),
];

#[test]
fn words_with_a_file(rt: HostRuntime) -> Result<(), Fail> {
    let alloc = rt.alloc();
    for (line, port, workers, file) in JOURNALS {
        let server = Asked::ServeJournal {
            port: *port,
            workers: *workers,
        };
        assert_eq!(rt; asked_by(alloc, line)?, Some(server), "{line}");
        let found = file_by(alloc, line)?;
        assert!(rt; found.as_deref() == Some(*file), "{line}");
    }
    Ok(())
}

#[test]
fn words_without_a_file(rt: HostRuntime) -> Result<(), Fail> {
    let alloc = rt.alloc();
    for line in ["run", "generate,3", "serve,80,1", "request-lines", "export"] {
        assert!(rt; file_by(alloc, line)?.is_none(), "{line}");
    }
    for line in OUTSIDE.lines() {
        assert!(rt; file_by(alloc, line)?.is_none(), "{line}");
    }
    Ok(())
}

#[test]
fn words_outside_the_grammar(rt: HostRuntime) -> Result<(), Fail> {
    let alloc = rt.alloc();
    for line in OUTSIDE.lines() {
        assert_eq!(rt; asked_by(alloc, line)?, None, "{line}");
    }
    Ok(())
}

// What a line of words with nothing in it asks for.
fn asked_by_none(alloc: Global) -> Result<Option<Asked>, Memory> {
    let none: Vec<String> = Vec::new(alloc);
    read_words(alloc, Ok(none.into_iter()))
}

// What the program's name asks for.
fn asked_by_name(alloc: Global) -> Result<Option<Asked>, Memory> {
    let name = vec![in alloc; String::from_str(alloc, "ngac")?]?;
    read_words(alloc, Ok(name.into_iter()))
}

#[test]
fn no_word_at_all(rt: HostRuntime) -> Result<(), Fail> {
    assert_eq!(rt; asked_by_name(rt.alloc())?, None);
    assert_eq!(rt; asked_by_none(rt.alloc())?, None);
    Ok(())
}

#[test]
fn words_that_cannot_be_had(rt: HostRuntime) {
    let alloc = rt.alloc();
    let no_text = Error::from(ErrorKind::InvalidData);
    assert_eq!(rt; read_words(alloc, Err(no_text)), Ok(None));
    let no_memory = Error::from(ErrorKind::OutOfMemory);
    assert_eq!(rt; read_words(alloc, Err(no_memory)), Err(Memory));
}
