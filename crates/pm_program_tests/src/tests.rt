//! Whole runs over memory: what is written, and how each ends.

use pm_io::{CalmSource, MemSink, MemSource};
use pm_model::{Failed, Memory, Sink, Source};
use pm_program::{say, top};
use pm_run::{Status, run_lines};
use pm_step::Solo;
use std::alloc::{AllocError, Global};
use std::env::Args;
use std::io::{Error, ErrorKind};
use std::process::Abort;
use std::test::Fail;
use std::thread::Threads;

const LIMIT: u64 = 1 << 40;

const ROOM: usize = 65536;

// A line, and the replies to it when it comes first and when it comes again.
static FILES: &[u8] = b"{\"cmd\":\"create_pc\",\"id\":1,\"name\":\"files\",\"proc\":0}\n";

static DONE: &[u8] = b"{\"id\":1,\"ok\":\"done\",\"v\":1}\n";

static TAKEN: &[u8] = b"{\"id\":1,\"no\":\"name_taken\",\"v\":1}\n";

fn joined(alloc: Global, parts: &[&[u8]]) -> Result<Vec<u8>, AllocError> {
    let mut bytes = Vec::new(alloc);
    for part in parts {
        bytes.extend_from_slice(part)?;
    }
    Ok(bytes)
}

// The words of the command line, the program's name first.
fn args(alloc: Global, texts: &[&str]) -> Result<Args, AllocError> {
    let mut words = vec![in alloc; String::from_str(alloc, "ngac")?]?;
    for text in texts {
        let word = String::from_str(alloc, text)?;
        words.push(word)?;
    }
    Ok(words.into_iter())
}

// The numbers of the calls that fail, and the room of `out`.
#[derive(Clone, Copy)]
struct Outside<'a> {
    reads: &'a [u64],
    writes: &'a [u64],
    room: usize,
}

// What a run reads, and what it writes.
#[derive(Drop)]
struct Streams<S> {
    source: S,
    out: MemSink,
    err: MemSink,
}

// The status of the program that is called with these words.
fn called<S: Source + Drop>(
    rt: &(impl Threads + Abort + Alloc<A = Global> + Sync),
    streams: &mut Streams<S>,
    args: Result<Args, Error>,
) -> Status {
    let Streams { source, out, err } = streams;
    top::<Solo, _, _, _, _>(rt, rt.alloc(), args, source, out, err)
}

// What the run failed at, and how much it may write.
fn streams_of(
    alloc: Global,
    outside: &Outside<'_>,
    input: &[u8],
) -> Result<Streams<MemSource>, Memory> {
    Ok(Streams {
        source: MemSource::new(alloc, input, outside.reads)?,
        out: MemSink::new(alloc, outside.room, outside.writes)?,
        err: MemSink::new(alloc, 64, &[])?,
    })
}

// What the program does with the input when it is called with this word.
fn check_word(
    rt: &(impl Threads + Abort + Alloc<A = Global> + Sync),
    word: &str,
    outside: &Outside<'_>,
    input: &[u8],
    status: Status,
    output: &[u8],
) -> Result<(), Fail> {
    let mut streams = streams_of(rt.alloc(), outside, input)?;
    let args = args(rt.alloc(), &[word])?;
    assert_eq!(rt; called(rt, &mut streams, Ok(args)), status);
    assert_eq!(rt; streams.out.taken(), output);
    assert!(rt; streams.err.taken() == status.text().as_bytes());
    Ok(())
}

// What `ngac run` does with it.
fn check_run(
    rt: &(impl Threads + Abort + Alloc<A = Global> + Sync),
    outside: &Outside<'_>,
    input: &[u8],
    status: Status,
    output: &[u8],
) -> Result<(), Fail> {
    check_word(rt, "run", outside, input, status, output)
}

const CALM: Outside<'static> = Outside {
    reads: &[],
    writes: &[],
    room: ROOM,
};

// The line twice, and the replies.
fn twice(alloc: Global) -> Result<(Vec<u8>, Vec<u8>), AllocError> {
    let lines = joined(alloc, &[FILES, FILES])?;
    let replies = joined(alloc, &[DONE, TAKEN])?;
    Ok((lines, replies))
}

static BAD: &[u8] = b"{\"cmd\":\"create_pc\",\"name\":\"files\",\"proc\":1}\n{}\n";

static REFUSALS: &[u8] =
    b"{\"no\":\"unknown_process\",\"v\":0}\n{\"no\":\"not_request\",\"v\":0}\n";

#[test]
fn lines_are_answered(rt: HostRuntime) -> Result<(), Fail> {
    for (input, output) in [
        (b"".as_slice(), b"".as_slice()),
        (FILES, DONE),
        (BAD, REFUSALS),
        (&FILES[..50], b""),
    ] {
        check_run(&rt, &CALM, input, Status::Done, output)?;
    }
    Ok(())
}

#[test]
fn a_name_is_taken_once(rt: HostRuntime) -> Result<(), Fail> {
    let (lines, replies) = twice(rt.alloc())?;
    check_run(&rt, &CALM, &lines, Status::Done, &replies)
}

// The second read comes once the line is answered.
#[test]
fn failed_reads_end_the_run(rt: HostRuntime) -> Result<(), Fail> {
    let second = Outside {
        reads: &[2],
        ..CALM
    };
    check_run(&rt, &second, FILES, Status::ReadFault, DONE)?;
    let first = Outside {
        reads: &[1],
        ..CALM
    };
    check_run(&rt, &first, FILES, Status::ReadFault, b"")
}

#[test]
fn failed_writes_end_the_run(rt: HostRuntime) -> Result<(), Fail> {
    let first = Outside {
        writes: &[1],
        ..CALM
    };
    check_run(&rt, &first, FILES, Status::WriteFault, b"")?;
    let little_room = Outside { room: 5, ..CALM };
    check_run(&rt, &little_room, FILES, Status::WriteFault, b"{\"id\"")
}

// A sink, and how many writes it was asked for.
#[derive(Drop)]
struct Counted {
    sink: MemSink,
    writes: u64,
}

impl Sink for Counted {
    ghost use Rattle.std.specs.Prelude.{Some};

    ghost taken = { λ s. Some s.sink.taken };

    ghost faults = { λ s. s.sink.faults };

    fn write(&mut self, piece: &[u8]) -> Result<usize, Failed> {
        self.writes = self.writes.saturating_add(1);
        self.sink.write(piece)
    }
}

// A run over the input whose read and write of these numbers fail: its status, and how many writes it asked for, of how many
// bytes.
fn written_in(
    rt: &(impl Threads + Abort + Alloc<A = Global> + Sync),
    input: &[u8],
    read: u64,
    write: u64,
) -> Result<(Status, u64, usize), Fail> {
    let alloc = rt.alloc();
    let mut source = MemSource::new(alloc, input, &[read])?;
    let sink = MemSink::new(alloc, 2 * ROOM, &[write])?;
    let mut out = Counted { sink, writes: 0 };
    let status = run_lines::<Solo, _, _, _>(rt, alloc, LIMIT, &mut source, &mut out);
    Ok((status, out.writes, out.sink.taken().len()))
}

#[test]
fn two_replies_are_written_together(rt: HostRuntime) -> Result<(), Fail> {
    let (lines, replies) = twice(rt.alloc())?;
    let bytes = replies.len();
    assert_eq!(rt; written_in(&rt, &lines, 9, 9)?, (Status::Done, 1, bytes));
    assert_eq!(rt;
        written_in(&rt, &lines, 2, 9)?,
        (Status::ReadFault, 1, bytes)
    );
    Ok(())
}

// An empty line is bad, which a reply of 24 bytes says. 4,096 of them are one piece, whose replies
// are more than 16,384 bytes: so 641 are written first, since for one more there is no room of 1,024
// bytes; six times so many, and the 250 that are left.
#[test]
fn replies_to_a_piece_are_written_where_there_is_room(rt: HostRuntime) -> Result<(), Fail> {
    let feeds = [b'\n'; 4096].as_slice();
    let done = written_in(&rt, feeds, 9, 9)?;
    assert_eq!(rt; done, (Status::Done, 7, 4096 * 24));
    let failed = written_in(&rt, feeds, 9, 2)?;
    assert_eq!(rt; failed, (Status::WriteFault, 2, 641 * 24));
    Ok(())
}

// A run over the line twice that may read so many bytes.
fn check_limit(
    rt: &(impl Threads + Abort + Alloc<A = Global> + Sync),
    limit: u64,
    status: Status,
    output: &[u8],
) -> Result<(), Fail> {
    let alloc = rt.alloc();
    let (lines, _) = twice(alloc)?;
    let mut source = CalmSource::new(alloc, &lines)?;
    let mut out = MemSink::new(alloc, ROOM, &[])?;
    let found = run_lines::<Solo, _, _, _>(rt, alloc, limit, &mut source, &mut out);
    assert_eq!(rt; found, status, "at {limit}");
    assert_eq!(rt; out.taken(), output, "at {limit}");
    Ok(())
}

#[test]
fn a_run_stops_at_its_limit(rt: HostRuntime) -> Result<(), Fail> {
    let (_, replies) = twice(rt.alloc())?;
    check_limit(&rt, 0, Status::TooMuch, b"")?;
    check_limit(&rt, 50, Status::TooMuch, b"")?;
    check_limit(&rt, 51, Status::TooMuch, DONE)?;
    check_limit(&rt, 102, Status::TooMuch, &replies)?;
    check_limit(&rt, 103, Status::Done, &replies)
}

const USAGE: &str =
    "usage: ngac run | ngac generate N | ngac serve PORT WORKERS | ngac serve-journal PORT WORKERS FILE | ngac request-lines | ngac export\n";

fn calm(alloc: Global, room: usize) -> Result<Streams<CalmSource>, Memory> {
    Ok(Streams {
        source: CalmSource::new(alloc, FILES)?,
        out: MemSink::new(alloc, ROOM, &[])?,
        err: MemSink::new(alloc, room, &[])?,
    })
}

// The line is still there to be read, and answered.
fn check_unread(
    rt: &(impl Threads + Abort + Alloc<A = Global> + Sync),
    streams: &mut Streams<CalmSource>,
) {
    let Streams { source, out, .. } = streams;
    assert!(rt; out.taken().is_empty());
    let status = run_lines::<Solo, _, _, _>(rt, rt.alloc(), LIMIT, source, out);
    assert!(rt; status == Status::Done);
    assert_eq!(rt; out.taken(), DONE);
}

static OUTSIDE_THE_GRAMMAR: &[&[&str]] = &[
    &[],
    &["run", "x"],
    &["walk"],
    &["run "],
    &["generate"],
    &["generate", "201"],
    &["generate", "03"],
    &["serve", "1"],
    &["serve", "0", "33"],
    &["serve", "0", "0"],
    &["serve", "01", "2"],
    &["serve", "65536", "2"],
    &["serve", "+1", "2"],
    &["serve", "1", "2", "3"],
    &["serve-journal", "1", "2"],
    &["serve-journal", "1", "2", ""],
    &["serve-journal", "1", "2", "-kept"],
    &["serve-journal", "1", "2", "kept", "more"],
    &["serve-journal", "kept", "1", "2"],
    &["request-lines", "x"],
    &["export", "x"],
    &["--help"],
];

#[test]
fn other_words_are_usage(rt: HostRuntime) -> Result<(), Fail> {
    for texts in OUTSIDE_THE_GRAMMAR {
        let mut streams = calm(rt.alloc(), 256)?;
        let args = args(rt.alloc(), texts)?;
        assert!(rt; called(&rt, &mut streams, Ok(args)) == Status::Usage);
        assert!(rt; streams.err.taken() == USAGE.as_bytes());
        check_unread(&rt, &mut streams);
    }
    Ok(())
}

// Nothing is read or written yet where a server is asked for.
fn check_serve(
    rt: &(impl Threads + Abort + Alloc<A = Global> + Sync),
    texts: &[&str],
    port: u16,
    workers: u16,
) -> Result<(), Fail> {
    let mut streams = calm(rt.alloc(), 256)?;
    let args = args(rt.alloc(), texts)?;
    let status = called(rt, &mut streams, Ok(args));
    assert_eq!(rt; status, Status::Serve { port, workers });
    assert!(rt; streams.err.taken().is_empty());
    check_unread(rt, &mut streams);
    Ok(())
}

#[test]
fn a_server_is_asked_for(rt: HostRuntime) -> Result<(), Fail> {
    check_serve(&rt, &["serve", "8080", "2"], 8080, 2)?;
    check_serve(&rt, &["serve", "0", "1"], 0, 1)?;
    check_serve(&rt, &["serve", "65535", "32"], 65535, 32)
}

#[test]
fn a_server_with_a_journal_is_asked_for(rt: HostRuntime) -> Result<(), Fail> {
    let mut streams = calm(rt.alloc(), 256)?;
    let args = args(rt.alloc(), &["serve-journal", "8080", "2", "kept"])?;
    let status = called(&rt, &mut streams, Ok(args));
    let asked = Status::ServeJournal {
        port: 8080,
        workers: 2,
    };
    assert_eq!(rt; status, asked);
    assert!(rt; streams.err.taken().is_empty());
    check_unread(&rt, &mut streams);
    Ok(())
}

// The summaries of two generated policies, added up by hand.
static SUMMARIES: &[(&str, &str)] = &[
    (
        "1",
        "requests 11\nentries 9\ngranted 2\ndenied 0\nrefused 0\nrows 9\nshared 53\njudged 0\n",
    ),
    (
        "3",
        "requests 44\nentries 25\ngranted 5\ndenied 13\nrefused 1\nrows 27\nshared 295\njudged 20\n",
    ),
];

#[test]
fn a_generated_policy_is_summed_up(rt: HostRuntime) -> Result<(), Fail> {
    for (size, text) in SUMMARIES {
        let mut streams = calm(rt.alloc(), 256)?;
        let args = args(rt.alloc(), &["generate", size])?;
        assert!(rt; called(&rt, &mut streams, Ok(args)) == Status::Done);
        assert!(rt; streams.out.taken() == text.as_bytes());
        assert!(rt; streams.err.taken().is_empty());
    }
    Ok(())
}

#[test]
fn a_summary_that_does_not_fit_is_told(rt: HostRuntime) -> Result<(), Fail> {
    let little_room = Outside { room: 8, ..CALM };
    let mut streams = streams_of(rt.alloc(), &little_room, FILES)?;
    let args = args(rt.alloc(), &["generate", "1"])?;
    assert!(rt; called(&rt, &mut streams, Ok(args)) == Status::WriteFault);
    assert_eq!(rt; streams.out.taken(), b"requests".as_slice());
    assert!(rt; streams.err.taken() == b"ngac: write failed\n".as_slice());
    Ok(())
}

// A document of two elements, of which the first is in the second, and the lines that make it.
static WARD: &[u8] =
    b"{\"rights\":[],\"elements\":[[\"ua\",\"staff\"],[\"pc\",\"ward\"]],\"assignments\":[[\"staff\",\"ward\"]],\"associations\":[],\"prohibitions\":[]}";

static WARD_LINES: &[u8] =
    b"{\"cmd\":\"create_pc\",\"name\":\"ward\",\"proc\":0}\n{\"cmd\":\"create_ua\",\"into\":\"ward\",\"name\":\"staff\",\"proc\":0}\n";

static EMPTY: &[u8] =
    b"{\"rights\":[],\"elements\":[],\"assignments\":[],\"associations\":[],\"prohibitions\":[]}";

// No JSON, no lists, an element without a container, two that are in each other, and more behind a document.
static REFUSED: &[&[u8]] = &[
    b"",
    b"{",
    b"{}",
    b"{\"rights\":[],\"elements\":[[\"ua\",\"staff\"]],\"assignments\":[],\"associations\":[],\"prohibitions\":[]}",
    b"{\"rights\":[],\"elements\":[[\"ua\",\"a\"],[\"ua\",\"b\"]],\"assignments\":[[\"a\",\"b\"],[\"b\",\"a\"]],\"associations\":[],\"prohibitions\":[]}",
    b"{\"rights\":[],\"elements\":[],\"assignments\":[],\"associations\":[],\"prohibitions\":[]}{}",
];

#[test]
fn a_document_is_made(rt: HostRuntime) -> Result<(), Fail> {
    for (input, lines) in [(WARD, WARD_LINES), (EMPTY, b"".as_slice())] {
        check_word(&rt, "request-lines", &CALM, input, Status::Done, lines)?;
    }
    Ok(())
}

#[test]
fn a_document_is_refused(rt: HostRuntime) -> Result<(), Fail> {
    for input in REFUSED {
        check_word(
            &rt,
            "request-lines",
            &CALM,
            input,
            Status::DocumentRefused,
            b"",
        )?;
    }
    Ok(())
}

// The second read would tell the end.
#[test]
fn a_document_that_cannot_be_read_is_not_made(rt: HostRuntime) -> Result<(), Fail> {
    for reads in [&[1], &[2]] {
        let failing = Outside { reads, ..CALM };
        check_word(&rt, "request-lines", &failing, WARD, Status::ReadFault, b"")?;
    }
    Ok(())
}

#[test]
fn lines_that_do_not_fit_are_told(rt: HostRuntime) -> Result<(), Fail> {
    let first = Outside {
        writes: &[1],
        ..CALM
    };
    check_word(&rt, "request-lines", &first, WARD, Status::WriteFault, b"")?;
    check_word(
        &rt,
        "request-lines",
        &first,
        b"{}",
        Status::DocumentRefused,
        b"",
    )?;
    let little_room = Outside { room: 5, ..CALM };
    check_word(
        &rt,
        "request-lines",
        &little_room,
        WARD,
        Status::WriteFault,
        b"{\"cmd",
    )
}

// What the lines of the ward make, and what none do.
static WARD_TEXT: &[u8] =
    b"{\"assignments\":[[\"staff\",\"ward\"]],\"associations\":[],\"elements\":[[\"ua\",\"staff\"],[\"pc\",\"ward\"]],\"prohibitions\":[],\"rights\":[]}\n";

static EMPTY_TEXT: &[u8] =
    b"{\"assignments\":[],\"associations\":[],\"elements\":[],\"prohibitions\":[],\"rights\":[]}\n";

#[test]
fn a_policy_is_exported(rt: HostRuntime) -> Result<(), Fail> {
    for (input, text) in [
        (WARD_LINES, WARD_TEXT),
        (b"".as_slice(), EMPTY_TEXT),
        (b"{}\n".as_slice(), EMPTY_TEXT),
        (&FILES[..50], EMPTY_TEXT),
    ] {
        check_word(&rt, "export", &CALM, input, Status::Done, text)?;
    }
    Ok(())
}

// The second read would tell the end.
#[test]
fn lines_that_cannot_be_read_are_not_exported(rt: HostRuntime) -> Result<(), Fail> {
    for reads in [&[1], &[2]] {
        let failing = Outside { reads, ..CALM };
        check_word(&rt, "export", &failing, WARD_LINES, Status::ReadFault, b"")?;
    }
    Ok(())
}

#[test]
fn a_document_that_does_not_fit_is_told(rt: HostRuntime) -> Result<(), Fail> {
    let first = Outside {
        writes: &[1],
        ..CALM
    };
    check_word(&rt, "export", &first, WARD_LINES, Status::WriteFault, b"")?;
    let little_room = Outside { room: 5, ..CALM };
    check_word(
        &rt,
        "export",
        &little_room,
        WARD_LINES,
        Status::WriteFault,
        b"{\"ass",
    )
}

// Where the words can't be had the run ends so.
fn check_no_words(
    rt: &(impl Threads + Abort + Alloc<A = Global> + Sync),
    kind: ErrorKind,
    status: Status,
) -> Result<(), Fail> {
    let mut streams = calm(rt.alloc(), 256)?;
    let found = called(rt, &mut streams, Err(Error::from(kind)));
    assert_eq!(rt; found, status);
    assert!(rt; streams.out.taken().is_empty());
    assert!(rt; streams.err.taken() == status.text().as_bytes());
    Ok(())
}

// A word that is no text is outside the grammar.
#[test]
fn words_that_cannot_be_had_end_the_run(rt: HostRuntime) -> Result<(), Fail> {
    check_no_words(&rt, ErrorKind::InvalidData, Status::Usage)?;
    check_no_words(&rt, ErrorKind::OutOfMemory, Status::Memory)
}

// The first read fails, and so does the write of this number of what is said of it, for which there is so much room.
fn check_failing_err(
    rt: &(impl Threads + Abort + Alloc<A = Global> + Sync),
    word: &str,
    room: usize,
    failing: u64,
    status: Status,
    said: &[u8],
) -> Result<(), Fail> {
    let alloc = rt.alloc();
    let args = args(alloc, &[word])?;
    let mut streams = Streams {
        source: MemSource::new(alloc, FILES, &[1])?,
        out: MemSink::new(alloc, ROOM, &[])?,
        err: MemSink::new(alloc, room, &[failing])?,
    };
    assert_eq!(rt; called(rt, &mut streams, Ok(args)), status);
    assert_eq!(rt; streams.err.taken(), said);
    Ok(())
}

#[test]
fn a_failing_err_changes_no_status(rt: HostRuntime) -> Result<(), Fail> {
    check_failing_err(&rt, "run", 64, 1, Status::ReadFault, b"")?;
    check_failing_err(&rt, "run", 4, 9, Status::ReadFault, b"ngac")?;
    check_failing_err(&rt, "walk", 64, 1, Status::Usage, b"")
}

static STATUSES: &[(Status, u8, &str)] = &[
    (Status::Done, 0, ""),
    (Status::Usage, 2, USAGE),
    (Status::ReadFault, 3, "ngac: read failed\n"),
    (Status::WriteFault, 4, "ngac: write failed\n"),
    (Status::Memory, 5, "ngac: out of memory\n"),
    (Status::TooMuch, 6, "ngac: too much input\n"),
    (Status::ListenFault, 7, "ngac: listen failed\n"),
    (Status::JournalFault, 8, "ngac: journal failed\n"),
    (Status::NotJournal, 9, "ngac: not a journal\n"),
    (Status::DocumentRefused, 10, "ngac: document refused\n"),
    (Status::ServeFault, 11, "ngac: serving failed\n"),
];

#[test]
fn statuses_have_their_numbers_and_texts(rt: HostRuntime) {
    for (status, number, text) in STATUSES {
        assert_eq!(rt; (status.number(), status.text()), (*number, *text));
    }
}

static PLACES: &[(Status, &str)] = &[
    (Status::Damaged { at: 0 }, "ngac: journal damaged at 0\n"),
    (
        Status::Damaged { at: u64::MAX },
        "ngac: journal damaged at 18446744073709551615\n",
    ),
    (
        Status::Illegal { at: 262143 },
        "ngac: journal illegal at 262143\n",
    ),
];

#[test]
fn places_in_a_journal_are_said(rt: HostRuntime) -> Result<(), Fail> {
    for (status, line) in PLACES {
        let mut err = MemSink::new(rt.alloc(), 64, &[])?;
        say(&mut err, *status);
        assert_eq!(rt; status.number(), 9);
        assert!(rt; err.taken() == line.as_bytes());
    }
    Ok(())
}

// There is so much room, and the write of this number fails.
#[test]
fn a_place_that_does_not_fit_is_cut_off(rt: HostRuntime) -> Result<(), Fail> {
    let cuts: [(usize, u64, &[u8]); 3] = [
        (27, 9, b"ngac: journal damaged at 17"),
        (25, 9, b"ngac: journal damaged at "),
        (64, 1, b""),
    ];
    for (room, failing, said) in cuts {
        let mut err = MemSink::new(rt.alloc(), room, &[failing])?;
        say(&mut err, Status::Damaged { at: 170 });
        assert_eq!(rt; err.taken(), said);
    }
    Ok(())
}
