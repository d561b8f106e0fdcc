//! Reads each line of its input as a request and prints it again, for measurement: the arguments are how many times each
//! line is read, and how many times what it asks is printed. It tells how many lines ask for something, and how many bytes
//! these are as they are printed.
#![tactic(auto)]

use pm_model::{Asked, Memory, What};
use pm_print::print_request;
use pm_read::read_request;
use std::alloc::Global;
use std::env;
use std::env::Args;
use std::process::ExitCode;

/// The next word as a number, or 0.
fn number(args: &mut Args) -> u32 {
    match args.next() {
        Some(word) => word.parse::<u32>().unwrap_or(0),
        None => 0,
    }
}

/// What the line asks, which is read so many times; None where that is never.
fn read(alloc: Global, line: &[u8], times: u32) -> Result<Option<Asked>, Memory> {
    let mut asked = None;
    for _ in 0..times {
        asked = Some(read_request(alloc, line)?);
    }
    Ok(asked)
}

/// Prints what is asked so many times, and leaves it printed once. Whether it is a request.
fn print(asked: &Asked, times: u32, out: &mut Vec<u8>) -> Result<bool, Memory> {
    let What::Request(request) = &asked.what else {
        return Ok(false);
    };
    for _ in 0..times {
        out.clear();
        print_request(asked.id, request, out)?;
    }
    Ok(true)
}

/// Reads and prints a line. How many bytes were printed; None where it is no request.
fn again(
    alloc: Global,
    line: &str,
    reads: u32,
    prints: u32,
    out: &mut Vec<u8>,
) -> Result<Option<usize>, Memory> {
    out.clear();
    let Some(asked) = read(alloc, line.as_bytes(), reads)? else {
        return Ok(None);
    };
    if print(&asked, prints, out)? {
        return Ok(Some(out.len()));
    }
    Ok(None)
}

fn main(rt: HostRuntime) -> ExitCode {
    let Ok(mut args) = env::args(&rt) else {
        return ExitCode::FAILURE;
    };
    let _name = args.next();
    let reads = number(&mut args);
    let prints = number(&mut args);
    let (mut requests, mut bytes) = (0usize, 0usize);
    let mut out = Vec::new(rt.alloc());
    for line in rt.lines(rt.alloc()) {
        let Ok(line) = line else {
            return ExitCode::FAILURE;
        };
        let Ok(printed) = again(rt.alloc(), line.as_str(), reads, prints, &mut out) else {
            return ExitCode::FAILURE;
        };
        if let Some(length) = printed {
            requests = requests.saturating_add(1);
            bytes = bytes.saturating_add(length);
        }
    }
    let _ = println!(rt; "{requests} requests, {bytes} bytes");
    ExitCode::SUCCESS
}
