//! Many callers of one house, in threads. For measurement: the arguments are how many seats look, how often each, how many
//! requests one more seat submits (at most so many while others look, and all of them where nobody does), and how many
//! milliseconds it rests after each, none where that isn't said. The input is lines in three parts, with an empty line behind each but the last: those that make the policy, those that are looked
//! for, and those that are submitted, each part again and again from its first line on.
#![tactic(auto)]

mod input;
mod work;

ghost use Rattle.std.specs.Prelude.{◌≡◌, ◌<◌, ◌≤◌};

use input::{Input, read};
use pm_house::{Home, House, house_room};
use pm_io::NoKeep;
use pm_model::Memory;
use pm_publish::Opened;
use pm_step::Edition;
use std::env;
use std::env::Args;
use std::marker::Brand;
use std::process::ExitCode;
use std::sync::Wait;
use std::sync::ledger::Blank;
use std::thread::Threads;
use std::time::Clock;
use work::{Counts, callers_of, make, total, work};

/// The next word as a number, or 0.
fn number(args: &mut Args) -> u64 {
    match args.next() {
        Some(word) => word.parse::<u64>().unwrap_or(0),
        None => 0,
    }
}

/// How much is asked: how often each looks, how many requests are submitted, and the rest after each of these in
/// milliseconds.
#[derive(Clone, Copy)]
struct Amounts {
    looks: u64,
    submits: u64,
    rest: u64,
}

/// What all callers come to.
fn run<H: Home + Send + Sync, R: Threads + Wait + Clock + AllocGlobal + Sync>(
    rt: &R,
    opened: Opened,
    blank: Blank,
    seats: u32,
    input: &Input,
    amounts: Amounts,
) -> Result<Counts, Memory>
    requires room { opened ≡ H.book }
    requires ledger { (blank.name ≡ H.name) × (blank.parts ≡ H.parts) }
    requires seats { (0 < seats) × (seats ≤ 32) × (H.all ≡ seats) × (H.parts ≡ seats) }
{
    let (house, mut left) = House::<Edition, NoKeep, H>::open(
        rt.alloc(),
        opened,
        blank,
        NoKeep,
        seats,
    )?;
    let mut callers = callers_of(rt.alloc(), &mut left, amounts.looks, amounts.submits)?;
    make(rt, &house, &mut callers, input)?;
    work(rt, &house, &mut callers, input, amounts.rest);
    Ok(total(&callers))
}

fn main(rt: HostRuntime) -> ExitCode {
    let Ok(mut args) = env::args(&rt) else {
        return ExitCode::FAILURE;
    };
    let _name = args.next();
    let seats = number(&mut args).min(31) as u32 + 1;
    let amounts = Amounts {
        looks: number(&mut args),
        submits: number(&mut args),
        rest: number(&mut args),
    };
    let Some(input) = read(&rt) else {
        return ExitCode::FAILURE;
    };
    let (opened, blank) = house_room(seats);
    match run::<Brand, _>(&rt, opened, blank, seats, &input, amounts) {
        Ok(counts) => {
            let _ = println!(rt;
                "{} looks, {} of them answered, {} requests, {} of them accepted",
                counts.looks, counts.answered, counts.submits, counts.accepted
            );
            ExitCode::SUCCESS
        }
        Err(Memory) => ExitCode::FAILURE,
    }
}
