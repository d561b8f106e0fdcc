//! How many requests of each step there are, and which sizes.

use pm_generator::Generated;
use pm_model::{Body, Command, Kind, Request};
use std::alloc::Global;
use std::process::Abort;
use std::test::Fail;

fn step_of_command(command: &Command) -> u8 {
    match command {
        Command::CreatePc { .. } => 1,
        Command::Create { kind: Kind::Ua, .. } => 2,
        Command::Create { kind: Kind::Oa, .. } => 3,
        Command::Create { .. } => 4,
        Command::Associate { .. } => 5,
        Command::Keep { .. } => 7,
        Command::Assign { .. } => 9,
        _ => 0,
    }
}

fn step_of(request: &Request) -> u8 {
    match &request.body {
        Body::OpenSession { .. } | Body::StartProcess { .. } => 6,
        Body::Access { .. } => 8,
        Body::Admin { command, .. } => step_of_command(command),
        _ => 0,
    }
}

// So many requests of the step come next.
fn check_step(
    rt: &(impl Abort + Alloc<A = Global>),
    requests: &mut Generated,
    step: u8,
    count: u32,
) -> Result<(), Fail> {
    for _ in 0..count {
        let request = requests.next(rt.alloc())?.expect(rt, "a request");
        assert_eq!(rt; step_of(&request), step);
    }
    Ok(())
}

/// The largest policy. Both rounds of accesses are of step 8.
const STEPS: [(u8, u32); 10] = [
    (1, 1),
    (2, 200),
    (3, 200),
    (4, 400),
    (5, 100),
    (6, 400),
    (7, 8),
    (8, 40000),
    (9, 199),
    (8, 40000),
];

#[test]
fn requests_of_each_step(rt: HostRuntime) -> Result<(), Fail> {
    let mut requests = Generated::new(200).expect(&rt, "a size");
    for (step, count) in &STEPS {
        check_step(&rt, &mut requests, *step, *count)?;
    }
    assert!(rt; requests.next(rt.alloc())?.is_none());
    assert!(rt; requests.next(rt.alloc())?.is_none());
    Ok(())
}

#[test]
fn other_sizes_are_refused(rt: HostRuntime) {
    for size in [0, 201, 255, 256, 65535] {
        assert!(rt; Generated::new(size).is_none());
    }
    for size in [1, 2, 199, 200] {
        assert!(rt; Generated::new(size).is_some());
    }
}
