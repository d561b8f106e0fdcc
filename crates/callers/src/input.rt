//! The lines that are asked.

use pm_model::{Request, What};
use pm_read::read_request;
use std::io::{BufRead, BufReader};

/// The requests of the three parts.
#[derive(Drop)]
pub(crate) struct Input {
    pub(crate) policy: Vec<Request>,
    pub(crate) looked: Vec<Request>,
    pub(crate) submitted: Vec<Request>,
}

/// The request of a line; None where it is no request, or there is no memory.
fn request_of(rt: &HostRuntime, line: &str) -> Option<Request> {
    let asked = read_request(rt.alloc(), line.as_bytes()).ok()?;
    match &asked.what {
        What::Request(request) => request.copy().ok(),
        What::Bad(_) => None,
    }
}

fn put(input: &mut Input, part: u32, request: Request) -> Option<()> {
    let list = match part {
        0 => &mut input.policy,
        1 => &mut input.looked,
        _ => &mut input.submitted,
    };
    list.push(request).ok()
}

/// All of the input; None where a line is no request, or there is no memory.
pub(crate) fn read(rt: &HostRuntime) -> Option<Input> {
    let mut input = Input {
        policy: Vec::new(rt.alloc()),
        looked: Vec::new(rt.alloc()),
        submitted: Vec::new(rt.alloc()),
    };
    let mut part = 0u32;
    let reader = BufReader::new(rt.alloc(), rt.reader()).ok()?;
    for line in reader.lines(rt.alloc()) {
        let Ok(line) = line else {
            return None;
        };
        if line.is_empty() {
            part = part.saturating_add(1);
            continue;
        }
        let request = request_of(rt, line.as_str())?;
        put(&mut input, part, request)?;
    }
    Some(input)
}
