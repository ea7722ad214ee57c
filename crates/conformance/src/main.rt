// Works out calls of the library, a line each, and prints each call with its answer. A line is `CALL -> ANSWER` or `CALL`
// alone, so where all answers agree the output is the input. Empty lines and lines that begin with # are passed over.
#![tactic(auto)]

mod answers;
mod asks;
mod calls;
mod nest;
mod plain;
mod texts;
mod words;

use std::alloc::{AllocError, Global};
use std::io;
use std::io::{BufRead, BufReader};
use words::Unread;

// What stands between a call and its answer.
const ARROW: &str = " -> ";

// The call of a line, if it has one.
fn call_of(line: &str) -> Option<&str> {
    if line.is_empty() || line.starts_with('#') {
        return None;
    }
    Some(line.split_once(ARROW).map_or(line, |(call, _)| call))
}

fn worked_out(heap: Global, text: &str) -> Result<String, Unread> {
    let call = calls::parse(heap, text)?;
    Ok(answers::answer(heap, call)?)
}

fn reply(heap: Global, text: &str) -> Result<String, AllocError> {
    match worked_out(heap, text) {
        Ok(answer) => Ok(answer),
        Err(Unread::Call) => String::from_str(heap, "bad call"),
        Err(Unread::Memory) => Err(AllocError {}),
    }
}

fn main(rt: HostRuntime) -> io::Result<()> {
    let heap = rt.alloc();
    for line in BufReader::new(heap, rt.stdin())?.lines(heap) {
        let line = line?;
        if let Some(call) = call_of(line.as_str()) {
            let answer = reply(heap, call)?;
            println!(rt; "{call}{ARROW}{answer}")?;
        }
    }
    Ok(())
}
