// Carries out a driver script: reads commands from standard input, and prints what each call comes to. docs/DRIVER.md has the commands.
#![tactic(auto)]

mod answer;
mod any_check;
mod any_writer;
mod command;
mod desk;
mod problem;
mod session;

use crate::answer::Answer;
use crate::command::Command;
use crate::problem::{Malformed, Problem};
use crate::session::Session;
use std::alloc::Global;
use std::fmt;
use std::io::{BufRead, BufReader};

// What a call came to, under its word.
#[derive(Drop)]
struct Done {
    word: &'static str,
    answer: Answer,
}

impl fmt::Display for Done {
    fn fmt<W: fmt::Write>(&self, f: &mut fmt::Formatter<W>) -> fmt::Result {
        write!(f, "{} {}", self.word, self.answer)
    }
}

// Carries out a line. Only a call answers.
fn carry_out(heap: Global, session: &mut Session, line: &str) -> Result<Option<Done>, Problem> {
    let Some(command) = command::parse(heap, line)? else {
        return Ok(None);
    };
    match command {
        Command::Check(check) => session.choose(check),
        Command::Blob(plan) => session.start(plan)?,
        Command::Bytes(bytes) => session.fill(bytes.as_slice())?,
        Command::Call(call) => {
            let answer = session.call(&call)?;
            let word = call.word();
            return Ok(Some(Done { word, answer }));
        }
    }
    Ok(None)
}

// Prints a line for each call, with what the blob shows after it.
fn run(rt: &HostRuntime) -> anyhow::Result<()> {
    let heap = rt.alloc();
    let mut session = Session::new(heap);
    // Only some lines are calls, so these have a count of their own.
    let mut calls: u64 = 0;
    for (line, text) in (1u64..).zip(BufReader::new(heap, rt.stdin())?.lines(heap)) {
        let text = text?;
        let done = carry_out(heap, &mut session, text.as_str()).map_err(|problem| Malformed {
            line,
            problem,
        })?;
        if let Some(done) = done {
            calls = calls.saturating_add(1);
            println!(rt; "{calls} {done} | {}", session.look())?;
        }
    }
    Ok(())
}

fn main(rt: HostRuntime) -> anyhow::Result<()> {
    run(&rt)
}
