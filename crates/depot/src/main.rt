// The depot: what the planning office runs.
#![tactic(auto)]

use formats::bitmap0::BitMap0;
use plans::Tally;
use plans::reporting::answer;
use std::process::ExitCode;
use std::{env, fmt, fs, io};

const USAGE: &str = "usage: depot compose PLAN    compose the channel list of each cell of a plan
       depot help            say this
PLAN is a file name, or - for standard input. Each of its lines is a cell and its channels:
1234:00AB 1-5 17 124    # and a comment
";

// Where a plan is read from.
#[derive(Drop)]
enum Source {
    Input,
    File(String),
}

impl From<String> for Source {
    fn from(name: String) -> Source {
        if name.as_str() == "-" {
            Source::Input
        } else {
            Source::File(name)
        }
    }
}

impl Source {
    fn read(&self, rt: &HostRuntime) -> io::Result<String> {
        match self {
            Source::Input => io::read_to_string(rt.alloc(), rt.stdin()),
            Source::File(name) => fs::read_to_string(rt, name.as_str()),
        }
    }
}

impl fmt::Display for Source {
    fn fmt<W: fmt::Write>(&self, f: &mut fmt::Formatter<W>) -> fmt::Result {
        match self {
            Source::Input => f.write_str("standard input"),
            Source::File(name) => f.write_str(name.as_str()),
        }
    }
}

#[derive(Drop)]
enum Command {
    Help,
    Compose(Source),
}

// What the arguments ask for, if they ask for anything that can be done.
fn asked(rt: &HostRuntime) -> io::Result<Option<Command>> {
    let mut args = env::args(rt)?;
    let _program = args.next();
    let Some(verb) = args.next() else {
        return Ok(Some(Command::Help));
    };
    let word = args.next();
    if args.next().is_some() {
        return Ok(None);
    }
    match (verb.as_str(), word) {
        ("help", None) => Ok(Some(Command::Help)),
        ("compose", Some(plan)) => Ok(Some(Command::Compose(Source::from(plan)))),
        _ => Ok(None),
    }
}

// Answers each line of a plan, and sums up.
fn compose(rt: &HostRuntime, text: &str) -> io::Result<Tally> {
    let mut tally = Tally::new();
    for (i, line) in text.lines().enumerate() {
        let answer = answer(rt.alloc(), &BitMap0 {}, i.saturating_add(1), line)?;
        tally.count(answer.verdict);
        rt.print(answer.text)?;
    }
    rt.println(tally)?;
    Ok(tally)
}

// Composes a plan; the status tells whether every line was taken.
fn run_plan(rt: &HostRuntime, plan: &Source) -> io::Result<ExitCode> {
    match plan.read(rt) {
        Ok(text) => {
            let tally = compose(rt, text.as_str())?;
            Ok(if tally.is_clean() {
                ExitCode::SUCCESS
            } else {
                ExitCode::FAILURE
            })
        }
        Err(error) => {
            eprintln!(rt; "depot: {plan} cannot be read: {error}")?;
            Ok(ExitCode::FAILURE)
        }
    }
}

fn run(rt: &HostRuntime) -> io::Result<ExitCode> {
    match asked(rt)? {
        Some(Command::Help) => {
            rt.print(USAGE)?;
            Ok(ExitCode::SUCCESS)
        }
        Some(Command::Compose(plan)) => run_plan(rt, &plan),
        None => {
            rt.eprint(USAGE)?;
            Ok(ExitCode::FAILURE)
        }
    }
}

// Where it did not go well, what there was to say is said, and the status is 1.
fn main(rt: HostRuntime) -> ExitCode {
    match run(&rt) {
        Ok(status) => status,
        Err(error) => {
            let _ = eprintln!(rt; "depot: {error}");
            ExitCode::FAILURE
        }
    }
}
