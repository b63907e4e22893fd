// Tries memories. Commands, one to a line: `paged` and `ram` make a data memory and a program memory anew, all others ask
// them something and print the answer. The format stands in vectors/README.md. What it must print was worked out by another
// program (vectors/memories.py).
#![tactic(auto)]

mod bench;
mod command;
mod setup;

use anyhow::anyhow;
use bench::answer_all;
use command::{Command, parse};
use setup::{Setup, weighed, words};
use slow::Slow;
use std::alloc::Global;
use std::io::{BufRead, BufReader};
use storage::{PagedRam, Ram, Rom};

// The commands for the memories made last, which are followed once all are there.
#[derive(Drop)]
struct Session {
    setup: Option<Setup>,
    commands: Vec<Command>,
    answers: String,
}

fn main(rt: HostRuntime) -> anyhow::Result<()> {
    run(&rt)
}

fn run(rt: &HostRuntime) -> anyhow::Result<()> {
    let heap = rt.alloc();
    let mut session = Session {
        setup: None,
        commands: Vec::new(heap),
        answers: String::new(heap),
    };
    for line in BufReader::new(heap, rt.stdin())?.lines(heap) {
        session.read(heap, line?.as_str())?;
    }
    session.finish(heap)?;
    rt.print(&session.answers)?;
    Ok(())
}

impl Session {
    fn read(&mut self, heap: Global, line: &str) -> anyhow::Result<()> {
        match setup::parse(line)? {
            Some(setup) => {
                self.finish(heap)?;
                self.setup = Some(setup);
                self.commands.clear();
            }
            None => self.commands.push(parse(line)?)?,
        }
        Ok(())
    }

    // Follows the commands read so far on the memories that they are for.
    fn finish(&mut self, heap: Global) -> anyhow::Result<()> {
        match &self.setup {
            Some(setup) => follow(heap, setup, &self.commands, &mut self.answers),
            None if self.commands.is_empty() => Ok(()),
            None => Err(anyhow!("no memories yet")),
        }
    }
}

fn follow(
    heap: Global,
    setup: &Setup,
    commands: &[Command],
    answers: &mut String,
) -> anyhow::Result<()> {
    let mut bytes = vec![in heap; 0; setup.bytes]?;
    let words = words(heap, setup.words)?;
    let rom = Slow::new(setup.program_inner, Rom::new(&words));
    let mut program = Slow::new(setup.program_outer, rom);
    match setup.paging {
        Some(paging) => {
            let ram = Slow::new(paging.waits, PagedRam::new(&mut bytes, paging.marks));
            let mut data = Slow::new(setup.data_waits, ram);
            answer_all(&mut program, &mut data, commands, answers)?;
        }
        None => {
            let mut data = Slow::new(setup.data_waits, Ram::new(&mut bytes));
            answer_all(&mut program, &mut data, commands, answers)?;
        }
    }
    let sum = weighed(&bytes);
    writeln!(answers, "bytes {sum}")?;
    Ok(())
}
