// What a line asks the memories.
use crate::setup::number;
use anyhow::anyhow;
use memory::{Access, Request};
use std::str::SplitWhitespace;

#[derive(Clone, Copy, Debug, PartialEq, Eq)]
pub enum Command {
    Once(Request),
    Settle(Request),
    LookByte(u32),
    LookWord(u32),
    Both(u32, Access),
    Step(u32, Access),
}

// A match on the command: each reads other numbers, so a table of closures would be no plainer.
pub fn parse(line: &str) -> anyhow::Result<Command> {
    let mut parts = line.split_whitespace();
    match parts.next().unwrap_or("") {
        "settle" => {
            let sort = parts.next().unwrap_or("");
            Ok(Command::Settle(request(sort, &mut parts)?))
        }
        "look" => match parts.next().unwrap_or("") {
            "byte" => Ok(Command::LookByte(number(&mut parts)?)),
            "word" => Ok(Command::LookWord(number(&mut parts)?)),
            _ => Err(anyhow!("a byte or a word")),
        },
        "both" => Ok(Command::Both(number(&mut parts)?, load(&mut parts)?)),
        "step" => Ok(Command::Step(number(&mut parts)?, load(&mut parts)?)),
        sort => Ok(Command::Once(request(sort, &mut parts)?)),
    }
}

fn request(sort: &str, parts: &mut SplitWhitespace<'_>) -> anyhow::Result<Request> {
    match sort {
        "fetch" => Ok(Request::Fetch(number(parts)?)),
        "load" => Ok(Request::Data(load(parts)?)),
        "store" => Ok(Request::Data(store(parts)?)),
        _ => Err(anyhow!("no such command")),
    }
}

fn load(parts: &mut SplitWhitespace<'_>) -> anyhow::Result<Access> {
    Ok(Access::Load {
        address: number(parts)?,
        width: number(parts)?,
    })
}

fn store(parts: &mut SplitWhitespace<'_>) -> anyhow::Result<Access> {
    Ok(Access::Store {
        address: number(parts)?,
        width: number(parts)?,
        value: number(parts)?,
    })
}
