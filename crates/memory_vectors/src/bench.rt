// Follows commands on two memories of any kinds, and writes what they answer.
use crate::command::Command;
use memory::{Answer, DataMemory, Memory, ProgramMemory, Request, settle, settle_fetch};
use memory_examples::{ask_each_once, settle_each};
use std::alloc::AllocError;

// Follows the commands in order. The conditions of both memories are clauses, and no field of a struct (see memory_examples).
pub fn answer_all<P: ProgramMemory, D: DataMemory>(
    program: &mut P,
    data: &mut D,
    commands: &[Command],
    answers: &mut String,
) -> Result<(), AllocError>
    requires program_sound { P.sound program.old }
    requires data_sound { D.sound «data».old }
    ensures program_kept { P.sound program.new }
    ensures data_kept { D.sound «data».new }
{
    for command in commands {
        answer(program, data, *command, answers)?;
    }
    Ok(())
}

// A match on the command: each asks another memory in another way, so closures would be no plainer.
fn answer<P: ProgramMemory, D: DataMemory>(
    program: &mut P,
    data: &mut D,
    command: Command,
    answers: &mut String,
) -> Result<(), AllocError>
    requires program_sound { P.sound program.old }
    requires data_sound { D.sound «data».old }
    ensures program_kept { P.sound program.new }
    ensures data_kept { D.sound «data».new }
{
    match command {
        Command::Once(Request::Fetch(address)) => show(answers, program.fetch(address)),
        Command::Once(Request::Data(access)) => show(answers, data.ask(access)),
        Command::Settle(Request::Fetch(address)) => show(answers, settle_fetch(program, address)),
        Command::Settle(Request::Data(access)) => show(answers, settle(data, access)),
        Command::LookByte(address) => match data.look(address) {
            Some(byte) => writeln!(answers, "byte {byte}"),
            None => writeln!(answers, "nothing"),
        },
        Command::LookWord(address) => match program.look(address) {
            Some(word) => writeln!(answers, "word {word}"),
            None => writeln!(answers, "nothing"),
        },
        Command::Both(address, access) => {
            let (word, value) = ask_each_once(program, data, address, access);
            show_both(answers, word, value)
        }
        Command::Step(address, access) => {
            let (word, value) = settle_each(program, data, address, access);
            show_both(answers, word, value)
        }
    }
}

// An answer, or what was settled on: a value or nothing.
fn show<A: Into<Answer>>(answers: &mut String, answer: A) -> Result<(), AllocError> {
    let answer = answer.into();
    writeln!(answers, "{answer}")
}

fn show_both<A: Into<Answer>>(answers: &mut String, word: A, value: A) -> Result<(), AllocError> {
    let (word, value) = (word.into(), value.into());
    writeln!(answers, "{word} / {value}")
}
