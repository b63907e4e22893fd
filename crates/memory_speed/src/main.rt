// What a load costs, from RAM and through one and two slow layers. Standard input has the number of loads and the waits of each
// layer, on one line. A load that is made to wait counts as asked, and is not repeated. The sums go to standard output, the
// times, which differ from run to run, to standard error.
#![tactic(auto)]

use memory::{Answer, DataMemory};
use slow::Slow;
use std::time::Instant;
use storage::Ram;

// The bytes of the RAM that is loaded from, again and again.
const LENGTH: u32 = 4096;

fn main(rt: HostRuntime) -> anyhow::Result<()> {
    run(&rt)
}

fn run(rt: &HostRuntime) -> anyhow::Result<()> {
    let mut line = String::new(rt.alloc());
    rt.read_line(&mut line)?;
    let mut numbers = line.as_str().split_whitespace();
    let count = numbers.next().unwrap_or("").parse::<u32>()?;
    let waits = numbers.next().unwrap_or("").parse::<u32>()?;
    let mut bytes = vec![in rt.alloc(); 1; LENGTH as usize]?;
    for round in 0..3 {
        println!(rt; "round {round}")?;
        time(rt, "RAM", &mut Ram::new(&mut bytes), count)?;
        time(
            rt,
            "one layer",
            &mut Slow::new(waits, Ram::new(&mut bytes)),
            count,
        )?;
        time(
            rt,
            "two layers",
            &mut Slow::new(waits, Slow::new(waits, Ram::new(&mut bytes))),
            count,
        )?;
    }
    Ok(())
}

fn time<D: DataMemory>(
    rt: &HostRuntime,
    name: &str,
    memory: &mut D,
    count: u32,
) -> anyhow::Result<()>
    requires { D.sound memory.old }
    ensures { D.sound memory.new }
{
    let start = Instant::now(rt)?;
    let sum = sum_of_loads(memory, count);
    let elapsed = start.elapsed(rt)?.as_nanos();
    println!(rt; "{name}: sum {sum}")?;
    let picoseconds = elapsed.saturating_mul(1000) / u128::from(count.max(1));
    eprintln!(rt; "{name}: {picoseconds} ps a load")?;
    Ok(())
}

// The sum, modulo 2^32, of the words loaded one after another. A loop: the closure of a fold would have to carry the condition of the
// memory from call to call.
fn sum_of_loads<D: DataMemory>(memory: &mut D, count: u32) -> u32
    requires { D.sound memory.old }
    ensures { D.sound memory.new }
{
    let mut sum = 0u32;
    for i in 0..count {
        let address = i % (LENGTH / 4) * 4;
        if let Answer::Done(word) = memory.load(address, 4) {
            sum = sum.wrapping_add(word ^ i);
        }
    }
    sum
}
