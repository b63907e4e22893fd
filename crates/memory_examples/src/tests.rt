// An example for each public function of the memories.
use crate::shapes::{ask_each_once, fetch_word, load_word, settle_each};
use memory::{
    Access, Answer, AsRequest, DataMemory, Memory, ProgramMemory, Request, plain_bytes,
    promises_plain_bytes, settle, settle_fetch,
};
use slow::{Slow, WaitsRefusal, check_waits};
use std::test::Fail;
use storage::{LimitRefusal, PagedRam, Ram, Rom};

const WIDE: Access = Access::Load {
    address: 8,
    width: 2,
};

const NARROW: Access = Access::Load {
    address: 8,
    width: 1,
};

// Ten bytes, of which byte 8 is 7.
const BYTES: [u8; 10] = [0, 0, 0, 0, 0, 0, 0, 0, 7, 0];

// Whether the answers to these accesses, each asked once, are waits and at last 7.
fn waits_then_seven<D: DataMemory>(memory: &mut D, accesses: &[Access]) -> bool
    requires { D.sound memory.old }
{
    let mut last = Answer::Wait;
    for access in accesses {
        if last != Answer::Wait {
            return false;
        }
        last = memory.ask(*access);
    }
    last == Answer::Done(7)
}

// The number of a refusal of words or bytes, or 0.
fn limit_number(answer: Result<(), LimitRefusal>) -> u8 {
    answer.map_or_else(LimitRefusal::number, |()| 0)
}

#[test]
fn checks_lengths(rt: HostRuntime) -> Result<(), Fail> {
    let words = vec![in rt.alloc(); 0; 16385]?;
    let bytes = vec![in rt.alloc(); 0; 65537]?;
    assert!(rt; words.len() == 16385 && bytes.len() == 65537);
    assert!(rt;
        limit_number(Rom::check(&words)) == 1 && limit_number(Rom::check(&words[1..])) == 0
    );
    assert!(rt;
        limit_number(Ram::check(&bytes)) == 1 && limit_number(Ram::check(&bytes[1..])) == 0
    );
    assert!(rt; limit_number(PagedRam::check(&bytes)) == 1);
    assert!(rt; limit_number(PagedRam::check(&bytes[1..])) == 0);
    Ok(())
}

#[test]
fn checks_waits(rt: HostRuntime) -> Result<(), Fail> {
    match (check_waits(255), check_waits(256)) {
        (Ok(()), Err(refusal)) => {
            assert!(rt; refusal.number() == 2);
            Ok(())
        },
        _ => Err(Fail::new("255 are given, 256 are not")),
    }
}

#[test]
fn fetches_words(rt: HostRuntime) {
    let words = [5, 6];
    let mut rom = Rom::new(&words);
    assert!(rt; rom.fetch(4) == Answer::Done(6) && rom.fetch(8) == Answer::Absent);
    assert!(rt; rom.look(0) == Some(5) && rom.look(1) == None);
    let mut slow = Slow::new(1, rom);
    assert!(rt; slow.fetch(4) == Answer::Wait && slow.fetch(4) == Answer::Done(6));
    assert!(rt; settle_fetch(&mut slow, 0) == Some(5) && slow.look(4) == Some(6));
    assert!(rt; slow.into_below().look(4) == Some(6));
}

#[test]
fn stores_in_the_bytes_of_the_caller(rt: HostRuntime) {
    let mut bytes = BYTES;
    let mut ram = Ram::new(&mut bytes);
    assert!(rt;
        ram.store(8, 2, 0x12345) == Answer::Done(0) && ram.load(8, 2) == Answer::Done(0x2345)
    );
    assert!(rt; ram.look(9) == Some(0x23) && ram.look(10) == None);
    assert!(rt; ram.into_bytes().len() == 10);
    assert!(rt; bytes == [0, 0, 0, 0, 0, 0, 0, 0, 0x45, 0x23]);
}

// Memories that are lent without their kind.
#[test]
fn lends_any_kind(rt: HostRuntime) {
    let mut bytes = BYTES;
    let words = [5, 6];
    assert!(rt; load_word(&mut Ram::new(&mut bytes), 4) == Answer::Done(0));
    assert!(rt; load_word(&mut Ram::new(&mut bytes), 8) == Answer::Absent);
    assert!(rt; fetch_word(&mut Rom::new(&words), 4) == Answer::Done(6));
}

#[test]
fn leaves_pages_out(rt: HostRuntime) {
    let mut bytes = BYTES;
    let mut ram = PagedRam::new(&mut bytes, [false; 256]);
    assert!(rt; ram.load(8, 1) == Answer::Absent && ram.look(8) == None);
    let mut pages = [false; 256];
    pages[0] = true;
    let mut ram = PagedRam::new(ram.into_bytes(), pages);
    assert!(rt; ram.load(8, 1) == Answer::Done(7) && ram.look(8) == Some(7));
}

#[test]
fn gives_own_waits_first(rt: HostRuntime) {
    let mut bytes = BYTES;
    let mut slow = Slow::new(2, Slow::new(1, Ram::new(&mut bytes)));
    assert!(rt; waits_then_seven(&mut slow, &[WIDE, WIDE, WIDE, WIDE]));
    assert!(rt; slow.load(8, 2) == Answer::Wait && slow.look(8) == Some(7));
}

#[test]
fn asks_below_after_own_waits(rt: HostRuntime) {
    let mut bytes = BYTES;
    let mut slow = Slow::new(1, Ram::new(&mut bytes));
    assert!(rt; slow.ask(WIDE) == Answer::Wait && slow.ask(WIDE) == Answer::Done(7));
}

#[test]
fn drops_waits_at_another_access(rt: HostRuntime) {
    let mut bytes = BYTES;
    let mut slow = Slow::new(2, Slow::new(1, Ram::new(&mut bytes)));
    let asked = [WIDE, NARROW, NARROW, NARROW, WIDE, WIDE, WIDE, WIDE];
    assert!(rt; waits_then_seven(&mut slow, &asked));
    let mut slow = Slow::new(2, slow.into_below());
    assert!(rt; waits_then_seven(&mut slow, &[WIDE, NARROW, NARROW, NARROW, NARROW]));
}

#[test]
fn settles(rt: HostRuntime) {
    let mut bytes = BYTES;
    let words = [5, 6];
    let mut program = Slow::new(3, Rom::new(&words));
    let mut ram = Slow::new(2, Ram::new(&mut bytes));
    assert!(rt; settle(&mut ram, WIDE) == Some(7));
    let (word, value) = ask_each_once(&mut program, &mut ram, 4, WIDE);
    assert!(rt; word == Answer::Wait && value == Answer::Wait);
    let (word, value) = settle_each(&mut program, &mut ram, 4, WIDE);
    assert!(rt; word == Some(6) && value == Some(7));
}

// The functions that do nothing, whose contracts are laws.
#[test]
fn states_laws() {
    plain_bytes();
    promises_plain_bytes::<Ram>();
    promises_plain_bytes::<PagedRam>();
    promises_plain_bytes::<Slow<Ram>>();
    Slow::<Rom>::repeated::<u32>();
    Slow::<Ram>::repeated::<Access>();
}

#[test]
fn tells_refusals_to_people(rt: HostRuntime) -> Result<(), Fail> {
    let waits = format!(in rt.alloc(); "{}", WaitsRefusal::TooMany)?;
    assert!(rt; waits.as_str() == "more than 255 waits");
    let answer = format!(in rt.alloc(); "{} {}", Answer::Done(7), Answer::Absent)?;
    assert!(rt; answer.as_str() == "done 7 absent");
    let length = format!(in rt.alloc(); "{}", LimitRefusal::TooLong)?;
    assert!(rt; length.as_str() == "more words or bytes than the memory uses");
    Ok(())
}

#[test]
fn knows_requests_and_answers(rt: HostRuntime) {
    assert!(rt; 8u32.as_request() == Request::Fetch(8) && WIDE.as_request() == Request::Data(WIDE));
    assert!(rt; Answer::from(Some(7)) == Answer::Done(7) && Answer::from(None) == Answer::Absent);
    let words = [5, 6];
    assert!(rt; Rom::new(&words).ask(4) == Answer::Done(6));
}
