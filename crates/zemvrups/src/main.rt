// Answers the calls of a file, with a line for each: zemvrups CAPACITY FILE.
#![tactic(auto)]

ghost use Rattle.std.specs.Prelude.{◌≤◌, IfOk};

mod faults;

use calls_file::{Calls, count_calls};
use engine::call;
use faults::Fault;
use lines::line_of;
use std::process::ExitCode;
use std::{env, fs};

const MOST_CAPACITY: usize = 16777216;

// How many bytes an answer may take: an id of n bytes takes n + 9 in an answer, and n + 1 of the capacity at least; the rest of an answer takes a few.
fn answer_room(capacity: usize) -> usize
    requires { capacity ≤ MOST_CAPACITY }
{
    9 * capacity + 32
}

fn main(rt: HostRuntime) -> ExitCode {
    match run(&rt) {
        Ok(()) => ExitCode::SUCCESS,
        Err(fault) => {
            let _ = eprintln!(rt; "zemvrups: {fault}");
            ExitCode::FAILURE
        }
    }
}

// The whole file is looked through before the first line is printed, so that a file that is cut off prints none.
fn run(rt: &HostRuntime) -> Result<(), Fault> {
    let mut args = env::args(rt).map_err(Fault::Arguments)?;
    let _program = args.next();
    let (Some(capacity), Some(path), None) = (args.next(), args.next(), args.next()) else {
        return Err(Fault::Usage);
    };
    let capacity = capacity_of(capacity)?;
    // `map_err` would move the path, which a file that is cut off needs.
    let file = match fs::read(rt, path.as_str()) {
        Ok(file) => file,
        Err(error) => return Err(Fault::Unreadable(path, error)),
    };
    count_calls(file.as_slice()).map_err(|cut| Fault::CutOff(path, cut))?;
    let mut room = vec![in rt.alloc(); 0u8; answer_room(capacity)]?;
    answer_all(rt, file.as_slice(), room.as_mut_slice())
}

fn capacity_of(text: String) -> Result<usize, Fault>
    ensures { IfOk result (λ n. n ≤ MOST_CAPACITY) }
{
    text.parse::<usize>()
        .ok()
        .filter(|n| *n >= 1 && *n <= MOST_CAPACITY)
        .ok_or(Fault::Capacity(text))
}

// Up to the end of the file, or a call that is cut off.
fn answer_all(rt: &HostRuntime, file: &[u8], room: &mut [u8]) -> Result<(), Fault> {
    for bytes in Calls::new(file).map_while(|call| call.ok()) {
        let long = call(bytes, room).ok_or(Fault::Memory)?;
        let answer = room.get(..long).ok_or(Fault::NoAnswer)?;
        let line = line_of(rt.alloc(), answer)?;
        println!(rt; "{line}")?;
    }
    Ok(())
}
