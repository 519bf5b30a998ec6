// The program `planbook`: reads a plant and its masks from standard input, and prints the last book or a refusal. Where
// a read or a write fails it says so in a line on standard error; after a failed read it prints nothing else.
#![tactic(auto)]

mod input;

ghost use Rattle.std.specs.Prelude.{◌≡◌, ◌≤◌, true, false, length, IfOk, MatchResult};
ghost use Rattle.planbook.specs.Printed.{Printed};

use std::io;
use std::io::{Eprint, Print};

// Room for the input: the longest plant has 51,216 bytes and 16 masks have 64. With one byte more the masks are bad, so
// that no byte past it can change the answer.
fn input_buffer() -> [u8; 51281]
    ensures { 51281 ≡ length result }
{
    [0; 51281]
}

// Room for the answer: the longest has under 200,000 bytes.
fn output_buffer() -> [u8; 200000]
    ensures { 200000 ≡ length result }
{
    [0; 200000]
}

// The text to print, as the first bytes of `out`: the answer to an input that was read to its end, or as far as the
// buffer goes; nothing after a failed read.
fn answer<'a>(buffer: &[u8], read: io::Result<usize>, out: &'a mut [u8]) -> &'a mut [u8]
    requires input { 51281 ≤ length buffer.now }
    requires count { IfOk read (λ count. count ≤ length buffer.now) }
    requires output { 200000 ≤ length out.old }
    ensures { MatchResult read
        (λ count. Printed buffer.now count false result.now)
        (λ _. Printed buffer.now 0 true result.now) }
{
    match read {
        Ok(count) => {
            let long = reply::reply(&buffer[..count], out) as usize;
            &mut out[..long]
        }
        Err(_) => &mut out[..0],
    }
}

// A line on standard error. Where that cannot be written either, there is nobody left to tell.
fn say(rt: &impl Eprint, text: &str) {
    let _ = rt.eprintln(text);
}

fn main(rt: HostRuntime) {
    let mut input = input_buffer();
    let mut out = output_buffer();
    let read = input::read_all(&mut rt.stdin(), &mut input);
    if read.is_err() {
        say(&rt, "planbook: standard input could not be read");
    }
    let text = answer(&input, read, &mut out);
    if rt.write_all(text).is_err() {
        say(&rt, "planbook: standard output could not be written");
    }
}
