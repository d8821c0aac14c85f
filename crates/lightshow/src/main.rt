// Reads a capture on standard input and writes what it prints. What it prints is worked out by the library call; this only passes it on.
#![tactic(auto)]

ghost use Rattle.std.specs.Prelude.{◌≡◌, ◌≤◌, IfOk, length};
ghost use Rattle.capture_calls.specs.Capture.{short_output, number_by, size_of};

use capture_calls::Answer;
use std::io;
use std::io::Read;

// Reads until the buffer is full or the input ends; how many bytes there were. A loop over the reads, since a read may bring fewer bytes than there is room
// for; `read_exact` would not say how many an input has that is shorter than the buffer, and `read_to_end` needs a heap.
fn read_input(rt: &impl io::Input, buf: &mut [u8]) -> io::Result<usize>
    ensures { IfOk result (λ n. n ≤ length buf.new) }
{
    let mut reader = rt.reader();
    let mut n = 0;
    while n < buf.len() {
        let more = reader.read(&mut buf[n..])?;
        if more == 0 {
            break;
        }
        n += more;
    }
    Ok(n)
}

// The output that the program lends is never too short.
fn size_of(answer: Answer) -> usize
    requires { number_by answer ≡ short_output → ⊥ }
    ensures { result ≡ size_of 0 answer }
{
    capture_calls::printed_size(answer, 0)
}

// Says on standard error what failed, and why.
fn fail(rt: &impl Eprint, what: &str, error: io::Error) {
    let _ = eprintln!(rt; "{what}: {error}");
}

fn show(rt: &(impl Print + Eprint), input: &[u8]) {
    let mut output = [0u8; 22784];
    let answer = capture::run_capture(input, &mut output);
    let size = size_of(answer);
    if let Err(e) = rt.write_all(&output[..size]) {
        fail(rt, "standard output", e);
    }
}

// One byte more than a capture may have, so that too long an input is noticed.
fn main(rt: HostRuntime) {
    let mut input = [0u8; 65537];
    match read_input(&rt, &mut input) {
        Ok(n) => show(&rt, &input[..n]),
        Err(e) => fail(&rt, "standard input", e),
    }
}
