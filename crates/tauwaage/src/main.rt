// Reads a job from standard input and prints its listing, or the line of its refusal.
#![tactic(auto)]

use meaning::{JOB_BYTES, TEXT_ROOM};

// The file descriptors that a program starts with.
const STANDARD_INPUT: i32 = 0;

const STANDARD_OUTPUT: i32 = 1;

const STANDARD_ERROR: i32 = 2;

// A program has no exit status of its own, so what is not written is told beside it.
fn write(bytes: &[u8]) {
    if !io::write_all(STANDARD_OUTPUT, bytes) {
        io::write_all(STANDARD_ERROR, b"tauwaage: the answer cannot be written\n");
    }
}

fn print(text: &[u8], out: &mut [u8]) {
    if let Ok(n) = reply::answer(text, out) {
        if n <= out.len() {
            write(&out[..n]);
        }
    }
}

// One byte more than a job may have shows that a text is too long, whatever its length.
fn main() {
    let mut text = [0u8; JOB_BYTES + 1];
    let n = io::read_full(STANDARD_INPUT, &mut text);
    let mut out = [0u8; TEXT_ROOM];
    print(&text[..n], &mut out);
}
