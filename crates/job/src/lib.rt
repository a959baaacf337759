// The job: its text, read line by line.
#![tactic(auto)]

ghost use Rattle.std.specs.Prelude.{◌≡◌, length};
ghost use Rattle.meaning.specs.Forms.{line_at};
ghost use Rattle.meaning.specs.Job.{job_of, only, report_at, targets_at, numbers as job_numbers};
ghost use Rattle.text.specs.Held.{held};
ghost use Rattle.job.specs.Parsed.{parsed};

use arrayvec::ArrayVec;
use few::Few;
use meaning::{BITS_FORM, BY_ROW, BY_WIDTH, Head, INPUT_FORM, JOB_BYTES, JOB_TARGETS, Refusal};

// What a job asks for.
#[derive(Clone, Copy)]
pub struct Job {
    pub head: Head,
    pub targets: Few<i32, JOB_TARGETS>,
}

// The line of a form with one number: the number, and where the next line begins.
fn number_line(s: &[u8], at: usize, form: &[u8]) -> Option<(i32, usize)>
    ensures { result ≡ only (line_at form.now s.now at) }
{
    let (numbers, next) = text::forms::line_at(s, at, form)?;
    Some((numbers.first().copied().unwrap_or(0), next))
}

// By width or not, and where the next line begins.
#[tactic(auto, using(laws::proofs::Text::Bytes::stands_within), unfolding(meaning::specs::Job::report_at))]
fn report_line(s: &[u8], at: usize) -> Option<(bool, usize)>
    ensures { result ≡ report_at s.now at }
{
    if text::stands(s, at, &BY_WIDTH) {
        return Some((true, at + BY_WIDTH.len()));
    }
    if text::stands(s, at, &BY_ROW) {
        return Some((false, at + BY_ROW.len()));
    }
    None
}

// Numbers joined by commas, those that have room, and where the next line begins. A `loop`: the next place is where a number ends.
fn numbers(s: &[u8], from: usize) -> Option<(ArrayVec<i32, JOB_TARGETS>, usize)>
    ensures { result ≡ held JOB_TARGETS (job_numbers (length s.now) s.now from) }
{
    let mut numbers = ArrayVec::new();
    let mut at = from;
    loop {
        let (z, next) = text::decimal::number(s, at)?;
        // A job's text is too short for more than fit.
        let _ = numbers.try_push(z);
        if text::is(s, next, b'\n') {
            return Some((numbers, next + 1));
        }
        if !text::is(s, next, b',') {
            return None;
        }
        at = next + 1;
    }
}

// What stands before the targets.
const TARGETS: [u8; 8] = *b"targets=";

#[tactic(auto, using(laws::proofs::Text::Bytes::stands_within), unfolding(meaning::specs::Job::targets_at))]
fn targets_line(s: &[u8], at: usize) -> Option<(ArrayVec<i32, JOB_TARGETS>, usize)>
    ensures { result ≡ held JOB_TARGETS (targets_at s.now at) }
{
    if !text::stands(s, at, &TARGETS) {
        return None;
    }
    let first = at + TARGETS.len();
    if text::is(s, first, b'\n') {
        return Some((ArrayVec::new(), first + 1));
    }
    numbers(s, first)
}

// What a job's text asks for, or the line at which it is malformed.
#[tactic(auto, using(crate::proofs::Lines::long_job))]
pub fn parse(s: &[u8]) -> Result<Job, Refusal>
    ensures { result ≡ parsed (job_of s.now) }
{
    if s.len() > JOB_BYTES {
        return Err(Refusal::Job(0));
    }
    let (bits, at) = number_line(s, 0, &BITS_FORM).ok_or(Refusal::Job(1))?;
    let (input, at) = number_line(s, at, &INPUT_FORM).ok_or(Refusal::Job(2))?;
    let (by_width, at) = report_line(s, at).ok_or(Refusal::Job(3))?;
    let (targets, at) = targets_line(s, at).ok_or(Refusal::Job(4))?;
    if at != s.len() {
        return Err(Refusal::Job(5));
    }
    let head = Head {
        bits,
        input,
        by_width,
    };
    Ok(Job {
        head,
        targets: Few::of(&targets, 0),
    })
}
