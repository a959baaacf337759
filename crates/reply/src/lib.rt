// A job's bytes in, and its listing or the line of its refusal out.
#![tactic(auto)]

mod drawing;

ghost use Rattle.std.specs.Prelude.{◌≤◌, length};
ghost use Rattle.meaning.specs.Calls.{Prints};
ghost use Rattle.meaning.specs.Listing.{job_text, text_room};
ghost use Rattle.reply.specs.Drawing.{Lists};

use meaning::{Refusal, TEXT_ROOM};

// The listing of the job that a text asks for.
fn list(s: &[u8], out: &mut [u8]) -> Result<usize, Refusal>
    requires { text_room ≤ length out.old }
    ensures { Lists (job_text s.now) result out.old out.new }
{
    let job = job::parse(s)?;
    drawing::draw(out, job.head, &job.targets)
}

// What is printed for a job's text, from the front of out.
#[tactic(auto, using(crate::proofs::Printing::told_is, crate::proofs::Printing::written_is, crate::proofs::Printing::front_is))]
pub fn answer(s: &[u8], out: &mut [u8]) -> Result<usize, Refusal>
    ensures { Prints s.now result out.old out.new }
{
    if out.len() < TEXT_ROOM {
        return Err(Refusal::Buffer);
    }
    match list(s, out) {
        Ok(end) => Ok(end),
        Err(why) => Ok(drawing::refused(out, why)),
    }
}
