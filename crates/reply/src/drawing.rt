// What a job asks for, drawn and listed from the front of a buffer that holds every text, or the line of its refusal.
ghost use Rattle.std.specs.Prelude.{◌≡◌, ◌≤◌, length};
ghost use Rattle.meaning.specs.Job.{natural as job_natural};
ghost use Rattle.meaning.specs.Listing.{head_room, refused_line, reply_to, text_room};
ghost use Rattle.writing.specs.Wrote.{Wrote};
ghost use Rattle.reply.specs.Drawing.{Narrow, Lists};

use meaning::{FULL_LENGTH, Head, LEAST_WIDTH, MOST_WIDTH, Refusal};

// The line of a refusal, from the front.
pub fn refused(out: &mut [u8], why: Refusal) -> usize
    requires { head_room ≤ length out.old }
    ensures { Wrote out.old 0 (refused_line why) out.new result }
{
    let numbers = [i64::from(why.number()), i64::from(why.place())];
    writing::put_line(out, 0, b"refused=# place=#\n", &numbers)
}

// A negative number counts as 0, which is out of range too.
fn natural(z: i32) -> u32
    ensures { result ≡ job_natural z }
{
    u32::try_from(z).unwrap_or(0)
}

// The listing of a job that is not malformed: refusals 1, 2 and 3 come from the generator.
pub fn draw(out: &mut [u8], head: Head, ts: &[i32]) -> Result<usize, Refusal>
    requires { (text_room ≤ length out.old) × Narrow ts.now }
    ensures { Lists (reply_to (record { head = head; targets = ts.now })) result out.old out.new }
{
    let mut words = [0u32; FULL_LENGTH];
    let n = generator::generate(natural(head.bits), ts, &mut words)?;
    if !arith::within(natural(head.input) as usize, LEAST_WIDTH, MOST_WIDTH) {
        return Err(Refusal::Width);
    }
    Ok(listing::write(out, head, ts, &words, n as usize))
}
