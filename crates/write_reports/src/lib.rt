#![tactic(auto)]
// A writer's answer as numbers, for the functions that write: 0 and the length written into a lent array, or the refusal's number, which leaves the array as
// it was.
ghost use Rattle.std.specs.Prelude.{◌≡◌};
ghost use Rattle.xdr.specs.Writes.{afterwards};
ghost use Rattle.numbers.specs.Reports.{tell};
ghost use Rattle.write_reports.specs.WriteReports.{write_report};

use form_writer::parts::WriteRefusal;
use numbers::fill;

// A writer's answer as a number, and the length written into the array.
pub fn report(answer: Result<usize, WriteRefusal>, out: &mut [u64]) -> u32
    ensures { afterwards result out.new ≡ tell (write_report answer) out.old }
{
    match answer {
        Ok(n) => {
            fill(out, &[n as u64]);
            0
        }
        Err(why) => u32::from(why),
    }
}
