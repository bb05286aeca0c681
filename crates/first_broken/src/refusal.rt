// Why a session is refused, and the tests in order.
ghost use Rattle.std.specs.Prelude.{◌≡◌, Ok};
ghost use Rattle.first_broken.specs.Refusals.{refusal_of, are_verdicts, check_of};
ghost use Rattle.first_broken.specs.Claims.{CheckMeans, RefusedFor};

use text::Refusal;
use trace::fault;

// The most bytes of a trace.
const MAX_TRACE: usize = 1048576;

// The most bytes of a line.
const MAX_WIDTH: usize = 64;

#[derive(Clone, Copy)]
pub enum Cause {
    // A trace is over 1,048,576 bytes.
    TraceTooLong,
    // The stated width is not one of 1 to 64.
    WrongWidth,
    // The first wrong line of the flywheel trace.
    FlywheelLine(u32),
    // The first wrong line of the handle trace.
    HandleLine(u32),
    // A list of verdict bytes that is not one byte, 0 or 1, for each line of its trace.
    WrongVerdicts,
}

impl Cause {
    // The number and line in which a refusal is reported.
    pub fn refusal(self) -> Refusal
        ensures { result ≡ refusal_of self }
    {
        match self {
            Cause::TraceTooLong => Refusal { number: 1, line: 0 },
            Cause::WrongWidth => Refusal {
                number: 26,
                line: 0,
            },
            Cause::FlywheelLine(line) => Refusal { number: 15, line },
            Cause::HandleLine(line) => Refusal { number: 15, line },
            Cause::WrongVerdicts => Refusal {
                number: 25,
                line: 0,
            },
        }
    }
}

// Whether there is one byte for each cycle, and none above 1.
fn are_verdicts(bytes: &[u8], cycles: usize) -> bool
    ensures { result ≡ are_verdicts bytes.now cycles }
{
    bytes.len() == cycles && bytes.iter().all(|&b| b <= 1)
}

// Tests a session: traces of lines of a width, and the verdict bytes of each.
pub fn check(
    width: usize,
    flywheel: &[u8],
    handle: &[u8],
    flywheel_verdicts: &[u8],
    handle_verdicts: &[u8],
) -> Result<(), Cause>
    ensures value { result ≡ check_of width
        (record { trace = flywheel.now; verdicts = flywheel_verdicts.now })
        (record { trace = handle.now; verdicts = handle_verdicts.now }) }
    ensures checks { CheckMeans width
        (record { trace = flywheel.now; verdicts = flywheel_verdicts.now })
        (record { trace = handle.now; verdicts = handle_verdicts.now })
        (RefusedFor result) (result ≡ Ok tt) }
{
    if flywheel.len() > MAX_TRACE {
        return Err(Cause::TraceTooLong);
    }
    if handle.len() > MAX_TRACE {
        return Err(Cause::TraceTooLong);
    }
    if width == 0 {
        return Err(Cause::WrongWidth);
    }
    if width > MAX_WIDTH {
        return Err(Cause::WrongWidth);
    }
    let first = fault(flywheel, width);
    if first != 0 {
        let line = first as u32;
        return Err(Cause::FlywheelLine(line));
    }
    let second = fault(handle, width);
    if second != 0 {
        let line = second as u32;
        return Err(Cause::HandleLine(line));
    }
    let stride = width + 1;
    if !are_verdicts(flywheel_verdicts, flywheel.len() / stride) {
        return Err(Cause::WrongVerdicts);
    }
    if !are_verdicts(handle_verdicts, handle.len() / stride) {
        return Err(Cause::WrongVerdicts);
    }
    Ok(())
}
