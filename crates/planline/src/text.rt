// A plan's text, behind what a lent buffer holds already. Buffer and index stay two arguments, as in `lines`.
// No `Display`: its contract knows a formatter, and `append`'s says which bytes of a lent buffer change, and which stay.
ghost use Rattle.std.specs.Prelude.{◌≡◌};
ghost use Rattle.lines.specs.Stored.{Stores};
ghost use Rattle.lines.specs.Text.{filled, append_of};
ghost use Rattle.planline.specs.Cut.{line_text};
ghost use Rattle.planline.specs.Text.{operation_text, list_text, strips_text, plan_text, longest};

use crate::plan::{Plan, PlanError, Question, plan_line};
use lines::{has_room, put, put_decimal};
use planner::Strips;
use sched::{AtMostTwo, ScheduledOperation, ScheduledOperations};

// No text is longer: "ok 2", four numbers of 20 digits with a space before each, and the line feed.
pub(crate) const LONGEST: usize = 89;

// The line's answer at `at` of the buffer, with its line feed; answers the index behind it. A buffer without room for the
// longest text stays as it is, and the index too: an index and no Option, which the text so far has either way.
pub fn append(question: Question, line: &[u8], out: &mut [u8], at: usize) -> usize
    ensures { filled result out.new ≡ append_of longest (line_text question line.now) (filled at out.old) }
{
    if has_room(out, at, LONGEST) {
        return put_plan(out, at, plan_line(question, line));
    }
    at
}

fn put_plan(out: &mut [u8], at: usize, plan: Result<Plan, PlanError>) -> usize
    ensures { Stores out.old at (plan_text plan) out.new result }
{
    match plan {
        Err(PlanError::Bad) => put(out, at, b"bad\n"),
        Err(PlanError::Refused(e)) => {
            let number = put(out, at, b"refused ");
            let end = put_decimal(out, number, e.number());
            put(out, end, b"\n")
        }
        Ok(Plan::Operations(list)) => {
            let count = put(out, at, b"ok ");
            let end = put_list(out, count, list);
            put(out, end, b"\n")
        }
        Ok(Plan::Strips(strips)) => {
            let count = put(out, at, b"ok ");
            let end = put_strips(out, count, strips);
            put(out, end, b"\n")
        }
    }
}

fn put_list(out: &mut [u8], at: usize, list: ScheduledOperations) -> usize
    ensures { Stores out.old at (list_text list) out.new result }
{
    match list {
        AtMostTwo::None => put(out, at, b"0"),
        AtMostTwo::One(a) => {
            let first = put(out, at, b"1");
            put_operation(out, first, a)
        }
        AtMostTwo::Two(a, b) => {
            let first = put(out, at, b"2");
            let second = put_operation(out, first, a);
            put_operation(out, second, b)
        }
    }
}

fn put_operation(out: &mut [u8], at: usize, op: ScheduledOperation) -> usize
    ensures { Stores out.old at (operation_text op) out.new result }
{
    let offset = put(out, at, b" ");
    let space = put_decimal(out, offset, op.off.0);
    let len = put(out, space, b" ");
    put_decimal(out, len, op.len)
}

// How many strips, the rows in each, and those in the last.
fn put_strips(out: &mut [u8], at: usize, strips: Strips) -> usize
    ensures { Stores out.old at (strips_text strips) out.new result }
{
    let first = put_decimal(out, at, strips.count);
    let height = put(out, first, b" ");
    let second = put_decimal(out, height, strips.height);
    let last = put(out, second, b" ");
    put_decimal(out, last, strips.last)
}
