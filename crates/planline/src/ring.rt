// A line that asks the scheduler: a ring's length, its counters, and what is to be read or written.
ghost use Rattle.std.specs.Prelude.{◌≡◌, drop};
ghost use Rattle.planline.specs.Ring.{kind_of, kind_front, parse_of, plan_for, plan_from};

use crate::plan::{Plan, PlanError};
use lines::{last, spaced};
use sched::{Counter, OperationType, RingBufferScheduler};

#[derive(Clone, Copy)]
pub struct Asked {
    pub buf_len: u64,
    pub written: u64,
    pub read: u64,
    pub typ: OperationType,
    pub max_len: u64,
}

// What the whole line asks; none where it is none of the grammar.
pub fn parse(line: &[u8]) -> Option<Asked>
    ensures { result ≡ parse_of line.now }
{
    let buf_len = spaced(line, 0)?;
    let written = spaced(line, buf_len.next)?;
    let read = spaced(line, written.next)?;
    let typ = kind_at(line, read.next)?;
    let max_len = last(line, read.next + 2)?;
    Some(Asked {
        buf_len: buf_len.n,
        written: written.n,
        read: read.n,
        typ,
        max_len: max_len.n,
    })
}

// A letter and a space, at an index as every number of `lines` is.
fn kind_at(line: &[u8], at: usize) -> Option<OperationType>
    ensures { result ≡ kind_front (drop at line.now) }
{
    let letter = *line.get(at)?;
    match line.get(at + 1)? {
        b' ' => kind_of(letter),
        _ => None,
    }
}

#[tactic(auto, unfolding(crate::specs::Ring::kind_of))]
fn kind_of(byte: u8) -> Option<OperationType>
    ensures { result ≡ kind_of byte }
{
    match byte {
        b'R' => Some(OperationType::Read),
        b'W' => Some(OperationType::Write),
        _ => None,
    }
}

// The scheduler's answer to a line.
pub(crate) fn plan_ring(line: &[u8]) -> Result<Plan, PlanError>
    ensures { result ≡ plan_from (parse_of line.now) }
{
    plan_for(parse(line).ok_or(PlanError::Bad)?)
}

fn plan_for(asked: Asked) -> Result<Plan, PlanError>
    ensures { result ≡ plan_for asked }
{
    let written = Counter(asked.written);
    let read = Counter(asked.read);
    let s = RingBufferScheduler::try_from_counters(asked.buf_len, written, read)?;
    let scheduled = s.schedule_contiguous_operations(asked.typ, asked.max_len)?;
    Ok(Plan::Operations(scheduled.operations))
}
