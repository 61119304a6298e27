// A line that asks the planner: the rows of an image, the bytes of each, and a ring's length.
ghost use Rattle.std.specs.Prelude.{◌≡◌};
ghost use Rattle.planline.specs.Strips.{parse_strips_of, strips_from};

use crate::plan::{Plan, PlanError};
use lines::{last, spaced};
use planner::outline;

#[derive(Clone, Copy)]
pub struct AskedStrips {
    pub rows: u64,
    pub row_bytes: u64,
    pub buf_len: u64,
}

// What the whole line asks; none where it is none of the grammar.
pub fn parse_strips(line: &[u8]) -> Option<AskedStrips>
    ensures { result ≡ parse_strips_of line.now }
{
    let rows = spaced(line, 0)?;
    let row_bytes = spaced(line, rows.next)?;
    let buf_len = last(line, row_bytes.next)?;
    Some(AskedStrips {
        rows: rows.n,
        row_bytes: row_bytes.n,
        buf_len: buf_len.n,
    })
}

// The planner's answer to a line.
pub(crate) fn plan_strips(line: &[u8]) -> Result<Plan, PlanError>
    ensures { result ≡ strips_from (parse_strips_of line.now) }
{
    let asked = parse_strips(line).ok_or(PlanError::Bad)?;
    let strips = outline(asked.rows, asked.row_bytes, asked.buf_len)?;
    Ok(Plan::Strips(strips))
}
