// One line of the run that lent rows hold, with its answer; and the one cut that a run begins with.
#![tactic(auto)]

ghost use Rattle.std.specs.Prelude.{◌≡◌, cond, ◌+◌, ◌-◌, ◌≤◌, ◌<◌, length};
ghost use Rattle.meaning.specs.Limits.{last_stamp, most_open};
ghost use Rattle.meaning.specs.Matcher.{at_start};
ghost use Rattle.matcher.specs.Sets.{cut_of};
ghost use Rattle.rows.specs.Rows.{none, Room};
ghost use Rattle.held.specs.Held.{Closes};
ghost use Rattle.cuts.specs.Steps.{line_of, front_after, front_fresh};
ghost use Rattle.cuts.specs.Fronts.{with_cut, front_of, Usable};
ghost use Rattle.answers.specs.Taken.{LineTaken};

use answers::Reply;
use clock::Clock;
use held::Status;
use property::Line;
use rows::{Span, Words};
use session_record::Told;
use table::Steps;

// The one cut of a run with no line.
pub fn begin(rows: &mut [Words]) -> Span
    requires { Room rows.old none × (3 < length rows.old) }
    ensures { (result ≡ none) × (rows.new ≡ with_cut rows.old none 0 0 (cut_of at_start)) }
{
    let span = rows::spanning(0);
    cuts::put_cut(rows, span, 0, 0, matcher::start());
    span
}

// One line of the run that the rows hold, for which there is room. `clock` is the one after it.
pub fn run_on(
    steps: &Steps<'_>,
    rows: &mut [Words],
    span: Span,
    clock: Clock,
    closed: usize,
    line: Line,
) -> Reply
    requires usable { Usable steps.now.property rows.old span 0 }
    requires closes { Closes steps.now.property.ub rows.old span line.stamp closed × (line.stamp ≤ last_stamp) × (span.count - closed + cond line.output 0 1 ≤ most_open) }
    ensures { LineTaken steps.now.property
        (front_after steps.now.property (front_of rows.old span 0) (line_of line.output line.action line.stamp)) clock rows.new result }
{
    let left = cuts::take_line(
        steps,
        rows,
        span,
        closed,
        line.output,
        u64::from(line.action),
        line.stamp,
    );
    Reply {
        told: Told {
            verdict: cuts::verdict(rows, left, 0),
            open_count: left.count as u64,
        },
        status: Status { span: left, clock },
    }
}

// The first line of a run. `clock` is the one after it.
pub fn begin_with(steps: &Steps<'_>, rows: &mut [Words], clock: Clock, line: Line) -> Reply
    requires { Room rows.old none × (3 < length rows.old) × (line.stamp ≤ last_stamp) }
    ensures { LineTaken steps.now.property
        (front_after steps.now.property (front_fresh steps.now.property) (line_of line.output line.action line.stamp)) clock rows.new result }
{
    let none = begin(rows);
    run_on(steps, rows, none, clock, 0, line)
}
