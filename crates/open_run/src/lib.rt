// The run of a log that is open: its lines, kept in arrays beside the session that is lent.
#![tactic(auto)]

ghost use Rattle.std.specs.Prelude.{◌+◌, ◌^◌, ◌<◌, ◌≡◌, [], ◌∷◌, ◌++◌};
ghost use Rattle.meaning.specs.Words.{Run};
ghost use Rattle.record_form.specs.Record.{read_case};
ghost use Rattle.trace_form.specs.ReadAs.{case_as};
ghost use Rattle.cuts.specs.Steps.{line_of};
ghost use Rattle.session_record.specs.Loan.{memory_in};
ghost use Rattle.one_record.specs.Doing.{doing_in};
ghost use Rattle.open_run.specs.Kept.{Keeps, Goes};

use limits::MOST_LINES;
use one_record::Did;
use outcomes::Refusal;
use property::Line;
use record_form::Record;
use session_record::Lent;

// The lines of a run, and their number. Behind the 256th there is no place, and a line is only counted.
#[derive(Clone, Copy)]
pub struct Kept {
    pub outputs: [bool; 256],
    pub actions: [u8; 256],
    pub stamps: [u64; 256],
    // 0 where no run is open.
    pub count: usize,
}

impl Kept {
    // Nothing is kept of a log that begins.
    pub fn new() -> Self
        ensures { Keeps [] result }
    {
        Kept {
            outputs: [false; 256],
            actions: [0; 256],
            stamps: [0; 256],
            count: 0,
        }
    }

    // Keeps a line behind the others.
    fn keep(&mut self, line: Line)
        requires { self.old.count + 1 < 2 ^ 64 }
        ensures kept { (run : Run) → Keeps run self.old → Keeps (run ++ line_of line.output line.action line.stamp ∷ []) self.new }
        ensures counted { self.new.count ≡ self.old.count + 1 }
    {
        let place = self.count;
        self.count += 1;
        if place < MOST_LINES {
            self.outputs[place] = line.output;
            self.actions[place] = line.action;
            self.stamps[place] = line.stamp;
        }
    }
}

// A record as it was read. A line that is taken is the next of the run that is open after it; while blind there was none, and the line begins
// one or is skipped. A gap mark closes the run.
pub fn take(
    lent: &mut Lent<'_>,
    kept: &mut Kept,
    read: Result<Record, Refusal>,
) -> Result<Did, Refusal>
    requires { kept.old.count + 1 < 2 ^ 64 }
    ensures goes { Goes (memory_in lent.old) kept.old (case_as (read_case read)) (doing_in result) (memory_in lent.new) kept.new }
    ensures same_rows { lent.new.rows.ghost_name ≡ lent.old.rows.ghost_name }
    ensures same_steps { lent.new.steps ≡ lent.old.steps }
{
    let did = one_record::take(lent, read)?;
    let blind = lent.status.clock.blind;
    match did {
        Did::Line(line, _) => {
            if blind {
                kept.count = 0;
            } else {
                kept.keep(line);
            }
        }
        Did::Gap(_, _, _) => kept.count = 0,
        Did::Ended => {}
    }
    Ok(did)
}
