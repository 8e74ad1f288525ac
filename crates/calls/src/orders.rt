// The orders of a run: `why::explain` and the four lists that it is lent.
ghost use Rattle.std.specs.Prelude.{◌≤◌};

use crate::Page;
use crate::numbers::Answer;
use script::arguments::Arguments;
use script::lines::MOST;
use script::text::Numbers;
use script::{lines, properties};
use std::fmt;
use std::fmt::Write;

// A number of places: a list has as many at most as a run has lines.
fn places(arguments: &mut Arguments<'_>) -> usize
    ensures { result ≤ 512 }
{
    arguments.size().min(MOST)
}

// A property, the number of lines, the lines, the sizes of the lists.
pub fn explain(page: &mut Page, arguments: &mut Arguments<'_>) -> fmt::Result {
    let property = properties::read(arguments);
    let run = lines::read(arguments);
    let a = places(arguments);
    let b = places(arguments);
    let c = places(arguments);
    let d = places(arguments);
    let mut numbers = [0u64; MOST];
    let mut moments = [0i64; MOST];
    let mut numbers2 = [0u64; MOST];
    let mut moments2 = [0i64; MOST];
    let reason = why::explain(
        property,
        &run.output[..run.count],
        &run.action[..run.count],
        &run.stamp[..run.count],
        &mut numbers[..a],
        &mut moments[..b],
        &mut numbers2[..c],
        &mut moments2[..d],
    );
    let answer = Answer(reason.map(|reason| [u64::from(reason.verdict), reason.line]));
    writeln!(page, "Y {answer}")?;
    writeln!(page, "numbers{}", Numbers(&numbers[..a]))?;
    writeln!(page, "moments{}", Numbers(&moments[..b]))?;
    writeln!(page, "numbers2{}", Numbers(&numbers2[..c]))?;
    writeln!(page, "moments2{}", Numbers(&moments2[..d]))
}
