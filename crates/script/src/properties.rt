// A property: taken from a script, and printed.
use crate::arguments::Arguments;
use crate::text::{used, wide_bytes, wide_flags};
use property::Property;
use std::fmt;
use std::fmt::{Display, Formatter};

// n, 32 directions, 32 numbers, allowed, LB, UB.
pub fn read(arguments: &mut Arguments<'_>) -> Property {
    Property {
        n: arguments.size(),
        output: arguments.bytes().map(|b| b != 0),
        number: arguments.bytes(),
        allowed: arguments.word(),
        lb: arguments.word(),
        ub: arguments.word(),
    }
}

// Three lines.
#[derive(Clone, Copy)]
pub struct PropertyText<'a>(pub &'a Property);

impl Display for PropertyText<'_> {
    fn fmt<W: fmt::Write>(&self, f: &mut Formatter<W>) -> fmt::Result {
        let p = self.0;
        writeln!(f, "property {} {} {} {}", p.n, p.allowed, p.lb, p.ub)?;
        writeln!(f, "directions{}", used(&wide_flags(&p.output)))?;
        writeln!(f, "numbers{}", used(&wide_bytes(&p.number)))
    }
}
