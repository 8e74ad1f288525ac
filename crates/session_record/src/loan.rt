// What is lent from record to record.
ghost use Rattle.session_record.specs.Lent.{memory, Ready};

use held::Status;
use rows::Words;
use table::Steps;

// A session as it is lent: its property with the table of that property's steps, its rows, and what stands beside them. A call can start
// from it.
#[derive(Drop)]
pub struct Lent<'a> {
    pub steps: &'a Steps<'a>,
    pub rows: &'a mut [Words],
    pub status: Status,
    pub ghost ready: { Ready (memory steps.now.property rows.now status) },
}
