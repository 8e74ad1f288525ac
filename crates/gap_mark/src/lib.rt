// A gap mark on lent rows, in which it changes nothing: what they hold is not in use while blind.
#![tactic(auto)]

ghost use Rattle.std.specs.Prelude.{Ok, Err, MatchResult};
ghost use Rattle.meaning.specs.Calls.{mark_at};
ghost use Rattle.session_record.specs.Lent.{memory, Ready, Advanced};
ghost use Rattle.session_record.specs.Step.{answer_in};

use answers::Reply;
use held::Status;
use outcomes::Refusal;
use property::Property;
use rows::Words;

// A gap mark, with the number of lost lines. Refused, it leaves what stands beside the rows as it was.
pub fn mark(
    p: Property,
    rows: &[Words],
    status: Status,
    lost: u8,
    stamp: u64,
) -> Result<Reply, Refusal>
    requires { Ready (memory p rows.now status) }
    ensures { MatchResult result
        (λ reply. Advanced (memory p rows.now status) (mark_at lost stamp) (answer_in (Ok reply.told)) (memory p rows.now reply.status))
        (λ refusal. Advanced (memory p rows.now status) (mark_at lost stamp) (answer_in (Err refusal)) (memory p rows.now status)) }
{
    let clock = status.clock;
    answers::refused(lost, clock, stamp)?;
    let closing = answers::standing_on(p, rows, status);
    Ok(answers::blinded(closing, clock::marked(clock, stamp)))
}
