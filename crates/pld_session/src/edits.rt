//! The answers to edits.

ghost use Rattle.std.specs.Prelude.{◌≡◌, [], true, IfOk};
ghost use Rattle.pld_reply.specs.Refusals.{refused_reply};
ghost use Rattle.pld_session.specs.Answers.{refusal_of as refusal_for};
ghost use Rattle.pld_session.specs.Steps.{TellsEdit};

use pld_base::NoMemory;
use pld_draft::{EditFault, EditRefusal};
use pld_reply::{Refusal, put_ok, put_refused};

/// Refuses a statement.
pub fn refuse(number: u64, why: Refusal, reply: &mut Vec<u8>) -> Result<bool, NoMemory>
    requires { reply.old.items ≡ [] }
    ensures { IfOk result (λ refused. (refused ≡ true) × (reply.new.items ≡ refused_reply number why)) }
{
    put_refused(reply, number, &why)?;
    Ok(true)
}

fn refusal_of(why: EditRefusal) -> Refusal
    ensures { result ≡ refusal_for why }
{
    match why {
        EditRefusal::Graph(fault) => Refusal::Graph(fault),
        EditRefusal::Source(fault) => Refusal::Source(fault),
        EditRefusal::TooManyWords => Refusal::TooManyWords,
    }
}

/// Answers an edit that ended so.
pub fn answer_edit(
    number: u64,
    done: Result<(), EditFault>,
    reply: &mut Vec<u8>,
) -> Result<bool, NoMemory>
    requires { reply.old.items ≡ [] }
    ensures { IfOk result (λ refused. TellsEdit number done reply.new.items refused) }
{
    match done {
        Ok(()) => {
            put_ok(reply)?;
            Ok(false)
        }
        Err(EditFault::Refused(why)) => refuse(number, refusal_of(why), reply),
        Err(EditFault::NoMemory) => Err(NoMemory),
    }
}
