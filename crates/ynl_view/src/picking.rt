//! The answers at the places of a view.

ghost use Rattle.std.specs.Prelude.{◌≡◌, ◌<◌, IfOk, All, length, map, Some};
ghost use Rattle.ynl_model.specs.View.{at_places};

use std::alloc::{AllocError, Global};
use ynl_core::{Answer, NoMemory};
use ynl_model::Reply;

/// The same reply, in memory of its own.
pub fn copy_reply(alloc: Global, reply: &Reply) -> Result<Reply, AllocError>
    ensures { IfOk result (λ copy. copy ≡ reply.now) }
{
    match reply {
        Reply::Done => Ok(Reply::Done),
        Reply::Refused(refusal) => Ok(Reply::Refused(*refusal)),
        Reply::Placed(list) => Ok(Reply::Placed(list.copy(alloc)?)),
        Reply::Proposed(proposal) => Ok(Reply::Proposed(*proposal)),
        Reply::Committed(container) => Ok(Reply::Committed(*container)),
        Reply::Held { containers, asks } => Ok(Reply::Held {
            containers: containers.copy(alloc)?,
            asks: asks.copy(alloc)?,
        }),
        Reply::Usage {
            used,
            guaranteed,
            maximum,
            masters,
            guests,
        } => Ok(Reply::Usage {
            used: *used,
            guaranteed: *guaranteed,
            maximum: *maximum,
            masters: *masters,
            guests: *guests,
        }),
    }
}

fn answer_copy(alloc: Global, answer: &Answer) -> Result<Answer, AllocError>
    ensures { IfOk result (λ copy. copy ≡ answer.now) }
{
    match answer {
        Answer::Replied(reply) => Ok(Answer::Replied(copy_reply(alloc, reply)?)),
        Answer::NoMemory => Ok(Answer::NoMemory),
    }
}

/// The answers at the places, in the order of the places.
pub fn pick(alloc: Global, answers: &[Answer], places: &[u64]) -> Result<Vec<Answer>, NoMemory>
    requires { All (λ place. place < length answers.now) places.now }
    ensures { IfOk result (λ picked. map Some picked.items ≡ at_places answers.now places.now) }
{
    let mut picked = Vec::with_capacity(alloc, places.len())?;
    for place in places {
        let place = *place as usize;
        let answer = answer_copy(alloc, &answers[place])?;
        picked.push(answer)?;
    }
    Ok(picked)
}
