// Document 01, "Request": the calls put and get.
ghost use Rattle.std.specs.Prelude.{◌≡◌};
ghost use Rattle.portals.specs.Admission.{Admits};
ghost use Rattle.portals.specs.Answers.{answered, taken_as, request_answer};
ghost use Rattle.portals.specs.Request.{delivery_answer, answer_by, request_tests, DecidedAs};
ghost use Rattle.portals.specs.Promises.{PutMet, GetMet};

use crate::admission;
use crate::answers::RequestAnswer;
use matching::layout::Request;
use matching::refusals::Refusal;
use matching::request;
use matching::request::{Kind, Violation};
use requests::decision::Decision;
use requests::plan::Plan;
use requests::{bytes, decision, parts};
use state::layout::Target;

// The tests of a request for so many bytes, with a memory of this size lent, in their order.
fn request_admitted(t: &Target, size: usize, q: &Request, requested: usize) -> Result<(), Refusal>
    ensures { Admits (λ v. request_tests v size q.now requested) t.now result }
{
    admission::test_state(t)?;
    if size != t.size as usize {
        return Err(Refusal::BadMemory);
    }
    request::test_request(q, requested)?;
    Ok(())
}

// What becomes of a request: its tests, and then the rules.
pub fn request_decided(
    t: &Target,
    size: usize,
    q: &Request,
    kind: Kind,
    requested: usize,
) -> Result<Decision, Refusal>
    ensures { DecidedAs t.now size q.now kind requested result }
{
    request_admitted(t, size, q, requested)?;
    let a = request::arrival_of(q, kind, requested as u32);
    Ok(decision::decide(t, q.portal, &a))
}

// PRIORITY or OVERFLOW, by the list of the chosen entry. The ack is asked and given as the number of the C interface.
fn answer_delivery(p: &Plan, kind: Kind, ack: u16) -> RequestAnswer
    ensures { taken_as result ≡ delivery_answer kind ack p.now }
{
    let e = &p.entry.entry;
    let length = p.message.accepted;
    let offset = p.offset;
    let ack = request::ack_given(e.options, kind, ack);
    if e.list == 0 {
        RequestAnswer::Priority {
            length,
            offset,
            ack,
        }
    } else {
        RequestAnswer::Overflow {
            length,
            offset,
            ack,
        }
    }
}

// What a request answers. The ack is asked and given as the number of the C interface.
pub fn answer_by(d: &Decision, kind: Kind, ack: u16) -> RequestAnswer
    ensures { taken_as result ≡ answer_by kind ack d.now }
{
    let asked = request::ack_asked(kind, ack);
    match d {
        Decision::Drop => RequestAnswer::Dropped(asked),
        Decision::Deny(Violation::Permission) => RequestAnswer::PermissionViolation(asked),
        Decision::Deny(Violation::Operation) => RequestAnswer::OperationViolation(asked),
        Decision::Deliver(p) => answer_delivery(p, kind, ack),
    }
}

// The same of a request that may have been refused: it answers the refusal. The ack is the number of the C interface here too.
pub fn answer_if_decided(
    decided: &Result<Decision, Refusal>,
    kind: Kind,
    ack: u16,
) -> Result<RequestAnswer, Refusal>
    ensures { request_answer result ≡ answered (answer_by kind ack) decided.now }
{
    match decided {
        Ok(d) => Ok(answer_by(d, kind, ack)),
        Err(refusal) => Err(*refusal),
    }
}

// A put: where it is delivered, the first bytes of the payload go to the memory.
pub fn put(
    t: &mut Target,
    memory: &mut [u8],
    q: Request,
    payload: &[u8],
) -> Result<RequestAnswer, Refusal>
    ensures { PutMet t.old memory.old q payload.now (record { target = t.new; answer = result }) memory.new }
{
    let d = request_decided(t, memory.len(), &q, Kind::Put, payload.len())?;
    bytes::bytes_put(memory, &d, payload);
    parts::carry_out(t, &d);
    Ok(answer_by(&d, Kind::Put, q.ack))
}

// A get: where it is delivered, bytes of the memory fill the first of the reply.
pub fn get(
    t: &mut Target,
    memory: &[u8],
    q: Request,
    reply: &mut [u8],
) -> Result<RequestAnswer, Refusal>
    ensures { GetMet t.old memory.now q reply.old (record { target = t.new; answer = result }) reply.new }
{
    let d = request_decided(t, memory.len(), &q, Kind::Get, reply.len())?;
    bytes::bytes_got(reply, &d, memory);
    parts::carry_out(t, &d);
    Ok(answer_by(&d, Kind::Get, q.ack))
}
