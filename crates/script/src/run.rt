// Document 01, "Script and printout": one call of a script, run and printed. The target is lent to each call: "thin functions
// take the target by &mut, call the core and store the new state" (decision 64).
ghost use Rattle.std.specs.Prelude.{◌≡◌, ◌≤◌, length, replicate};
ghost use Rattle.text.specs.Writing.{Room};
ghost use Rattle.reader.specs.Judging.{SCRIPT_MEMORY, CallFits};
ghost use Rattle.portals.specs.Calls as Calls;
ghost use Rattle.script.specs.Run.{asked};
ghost use Rattle.script.specs.Promises.{TEXT, LINE, CallRan, LineRan};

use host::lent;
use matching::layout::Request;
use printer::said;
use printer::said::Say;
use reader::calls::Call;
use state::layout::Target;
use text::writing::Writer;

// 16,384 zero bytes.
pub(crate) fn zero_bytes() -> [u8; 16384]
    ensures { result ≡ replicate SCRIPT_MEMORY 0 }
{
    [0u8; 16384]
}

// A get for so many bytes. Its reply buffer is the leading part of 16,384 zero bytes, since there is no heap.
fn run_get(t: &mut Target, memory: &[u8], q: Request, asked: usize, k: usize, w: &mut Writer)
    requires { (asked ≤ SCRIPT_MEMORY) × (Room w.old TEXT) }
    ensures { CallRan (Calls.get q (replicate asked 0)) t.old memory.now k w.old t.new memory.now w.new }
{
    let mut zeros = zero_bytes();
    let reply = &mut zeros[..asked];
    let answer = lent::get(t, memory, q, reply);
    answer.say(w, k);
    said::put_reply(w, answer, reply);
}

// Runs a call of a script. A put's payload is handed on as a part of the script. Each kind of call has arguments and an answer of
// its own, so no table of functions would be plainer than the arms.
fn run_call(t: &mut Target, memory: &mut [u8], script: &[u8], call: Call, k: usize, w: &mut Writer)
    requires { (CallFits script.now call) × (Room w.old TEXT) }
    ensures { CallRan (asked script.now call) t.old memory.old k w.old t.new memory.new w.new }
{
    match call {
        Call::Append(e) => lent::append(t, e).say(w, k),
        Call::Unlink(handle) => lent::unlink(t, handle).say(w, k),
        Call::Put { request, from, end } => {
            lent::put(t, memory, request, &script[from..end]).say(w, k)
        }
        Call::Get { request, length } => run_get(t, memory, request, length, k, w),
        Call::ReadEvent => lent::read_event(t).say(w, k),
        Call::ReadCounter(n) => lent::read_counter(t, n).say(w, k),
        Call::SetCounter(x) => lent::set_counter(t, x).say(w, k),
        Call::Increment(x) => lent::increment(t, x).say(w, k),
        Call::Search(e) => lent::search(t, e).say(w, k),
        Call::ReadRegister(n) => lent::read_register(t, n).say(w, k),
    }
}

// Runs call k of a script, and ends its line.
pub(crate) fn run_line(
    t: &mut Target,
    memory: &mut [u8],
    script: &[u8],
    call: Call,
    k: usize,
    w: &mut Writer,
)
    requires { (CallFits script.now call) × (Room w.old LINE) }
    ensures { LineRan (asked script.now call) t.old memory.old k w.old t.new memory.new w.new }
{
    run_call(t, memory, script, call, k, w);
    w.put_byte(b'\n');
}
