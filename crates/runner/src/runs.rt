//! The run of call lines over an index.
ghost use Rattle.std.specs.Prelude.{◌≡◌, ◌+◌, ◌*◌, ◌/◌, ◌<◌, ◌≤◌, false, min, length, Some};
ghost use Rattle.index.specs.Indexes.{state_of, rule_of};
ghost use Rattle.model.specs.Starts.{unmade};
ghost use Rattle.store.specs.Overlay.{overlay};
ghost use Rattle.runner.specs.Lines.{answer_line, request_of};
ghost use Rattle.runner.specs.Runs.{answers_to, state_at, StoreKept};
ghost use Rattle.runner.specs.RunPromises.{NewRun, RunPromised};
ghost use Rattle.runner.specs.Runs.{asked_by, is_due, Performed, line_step, line_writes};

use crate::lines::{Request, read_request, write_answer};
use index::Index;
use order::Order;
use page::PAGE_WORDS;
use store::Store;

/// The bytes of a call line.
pub const CALL_LINE: usize = 73;

/// The bytes of an answer line.
pub const ANSWER_LINE: usize = 25;

// The words of the 48 pages over which `run_loads` and `run_places` make their indexes.
pub(crate) const NEW_WORDS: usize = 48 * PAGE_WORDS;

// The code of a line that is not run.
const NOT_RUN: u64 = 13;

// Whether a request may be run now: a format makes the index, once, and the calls come after it.
fn is_due<S: Store, O: Order>(index: &Index<S, O>, request: Request) -> bool
    ensures { result ≡ is_due (asked_by request) (state_of S.words index.now) }
{
    match request {
        Request::Format { .. } => !index.is_made(),
        _ => index.is_made(),
    }
}

// Runs a request, and hands on the pair that the call answers. One match and no closure: which call it is stands in the
// line.
fn perform<S: Store, O: Order>(index: &mut Index<S, O>, request: Request) -> (u64, u64)
    ensures performed { Performed (rule_of O.keyed O.compared) (asked_by request) (state_of S.words index.old)
        result.0 result.1 (state_of S.words index.new) }
    ensures kept { line_writes (Some request) result.0 ≡ false → index.new.store ≡ index.old.store }
    ensures tied { S.lenders index.new.store ≡ S.lenders index.old.store }
{
    match request {
        Request::Format { fill } => index.format(fill),
        Request::Begin {
            console,
            kind,
            key,
            value,
        } => index.begin(console, kind, key, value),
        Request::Turn { console } => index.turn(console),
        Request::Withdraw { console } => index.withdraw(console),
        Request::Post { page } => index.post(page),
        Request::Merge { page } => index.merge(page),
        Request::Raise => index.raise(),
        Request::Sweep => index.sweep(),
    }
}

// Answers one line, of this number: 13 with the number where it is not run, and then nothing changes. A pair, as the
// calls answer: both become the same kind of answer line.
#[tactic(auto, using(crate::proofs::Replies::performed_gives), unfolding(crate::specs::Runs::line_step))]
fn answer_line<S: Store, O: Order>(index: &mut Index<S, O>, line: &[u8], number: u64) -> (u64, u64)
    ensures code { result.0 ≡ (line_step (rule_of O.keyed O.compared) line.now number
        (state_of S.words index.old)).code }
    ensures figure { result.1 ≡ (line_step (rule_of O.keyed O.compared) line.now number
        (state_of S.words index.old)).figure }
    ensures state { state_of S.words index.new
        ≡ (line_step (rule_of O.keyed O.compared) line.now number (state_of S.words index.old)).next }
    ensures kept { line_writes (request_of line.now) result.0 ≡ false → index.new.store ≡ index.old.store }
    ensures tied { S.lenders index.new.store ≡ S.lenders index.old.store }
{
    match read_request(line) {
        Some(request) if is_due(index, request) => perform(index, request),
        _ => (NOT_RUN, number),
    }
}

// Lays an answer line over the line `i` of the output. It goes by the index, since no contract of std says what a slice
// holds once its `chunks_exact_mut` or `as_chunks_mut` were written to.
#[tactic(auto, using(crate::proofs::Answers::answer_laid))]
fn put_answer(output: &mut [u8], i: usize, answer: (u64, u64))
    requires { (25 * i + 25 ≤ length output.old) × (answer.0 < 1000) }
    ensures { output.new ≡ overlay output.old (25 * i) (answer_line answer.0 answer.1) }
{
    let (code, figure) = answer;
    let at = ANSWER_LINE * i;
    write_answer(&mut output[at..at + ANSWER_LINE], code, figure);
}

/// Runs call lines over an index, each 73 bytes of the input a line, and writes an answer line of 25 bytes for each
/// to the output. It stops when whole lines or room for an answer run out, and says how many lines it answered.
/// Bytes of the output behind their answers are left as they were.
#[tactic(auto, using(crate::proofs::Histories::run_is_promised))]
pub fn run<S: Store, O: Order>(index: &mut Index<S, O>, input: &[u8], output: &mut [u8]) -> usize
    ensures lines { result ≡ min (length input.now / 73) (length output.old / 25) }
    ensures bytes { length (answers_to (rule_of O.keyed O.compared) input.now (state_of S.words index.old) result)
        ≡ 25 * result }
    ensures answers { output.new ≡ overlay output.old 0
        (answers_to (rule_of O.keyed O.compared) input.now (state_of S.words index.old) result) }
    ensures state { state_of S.words index.new
        ≡ state_at (rule_of O.keyed O.compared) input.now (state_of S.words index.old) result }
    ensures kept { StoreKept S.words (rule_of O.keyed O.compared) input.now (state_of S.words index.old)
        index.old.store result index.new.store }
    ensures tied { S.lenders index.new.store ≡ S.lenders index.old.store }
    ensures promises { RunPromised (rule_of O.keyed O.compared) input.now (state_of S.words index.old) }
{
    let (whole, _) = input.as_chunks::<CALL_LINE>();
    let lines = &whole[..whole.len().min(output.len() / ANSWER_LINE)];
    for (i, line) in lines.iter().enumerate() {
        let answer = answer_line(index, line, i as u64 + 1);
        put_answer(output, i, answer);
    }
    lines.len()
}

/// Runs call lines, as `run` does, over an index on this store that is not made yet. It gives the store back, and says
/// how many lines it answered.
pub fn run_new<S: Store, O: Order>(store: S, input: &[u8], output: &mut [u8]) -> (S, usize)
    ensures run { NewRun (rule_of O.keyed O.compared) (unmade (S.words store)) input.now output.old output.new result.1 }
    ensures words { S.words result.0
        ≡ (state_at (rule_of O.keyed O.compared) input.now (unmade (S.words store)) result.1).words }
    ensures kept { StoreKept S.words (rule_of O.keyed O.compared) input.now (unmade (S.words store))
        store result.1 result.0 }
    ensures tied { S.lenders result.0 ≡ S.lenders store }
{
    let mut index: Index<S, O> = Index::new(store);
    let lines = run(&mut index, input, output);
    (index.into_store(), lines)
}
