//! One turn of a console: its job reads the page on which it stands, and goes on from it or is finished there.
ghost use Rattle.std.specs.Prelude.{◌≡◌, ◌<◌, true, length, Some, None};
ghost use Rattle.page.specs.Buffers.{page_of};
ghost use Rattle.page.specs.Entries.{list_of};
ghost use Rattle.page.specs.Pages.{is_there};
ghost use Rattle.model.specs.Entries.{find, insert, remove};
ghost use Rattle.model.specs.States.{with_job};
ghost use Rattle.model.specs.Turns.{turn, turn_state, is_past, child_of, job_at};
ghost use Rattle.model.specs.declared.answers.Done.TheVariants.{Moved, Entered, Struck};
ghost use Rattle.index.specs.Jobs.{sent_to};
ghost use Rattle.index.specs.Turns.{entered, struck};
ghost use Rattle.index.specs.Indexes.{state_of, rule_of, KeptUnlessWritten};
ghost use Rattle.index.specs.Searches.{PlaceFor, TakenAt};

use crate::index::Index;
use model::Kind::{Enter, Look, Strike};
use model::{Answer, Done, Job, Refusal};
use order::{Key, Order};
use page::PageState::{Damaged, Free, Gone, Live};
use page::{Entries, Entry, PageBuf};
use store::Store;

// Whether a key is too large for a page.
fn is_past<O: Order>(page: &PageBuf, key: Key) -> bool
    ensures { result ≡ is_past (rule_of O.keyed O.compared) key page.now.end }
{
    page.end.is_some_and(|end| O::compare(key, end).is_ge())
}

// Entries are searched from the first to the last: a page of a damaged store need not be sorted, and what is promised
// holds on any store.

// The value that is held for a key. `place_of` asks for the place, for which the library has another method.
fn find<O: Order>(entries: &[Entry], key: Key) -> Option<u64>
    ensures { result ≡ find (rule_of O.keyed O.compared) key entries.now }
{
    entries
        .iter()
        .find(|held| O::compare(held.key, key).is_eq())
        .map(|held| held.value)
}

// The page to which an inner page sends a key: that of the last entry whose key is not after it.
// The first entry counts whatever its key. 0 where there is no entry, which no inner page that can be worked on is without.
fn child_of<O: Order>(entries: &[Entry], key: Key) -> u64
    ensures { result ≡ child_of (rule_of O.keyed O.compared) key entries.now }
{
    let [first, rest @ ..] = entries else {
        return 0;
    };
    rest.iter().fold(first.value, |child, held| {
        if O::compare(held.key, key).is_le() {
            held.value
        } else {
            child
        }
    })
}

// Where an entry goes: before the first that is after it.
fn place_for<O: Order>(entries: &[Entry], new: Entry) -> usize
    ensures { PlaceFor (rule_of O.keyed O.compared) new entries.now result }
{
    entries
        .iter()
        .position(|held| O::compare(held.key, new.key).is_gt())
        .unwrap_or(entries.len())
}

// Where the entry for a key stands.
fn place_of<O: Order>(entries: &[Entry], key: Key) -> Option<usize>
    ensures { TakenAt (rule_of O.keyed O.compared) key entries.now result }
{
    entries
        .iter()
        .position(|held| O::compare(held.key, key).is_eq())
}

// Puts an entry in among others that leave room for it: its caller tested that, by the fill.
fn put_in<O: Order>(entries: &mut Entries, new: Entry)
    requires { length (list_of entries.old) < 18 }
    ensures { list_of entries.new
        ≡ insert (rule_of O.keyed O.compared) new (list_of entries.old) }
{
    let at = place_for::<O>(entries.as_slice(), new);
    entries.insert(at, new);
}

// Takes the entry for a key out, if there is one.
fn take_out<O: Order>(entries: &mut Entries, key: Key)
    ensures { list_of entries.new
        ≡ remove (rule_of O.keyed O.compared) key (list_of entries.old) }
{
    if let Some(at) = place_of::<O>(entries.as_slice(), key) {
        entries.remove(at);
    }
}

impl<S: Store, O: Order> Index<S, O> {
    // Sends a console's job to another page.
    fn go(&mut self, console: u64, page: u64) -> Done
        ensures done { result ≡ Moved page }
        ensures state { state_of S.words self.new
            ≡ with_job console (sent_to page (job_at (state_of S.words self.old) console))
            (state_of S.words self.old) }
        ensures kept { self.new.store ≡ self.old.store }
    {
        self.consoles.send(console, page);
        Done::Moved(page)
    }

    // Finishes a console's job, of which something is done.
    fn finish(&mut self, console: u64, done: Done) -> Done
        ensures done { result ≡ done }
        ensures state { state_of S.words self.new
            ≡ with_job console None (state_of S.words self.old) }
        ensures kept { self.new.store ≡ self.old.store }
    {
        self.consoles.assign(console, None);
        done
    }

    // Puts a job's entry into the leaf on which it stands, which has room for it: `turn_on` tested that, by the fill.
    fn enter(&mut self, console: u64, job: Job, leaf: PageBuf) -> Done
        requires there { is_there (S.words self.old.store) job.page ≡ true }
        requires room { length (list_of leaf.entries) < 18 }
        ensures done { result ≡ Entered }
        ensures state { state_of S.words self.new
            ≡ entered (rule_of O.keyed O.compared) console job (page_of leaf) (state_of S.words self.old) }
        ensures tied { S.lenders self.new.store ≡ S.lenders self.old.store }
    {
        let entry = Entry {
            key: job.task.key,
            value: job.task.value,
        };
        let mut with_entry = leaf;
        put_in::<O>(&mut with_entry.entries, entry);
        self.save(job.page, &with_entry);
        self.finish(console, Done::Entered)
    }

    // Takes the entry for a job's key, whose value was found, out of the leaf on which it stands.
    fn strike(&mut self, console: u64, job: Job, leaf: PageBuf, value: u64) -> Done
        requires { is_there (S.words self.old.store) job.page ≡ true }
        ensures done { result ≡ Struck value }
        ensures state { state_of S.words self.new
            ≡ struck (rule_of O.keyed O.compared) console job (page_of leaf) (state_of S.words self.old) }
        ensures tied { S.lenders self.new.store ≡ S.lenders self.old.store }
    {
        let mut without_entry = leaf;
        take_out::<O>(&mut without_entry.entries, job.task.key);
        self.save(job.page, &without_entry);
        self.finish(console, Done::Struck(value))
    }

    // What a job does at the page on which it stands, by its kind and by the page's state, level and entries. Console, job
    // and page are three arguments and no struct: whoever takes them uses each by itself.
    fn turn_on(&mut self, console: u64, job: Job, page: PageBuf) -> Answer
        requires job { job_at (state_of S.words self.old) console ≡ Some job }
        requires there { is_there (S.words self.old.store) job.page ≡ true }
        ensures answer { result
            ≡ (turn_state (rule_of O.keyed O.compared) console job (page_of page) page.state
            (state_of S.words self.old)).answer }
        ensures state { state_of S.words self.new
            ≡ (turn_state (rule_of O.keyed O.compared) console job (page_of page) page.state
            (state_of S.words self.old)).after }
        ensures kept { KeptUnlessWritten result self.old.store self.new.store }
        ensures tied { S.lenders self.new.store ≡ S.lenders self.old.store }
    {
        let key = job.task.key;
        let past_end = is_past::<O>(&page, key);
        let found = find::<O>(page.entries.as_slice(), key);
        let has_room = (page.entries.len() as u64) < self.fill;
        match (job.task.kind, page.state, page.level, found) {
            (_, Free | Damaged, _, _) => Err(Refusal::Unreadable(job.page)),
            (_, Gone, _, _) => Ok(self.go(console, page.link)),
            (_, Live, _, _) if past_end => Ok(self.go(console, page.link)),
            (Look, Live, 0, Some(value)) => Ok(self.finish(console, Done::Found(value))),
            (Enter, Live, 0, Some(value)) => Ok(self.finish(console, Done::Held(value))),
            (Strike, Live, 0, Some(value)) => Ok(self.strike(console, job, page, value)),
            (Enter, Live, 0, None) if has_room => Ok(self.enter(console, job, page)),
            (Enter, Live, 0, None) => self.split_full(job.page, page),
            (Look | Strike, Live, 0, None) => Ok(self.finish(console, Done::Absent)),
            (_, Live, _, _) => Ok(self.go(console, child_of::<O>(page.entries.as_slice(), key))),
        }
    }

    // One turn of a console.
    pub(crate) fn turn_step(&mut self, console: u64) -> Answer
        ensures answer { result
            ≡ (turn (rule_of O.keyed O.compared) console (state_of S.words self.old)).answer }
        ensures state { state_of S.words self.new
            ≡ (turn (rule_of O.keyed O.compared) console (state_of S.words self.old)).after }
        ensures kept { KeptUnlessWritten result self.old.store self.new.store }
        ensures tied { S.lenders self.new.store ≡ S.lenders self.old.store }
    {
        let job = self.job_of(console)?.ok_or(Refusal::Idle)?;
        let page = self.page(job.page).ok_or(Refusal::Unreadable(job.page))?;
        self.turn_on(console, job, page)
    }
}
