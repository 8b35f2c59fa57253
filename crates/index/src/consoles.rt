//! The jobs of the 32 consoles.
ghost use Rattle.std.specs.Prelude.{◌≡◌, length, None, slice_index_or, slice_set};
ghost use Rattle.model.specs.States.{no_jobs};
ghost use Rattle.index.specs.Jobs.{is_on, sent_to};

use model::Job;

// How many consoles there are.
pub(crate) const CONSOLES: usize = 32;

// The console table: each console has a job or none.
// 32 of them in fixed memory: there are so many screens, always, and no call may fail for want of memory.
#[derive(Clone, Copy, Debug, PartialEq, Eq)]
pub(crate) struct Consoles {
    jobs: [Option<Job>; CONSOLES],
    ghost full: { length jobs ≡ 32 },
}

// Whether a console's job, if it has one, stands on a page.
pub(crate) fn is_on(job: Option<Job>, page: u64) -> bool
    ensures { result ≡ is_on page job }
{
    job.is_some_and(|job| job.page == page)
}

impl Consoles {
    // All consoles idle.
    pub(crate) fn new() -> Consoles
        ensures { result.jobs ≡ no_jobs }
    {
        Consoles {
            jobs: [None; CONSOLES],
        }
    }

    // Leaves every console idle.
    // Console by console with its number, by the loop with which sweep scans them, so that both read alike.
    pub(crate) fn clear(&mut self)
        ensures { self.new.jobs ≡ no_jobs }
    {
        for (_console, job) in self.jobs.iter_mut().enumerate() {
            *job = None;
        }
    }

    // The jobs of all consoles, in order.
    pub(crate) fn jobs(&self) -> &[Option<Job>; CONSOLES]
        ensures { result.now ≡ self.now.jobs }
    {
        &self.jobs
    }

    // The job of a console, `None` for an idle one and for a number that is no console's.
    pub(crate) fn job(&self, console: u64) -> Option<Job>
        ensures { result ≡ slice_index_or self.now.jobs console None }
    {
        self.jobs.get(console as usize).copied().flatten()
    }

    // Gives a console a job, or none; a number that is no console's changes nothing.
    pub(crate) fn assign(&mut self, console: u64, job: Option<Job>)
        ensures { self.new.jobs ≡ slice_set self.old.jobs console job }
    {
        // by an index: what `get_mut` lends out of a struct with a ghost field, the proof loses sight of
        if console < CONSOLES as u64 {
            self.jobs[console as usize] = job;
        }
    }

    // Sends a console's job to another page; an idle console stays idle.
    pub(crate) fn send(&mut self, console: u64, page: u64)
        ensures { self.new.jobs
            ≡ slice_set self.old.jobs console (sent_to page (slice_index_or self.old.jobs console None)) }
    {
        // by an index, as in `assign`
        if console >= CONSOLES as u64 {
            return;
        }
        if let Some(job) = &mut self.jobs[console as usize] {
            job.page = page;
        }
    }
}
