//! What is proved of every history of calls. Each function's contract is the promise that it is named for.
ghost use Rattle.model.specs.Example.{WorkedExample};
ghost use Rattle.model.specs.Jobs.{SameJobsSameAnswers};
ghost use Rattle.model.specs.Promises.{AloneWithinPages, AnswersAsReference, SoundAfterAll};

/// The index answers as the reference does, holds its entries, and meets no damaged page.
pub fn answers_as_reference()
    ensures { AnswersAsReference }
{}

/// Two histories that finished the same jobs, key by key, gave them the same answers and hold the same entries.
pub fn same_jobs_same_answers()
    ensures { SameJobsSameAnswers }
{}

/// A job alone is finished within as many turns as the index has pages, unless a turn finds no free page.
pub fn alone_within_pages()
    ensures { AloneWithinPages }
{}

/// After every history the store is sound.
pub fn sound_after_all()
    ensures { SoundAfterAll }
{}

/// The worked example comes out as it is told.
pub fn worked_example()
    ensures { WorkedExample }
{}
