//! How many loads there are, and how many tonnes: by the answers of the day, and by the pages.
use crate::day::{Done, PAGES};
use crate::desks::{Ending, Task};
use page::{PageBuf, PageState, read_page};
use store::Store;

/// A number of loads and their tonnes.
#[derive(Clone, Copy, Debug, Default, PartialEq, Eq)]
pub struct Tally {
    pub loads: u64,
    pub tonnes: u64,
}

impl Tally {
    /// The tally after a job: a load more where it was entered, one less where it was struck.
    pub fn after(self, (job, ending): Done) -> Tally {
        match (job.task, ending) {
            (Task::Enter(tonnes), Ending::Answered { code: 25, .. }) => self.plus(tonnes),
            (
                _,
                Ending::Answered {
                    code: 27,
                    figure,
                    ..
                },
            ) => Tally {
                loads: self.loads.saturating_sub(1),
                tonnes: self.tonnes.saturating_sub(figure),
            },
            _ => self,
        }
    }

    // One load more.
    fn plus(self, tonnes: u64) -> Tally {
        Tally {
            loads: self.loads.saturating_add(1),
            tonnes: self.tonnes.saturating_add(tonnes),
        }
    }
}

/// The loads that stand in the live leaves of a store.
pub fn remaining<S: Store>(store: &S) -> Tally {
    (1..PAGES)
        .filter_map(|number| read_page(store, number))
        .filter(|page| page.state == PageState::Live && page.level == 0)
        .fold(Tally::default(), with_page)
}

// The tally with a page's loads.
fn with_page(tally: Tally, page: PageBuf) -> Tally {
    page.entries
        .as_slice()
        .iter()
        .fold(tally, |tally, entry| tally.plus(entry.value))
}
