//! The calls of a job by ticket, for our own modules: a ticket stands for a console's unfinished job, and the check
//! refuses a program that lets one go, or that turns one whose job is finished.
ghost use Rattle.std.specs.Prelude.{◌≡◌, ◌≢◌, true, not, ◌==◌};
ghost use Rattle.order.specs.Refusals.{JustWhere};
ghost use Rattle.model.specs.CallPromises.{Called, EndsAlone};
ghost use Rattle.model.specs.Calls.{begin as begin_call, turn as turn_call, withdraw as withdraw_call};
ghost use Rattle.model.specs.Jobs.{ends_job};
ghost use Rattle.index.specs.Indexes.{state_of, rule_of};
ghost use Rattle.index.specs.Tickets.{IsOpen, console_of};

use crate::index::Index;
use model::{Done, pair};
use order::{Key, Order};
use store::Store;

/// A console's unfinished job, in the hands of a module that gave it to the index.
///
/// Only begin makes one. It is neither copied nor let go: it is turned until its answer comes, or withdrawn.
#[must_use]
#[derive(Debug)]
pub struct Ticket {
    console: u64,
    spent: bool,
}

impl Ticket {
    /// The console whose job it stands for.
    pub fn console(&self) -> u64
        ensures { result ≡ console_of self.now }
    {
        self.console
    }

    // Uses the ticket up.
    fn spend(mut self) {
        self.spent = true;
    }

    // The ticket again, or none where its job has ended: then it is used up.
    fn unless_ended(self, ended: bool) -> Option<Ticket>
        ensures { JustWhere (not ended) (λ left. left ≡ self) result }
    {
        if ended {
            self.spend();
            None
        } else {
            Some(self)
        }
    }
}

// What a drop requires is asked wherever a ticket would be let go. Types that own what they hold by `T: Drop`, as `Vec`
// does, cannot promise it, so none of them takes a ticket; an `Option` that is matched does.
impl Drop for Ticket {
    fn drop(self)
        requires { self.spent ≡ true }
    {
        let Ticket {
            console: _,
            spent: _,
        } = self;
    }
}

impl<S: Store, O: Order> Index<S, O> {
    /// Begins a job, as `begin` does. A ticket of the console comes just with 20.
    pub fn begin_by_ticket(
        &mut self,
        console: u64,
        kind: u64,
        key: Key,
        value: u64,
    ) -> ((u64, u64), Option<Ticket>)
        ensures called { Called (rule_of O.keyed O.compared) (begin_call console kind key value)
            (state_of S.words self.old) result.0.0 result.0.1 (state_of S.words self.new) }
        ensures kept { self.new.store ≡ self.old.store }
        ensures tied { S.lenders self.new.store ≡ S.lenders self.old.store }
        ensures ticket { JustWhere (result.0.0 == 20) (IsOpen console) result.1 }
    {
        let answer = self.begin_step(console, kind, key, value);
        let ticket = answer.is_ok().then(|| Ticket {
            console,
            spent: false,
        });
        (pair(answer), ticket)
    }

    /// Takes one turn of the ticket's job, as `turn` does. The ticket comes back with 21, 22 and every refusal, and not
    /// with 23 to 27, which end its job.
    pub fn turn_by_ticket(&mut self, ticket: Ticket) -> ((u64, u64), Option<Ticket>)
        ensures called { Called (rule_of O.keyed O.compared) (turn_call (console_of ticket))
            (state_of S.words self.old) result.0.0 result.0.1 (state_of S.words self.new) }
        ensures alone { EndsAlone (rule_of O.keyed O.compared) (console_of ticket) (state_of S.words self.old) }
        ensures kept { result.0.0 ≢ 22 → result.0.0 ≢ 25 → result.0.0 ≢ 27 → self.new.store ≡ self.old.store }
        ensures tied { S.lenders self.new.store ≡ S.lenders self.old.store }
        ensures ticket { JustWhere (not (ends_job result.0.0)) (λ left. left ≡ ticket) result.1 }
    {
        let answer = self.turn_step(ticket.console);
        let left = ticket.unless_ended(answer.is_ok_and(Done::ends_job));
        (pair(answer), left)
    }

    /// Drops the ticket's job, as `withdraw` does. The ticket is used up, also by a refusal.
    pub fn withdraw_by_ticket(&mut self, ticket: Ticket) -> (u64, u64)
        ensures called { Called (rule_of O.keyed O.compared) (withdraw_call (console_of ticket))
            (state_of S.words self.old) result.0 result.1 (state_of S.words self.new) }
        ensures kept { self.new.store ≡ self.old.store }
        ensures tied { S.lenders self.new.store ≡ S.lenders self.old.store }
    {
        let answer = self.withdraw_step(ticket.console);
        ticket.spend();
        pair(answer)
    }
}
