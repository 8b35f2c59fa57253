//! Tickets at their edges: refusals give them back, and only a console's number ties one to an index.
use crate::loads::{ENTER, LOOK, Loads, at, on};
use index::Ticket;
use order::Key;

// A console's number, and the answer of the ticket's withdrawal.
fn withdrawn(index: &mut Loads, ticket: Option<Ticket>) -> Option<(u64, (u64, u64))> {
    let ticket = ticket?;
    Some((ticket.console(), index.withdraw_by_ticket(ticket)))
}

#[test]
fn refused_begins_give_none(rt: HostRuntime) {
    let (busy, console, kind, key) = on(&mut [0; 512], |index| {
        index.format(4);
        index.begin(3, LOOK, at(10), 0);
        let (busy, first) = index.begin_by_ticket(3, LOOK, at(10), 0);
        let (console, second) = index.begin_by_ticket(32, LOOK, at(10), 0);
        let (kind, third) = index.begin_by_ticket(4, 6, at(10), 0);
        let (key, fourth) = index.begin_by_ticket(4, LOOK, Key { hi: 0, lo: 10 }, 0);
        (
            (busy, withdrawn(index, first)),
            (console, withdrawn(index, second)),
            (kind, withdrawn(index, third)),
            (key, withdrawn(index, fourth)),
        )
    });
    assert_eq!(rt; busy, ((5, 0), None));
    assert_eq!(rt; console, ((4, 0), None));
    assert_eq!(rt; kind, ((7, 0), None));
    assert_eq!(rt; key, ((7, 0), None));
}

// A job of console 5 by ticket, after which a plain withdrawal comes: the turn by ticket and its withdrawal.
fn turned_late(index: &mut Loads) -> Option<((u64, u64), Option<(u64, (u64, u64))>)> {
    let (_, ticket) = index.begin_by_ticket(5, ENTER, at(10), 100);
    let ticket = ticket?;
    index.withdraw(5);
    let (turned, left) = index.turn_by_ticket(ticket);
    Some((turned, withdrawn(index, left)))
}

#[test]
fn a_refused_turn_gives_it_back(rt: HostRuntime) {
    let late = on(&mut [0; 512], |index| {
        index.format(4);
        turned_late(index)
    });
    assert_eq!(rt; late, Some(((6, 0), Some((5, (6, 0))))));
}
