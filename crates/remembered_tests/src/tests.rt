//! What each remembered set answers.

use crate::cases::{Case, first_wrong};
use crate::flag_set::FlagSet;
use crate::full_set::FullSet;
use remembered::buffered::Buffered;
use remembered::card::CardSet;
use remembered::laws::tell;
use remembered::slot::SlotSet;
use remembered::{RememberedSet, Update};

// No set pairs a car above 63 or an address above 8,191, and none refuses.
fn out_of_range<R: RememberedSet + Drop>(mut rset: R) -> Option<usize> {
    let cases = [
        Case::Note(64, 0),
        Case::Note(5, 8192),
        Case::Note(u32::MAX, u32::MAX),
        Case::Note(63, 8191),
        Case::Pairs(64, 0),
        Case::Pairs(5, 0),
        Case::Next(64, 0, None),
        Case::Next(5, u32::MAX, None),
        Case::Next(63, 8192, None),
        Case::Next(63, 8191, Some(8191)),
        Case::Forget(64),
        Case::Forget(u32::MAX),
        Case::Next(63, 0, Some(8191)),
    ];
    first_wrong(&mut rset, &cases)
}

#[test]
fn pairs_in_range_only(rt: HostRuntime) {
    assert_eq!(rt; out_of_range(SlotSet::new()), None);
    assert_eq!(rt; out_of_range(Buffered::over(SlotSet::new())), None);
    assert_eq!(rt; out_of_range(Buffered::over(CardSet::new())), None);
    // the card set differs only in the last answer: it pairs the whole card of the address
    let mut cards = CardSet::new();
    assert_eq!(rt; out_of_range(CardSet::new()), Some(12));
    let whole_card = [Case::Note(63, 8191), Case::Next(63, 0, Some(8176))];
    assert_eq!(rt; first_wrong(&mut cards, &whole_card), None);
}

#[test]
fn cards(rt: HostRuntime) {
    let cases = [
        Case::Note(3, 100),
        Case::Next(3, 0, Some(96)),
        Case::Next(3, 97, Some(97)),
        Case::Next(3, 111, Some(111)),
        Case::Next(3, 112, None),
        Case::Pairs(3, 16),
        Case::Pairs(4, 0),
        Case::Note(3, 8191),
        Case::Next(3, 112, Some(8176)),
        Case::Note(63, 0),
        Case::Forget(3),
        Case::Pairs(3, 0),
        Case::Pairs(63, 16),
    ];
    assert_eq!(rt; first_wrong(&mut CardSet::new(), &cases), None);
}

#[test]
fn all_cards(rt: HostRuntime) {
    let cases = [
        Case::Notes(0, 0, 8192),
        Case::Pairs(0, 8192),
        Case::Pairs(1, 0),
        Case::Forget(0),
        Case::Next(0, 0, None),
    ];
    assert_eq!(rt; first_wrong(&mut CardSet::new(), &cases), None);
}

#[test]
fn slots(rt: HostRuntime) {
    let cases = [
        Case::Note(3, 100),
        Case::Next(3, 0, Some(100)),
        Case::Next(3, 101, None),
        Case::Note(3, 8191),
        Case::Next(3, 101, Some(8191)),
        Case::Note(3, 100),
        Case::Pairs(3, 2),
        Case::Pairs(2, 0),
        Case::Forget(2),
        Case::Pairs(3, 2),
        Case::Forget(3),
        Case::Next(3, 0, None),
    ];
    assert_eq!(rt; first_wrong(&mut SlotSet::new(), &cases), None);
}

#[test]
fn overflow_forget_reuse(rt: HostRuntime) {
    let mut rset = SlotSet::new();
    let full = [
        Case::Notes(1, 0, 2048),
        Case::Pairs(1, 2048),
        Case::Note(1, 5),
        Case::Pairs(1, 2048),
        Case::Note(2, 7),
        Case::Pairs(2, 8192),
        Case::Next(2, 4000, Some(4000)),
        Case::Next(2, 8192, None),
        Case::Note(2, 9),
        Case::Pairs(1, 2048),
    ];
    assert_eq!(rt; first_wrong(&mut rset, &full), None);
    assert_eq!(rt; rset.in_use(), 2048);
    assert_eq!(rt; rset.is_overflown(2), true);
    assert_eq!(rt; rset.is_overflown(1), false);
    let again = [
        Case::Forget(2),
        Case::Pairs(2, 0),
        Case::Note(2, 7),
        Case::Pairs(2, 8192),
        Case::Forget(1),
        Case::Pairs(1, 0),
        Case::Pairs(2, 8192),
        Case::Forget(2),
        Case::Note(2, 7),
        Case::Pairs(2, 1),
    ];
    assert_eq!(rt; first_wrong(&mut rset, &again), None);
    assert_eq!(rt; rset.in_use(), 1);
    assert_eq!(rt; rset.is_overflown(2), false);
}

#[test]
fn places_of_several_cars(rt: HostRuntime) {
    let mut rset = SlotSet::new();
    let cases = [
        Case::Notes(1, 0, 1024),
        Case::Notes(2, 4096, 1024),
        Case::Note(3, 0),
        Case::Pairs(3, 8192),
        Case::Notes(1, 0, 1024),
        Case::Forget(1),
        Case::Notes(4, 8191, 2),
        Case::Notes(4, 0, 1023),
        Case::Pairs(4, 1024),
        Case::Note(5, 0),
        Case::Pairs(5, 8192),
        Case::Pairs(2, 1024),
    ];
    assert_eq!(rt; first_wrong(&mut rset, &cases), None);
    assert_eq!(rt; rset.in_use(), 2048);
}

#[test]
fn seventeen_over_slots(rt: HostRuntime) {
    let mut rset = Buffered::over(SlotSet::new());
    let cases = [
        Case::Notes(3, 100, 16),
        Case::Pairs(3, 16),
        Case::Note(3, 4000),
        Case::Pairs(3, 17),
        Case::Next(3, 116, Some(4000)),
        Case::Note(3, 4000),
        Case::Note(3, 115),
        Case::Pairs(3, 17),
    ];
    assert_eq!(rt; first_wrong(&mut rset, &cases), None);
    assert_eq!(rt; rset.held_count(), 1);
}

#[test]
fn seventeen_over_cards(rt: HostRuntime) {
    let mut rset = Buffered::over(CardSet::new());
    assert_eq!(rt;
        first_wrong(&mut rset, &[Case::Notes(3, 100, 16), Case::Pairs(3, 16)]),
        None
    );
    assert_eq!(rt; rset.held_count(), 16);
    // two cards below, and one pair held
    assert_eq!(rt;
        first_wrong(&mut rset, &[Case::Note(3, 4000), Case::Pairs(3, 33)]),
        None
    );
    assert_eq!(rt; rset.held_count(), 1);
    assert_eq!(rt;
        first_wrong(&mut rset, &[Case::Forget(3), Case::Pairs(3, 0)]),
        None
    );
    assert_eq!(rt; rset.held_count(), 0);
}

#[test]
fn held_though_covered(rt: HostRuntime) {
    let mut rset = Buffered::over(CardSet::new());
    let cases = [
        Case::Notes(3, 96, 15),
        Case::Note(4, 0),
        Case::Pairs(3, 15),
        Case::Note(3, 111),
        Case::Pairs(3, 16),
        Case::Pairs(4, 16),
    ];
    assert_eq!(rt; first_wrong(&mut rset, &cases), None);
    // the sixteen sent down cover it, and it is held all the same
    assert_eq!(rt; rset.held_count(), 1);
}

#[test]
fn held_pairs_dropped(rt: HostRuntime) {
    let mut rset = Buffered::over(SlotSet::new());
    let cases = [
        Case::Notes(1, 0, 8),
        Case::Notes(2, 50, 8),
        Case::Forget(1),
        Case::Pairs(1, 0),
        Case::Pairs(2, 8),
        Case::Notes(5, 0, 8),
        Case::Note(6, 6),
        Case::Forget(2),
        Case::Pairs(2, 0),
        Case::Pairs(5, 8),
        Case::Pairs(6, 1),
    ];
    assert_eq!(rt; first_wrong(&mut rset, &cases), None);
    assert_eq!(rt; rset.held_count(), 1);
}

#[test]
fn flags(rt: HostRuntime) {
    let cases = [
        Case::Pairs(3, 0),
        Case::Note(3, 100),
        Case::Pairs(3, 8192),
        Case::Next(3, 50, Some(50)),
        Case::Next(3, 8192, None),
        Case::Note(64, 0),
        Case::Next(64, 0, None),
        Case::Note(4, 0),
        Case::Forget(3),
        Case::Pairs(3, 0),
        Case::Pairs(4, 8192),
    ];
    assert_eq!(rt; first_wrong(&mut FlagSet::new(), &cases), None);
}

#[test]
fn flags_under_a_buffer(rt: HostRuntime) {
    let mut rset = Buffered::over(FlagSet::new());
    let cases = [
        Case::Notes(3, 100, 16),
        Case::Pairs(3, 16),
        // the seventeenth sends down the sixteen, and the flag stands for all addresses
        Case::Note(4, 7),
        Case::Pairs(3, 8192),
        Case::Pairs(4, 1),
        Case::Forget(3),
        Case::Pairs(3, 0),
        Case::Next(4, 0, Some(7)),
    ];
    assert_eq!(rt; first_wrong(&mut rset, &cases), None);
    assert_eq!(rt; rset.held_count(), 1);
}

#[test]
fn a_full_set_keeps_all(rt: HostRuntime) {
    let cases = [
        Case::Pairs(0, 8192),
        Case::Pairs(63, 8192),
        Case::Pairs(64, 0),
        Case::Forget(63),
        Case::Next(63, 5, Some(5)),
        Case::Next(63, 8192, None),
    ];
    assert_eq!(rt; first_wrong(&mut FullSet, &cases), None);
    // nothing is new to a buffer above it, so that none is held
    let mut above = Buffered::over(FullSet);
    assert_eq!(rt; first_wrong(&mut above, &cases), None);
    let notes = [Case::Notes(3, 100, 20), Case::Pairs(3, 8192)];
    assert_eq!(rt; first_wrong(&mut above, &notes), None);
    assert_eq!(rt; above.held_count(), 0);
}

#[test]
fn a_buffer_over_a_set_with_pairs(rt: HostRuntime) {
    let mut below = SlotSet::new();
    below.note(3, 100);
    let mut rset = Buffered::over(below);
    let cases = [
        Case::Pairs(3, 1),
        Case::Note(3, 100),
        Case::Note(3, 90),
        Case::Next(3, 0, Some(90)),
        Case::Pairs(3, 2),
    ];
    assert_eq!(rt; first_wrong(&mut rset, &cases), None);
    // the pair from below is not held again
    assert_eq!(rt; rset.held_count(), 1);
}

// Tells a set three updates, of which the second takes back the first.
fn told<R: RememberedSet + Drop>(mut rset: R) -> Option<usize> {
    let updates = [
        Update::Note {
            car: 3,
            address: 100,
        },
        Update::Forget { car: 3 },
        Update::Note { car: 4, address: 7 },
    ];
    tell(&mut rset, &updates);
    first_wrong(&mut rset, &[Case::Pairs(3, 0), Case::Pairs(4, 1)])
}

#[test]
fn updates_told_in_order(rt: HostRuntime) {
    assert_eq!(rt; told(SlotSet::new()), None);
    assert_eq!(rt; told(Buffered::over(CardSet::new())), None);
    // a card and a flag stand for more than the one address
    assert_eq!(rt; told(CardSet::new()), Some(1));
    assert_eq!(rt; told(FlagSet::new()), Some(1));
}
