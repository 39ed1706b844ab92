// What the remembered sets say they have.
use scanner::{Choice, Failure, Pair, Remembered};
use std::test::Fail;

fn note(remembered: &mut Remembered, car: usize, address: usize) -> Result<(), Failure> {
    remembered.note(Pair { car, address })
}

#[test]
fn a_full_slot_set_overflows(rt: HostRuntime) -> Result<(), Fail> {
    let mut slots = Remembered::new(rt.alloc(), Choice::Slots);
    for address in 0..2048 {
        note(&mut slots, 0, address)?;
    }
    assert_eq!(rt; slots.count(0), 2048);
    note(&mut slots, 0, 7)?;
    assert_eq!(rt; slots.count(0), 2048);
    note(&mut slots, 1, 5)?;
    assert_eq!(rt; slots.count(1), 8192);
    slots.forget(0);
    assert_eq!(rt; slots.count(0), 0);
    assert_eq!(rt; slots.count(1), 8192);
    note(&mut slots, 2, 8191)?;
    assert_eq!(rt; slots.count(2), 1);
    slots.forget(1);
    assert_eq!(rt; slots.count(1), 0);
    Ok(())
}

#[test]
fn what_is_out_of_range_is_never_paired(rt: HostRuntime) -> Result<(), Fail> {
    let mut cards = Remembered::new(rt.alloc(), Choice::BufferedCards);
    note(&mut cards, 64, 0)?;
    note(&mut cards, 63, 8192)?;
    note(&mut cards, 63, 8191)?;
    assert_eq!(rt; cards.count(64), 0);
    assert_eq!(rt; cards.count(63), 1);
    Ok(())
}

// The seventeenth pair sends sixteen pairs of sixteen cards down.
#[test]
fn a_full_buffer_goes_down_to_the_cards(rt: HostRuntime) -> Result<(), Fail> {
    let mut cards = Remembered::new(rt.alloc(), Choice::BufferedCards);
    for card in 0..16usize {
        note(&mut cards, 3, card * 16)?;
    }
    assert_eq!(rt; cards.count(3), 16);
    note(&mut cards, 3, 1)?;
    assert_eq!(rt; cards.count(3), 256);
    note(&mut cards, 4, 1)?;
    assert_eq!(rt; cards.count(4), 1);
    cards.forget(3);
    assert_eq!(rt; cards.count(3), 0);
    assert_eq!(rt; cards.count(4), 1);
    Ok(())
}

// A pair that is held over a marked card takes a place of the buffer all the same: fifteen more fill it, and the next
// one sends the sixteen down.
#[test]
fn a_covered_pair_takes_a_place(rt: HostRuntime) -> Result<(), Fail> {
    let mut cards = Remembered::new(rt.alloc(), Choice::BufferedCards);
    for card in 0..16usize {
        note(&mut cards, 3, card * 16)?;
    }
    note(&mut cards, 3, 1)?;
    for card in 0..15usize {
        note(&mut cards, 5, card * 16)?;
    }
    assert_eq!(rt; cards.count(5), 15);
    note(&mut cards, 5, 240)?;
    assert_eq!(rt; cards.count(5), 241);
    Ok(())
}

#[test]
fn a_full_buffer_goes_down_to_the_slots(rt: HostRuntime) -> Result<(), Fail> {
    let mut slots = Remembered::new(rt.alloc(), Choice::BufferedSlots);
    for address in 0..17 {
        note(&mut slots, 3, address)?;
        note(&mut slots, 3, address)?;
    }
    assert_eq!(rt; slots.count(3), 17);
    slots.forget(4);
    assert_eq!(rt; slots.count(3), 17);
    slots.forget(3);
    assert_eq!(rt; slots.count(3), 0);
    Ok(())
}
