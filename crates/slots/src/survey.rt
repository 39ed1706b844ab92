//! What a step learns from the pairs of the first train's cars.

ghost use Rattle.std.specs.Prelude.{◌≡◌, ℕ, ◌*◌, ◌/◌, ◌<◌, ◌≤◌, ◌++◌, Bool, true, List, IfSome, All, length, sum_by};
ghost use Rattle.std.specs.List.{AllByRecursion};
ghost use Rattle.remembered.specs.Updates.{pairs_of};
ghost use Rattle.model.specs.Notes.{slots};
ghost use Rattle.model.specs.Trains.{Obj, Car, Train, Trains, train_objects, car_numbers, words_of};
ghost use Rattle.objects.specs.Lies.{CarStands};
ghost use Rattle.slots.specs.Slots.{AddressTells, ArePaired, first_into};
ghost use Rattle.slots.specs.Walks.{WalksIn};
ghost use Rattle.slots.specs.Order.{is_earlier, earliest, outside_words, cars_of, AreTold};

use crate::CAR_WORDS;
use crate::walk::Walk;
use layout::Layout;
use remembered::RememberedSet;

/// What is asked of the cars: which of them are outside the first train, how many words of each are filled, and how they
/// follow one another.
pub trait Cars {
    // Whether there is a car of that number in a train behind the first.
    ghost outside: { Self → ℕ → Bool };

    // How many words of a car its objects take.
    ghost filled_words: { Self → ℕ → ℕ };

    // Whether a car comes after another, in a later train or behind it in the same.
    ghost later: { Self → ℕ → ℕ → Bool };

    /// Whether there is a car of that number in a train behind the first.
    fn is_outside(&self, car: u32) -> bool
        requires { car < 64 }
        ensures { result ≡ outside self.now car };

    /// How many words of an outside car are filled.
    fn filled(&self, car: u32) -> u32
        requires car { car < 64 }
        requires outside { outside self.now car ≡ true }
        ensures words { result ≡ filled_words self.now car }
        ensures few { result ≤ 128 };

    /// Whether an outside car comes after another.
    fn is_later(&self, car: u32, than: u32) -> bool
        requires car { car < 64 }
        requires than { than < 64 }
        requires car_outside { outside self.now car ≡ true }
        requires than_outside { outside self.now than ≡ true }
        ensures { result ≡ later self.now car than };
}

// The walk to go on with at an address: the one over the car `walked`, if the address lies there, and else one that begins
// in the car of the address. Over a car that is not an outside one it is done from the start.
fn walk_on<C: Cars>(cars: &C, walk: Walk, walked: u32, address: u32) -> Walk
    requires { address < 8192 }
    ensures { (c : Car) (from : ℕ) → c.number ≡ address / 128 → words_of c.objects ≡ outside_words (C.outside cars.now) (C.filled_words cars.now) (address / 128)
        → (walked ≡ address / 128 → WalksIn c from walk) → from ≤ address → WalksIn c address result }
{
    let car = address / CAR_WORDS;
    if car == walked {
        walk
    } else if cars.is_outside(car) {
        Walk::over(car, cars.filled(car))
    } else {
        Walk::over(car, 0)
    }
}

// Whether an address comes before another, by their cars and in one car by the addresses.
fn comes_before<C: Cars>(cars: &C, address: u32, other: u32) -> bool
    requires address { address < 8192 }
    requires other { other < 8192 }
    requires address_outside { C.outside cars.now (address / 128) ≡ true }
    requires other_outside { C.outside cars.now (other / 128) ≡ true }
    ensures { result ≡ is_earlier (C.later cars.now) address other }
{
    if address / CAR_WORDS == other / CAR_WORDS {
        address < other
    } else {
        cars.is_later(other / CAR_WORDS, address / CAR_WORDS)
    }
}

// The earlier of the address found so far and of another.
fn earlier_of<C: Cars>(cars: &C, first: Option<u32>, address: u32) -> u32
    requires address { address < 8192 }
    requires address_outside { C.outside cars.now (address / 128) ≡ true }
    requires first { IfSome first (λ a. (a < 8192) × (C.outside cars.now (a / 128) ≡ true)) }
    ensures value { result ≡ earliest (C.later cars.now) first address }
    ensures outside { (result < 8192) × (C.outside cars.now (result / 128) ≡ true) }
{
    match first {
        Some(found) if !comes_before(cars, address, found) => found,
        _ => address,
    }
}

/// Looks at all pairs of a car of the first train, says how many they are, and leaves in `first` the address of the first
/// slot of other trains that holds an object of the cars looked at so far, in the order of the cars and then by address. A
/// step asks this of each car of the first train, and begins with none found.
pub fn survey<R: RememberedSet, L: Layout, C: Cars>(
    first: &mut Option<u32>,
    words: &[u32; 8192],
    set: &R,
    cars: &C,
    car: u32,
) -> u32
    requires car { car < 64 }
    requires first { IfSome first.old (λ a. (a < 8192) × (C.outside cars.now (a / 128) ≡ true)) }
    ensures looked { result ≡ pairs_of (R.has set.now) car }
    ensures few { result ≤ 8192 }
    ensures first { (at : ℕ → ℕ) (c : Car) (seen : List Obj) (n : ℕ) (ts : Trains) → AddressTells at c → c.number ≡ car
        → AllByRecursion (CarStands L.table L.code at words.now) (cars_of ts)
        → AreTold (C.outside cars.now) (C.filled_words cars.now) (C.later cars.now) (cars_of ts)
        → ArePaired (R.has set.now) c (slots L.table n ts)
        → first.old ≡ first_into seen (slots L.table n ts) → first.new ≡ first_into (seen ++ c.objects) (slots L.table n ts) }
    ensures outside { IfSome first.new (λ a. (a < 8192) × (C.outside cars.now (a / 128) ≡ true)) }
{
    let mut looked = 0;
    let mut from = 0;
    // There is no car of this number, so the first pair begins a walk.
    let mut walked = 64;
    let mut walk = Walk::over(0, 0);
    while let Some(address) = set.next(car, from) {
        walk = walk_on(cars, walk, walked, address);
        walked = address / CAR_WORDS;
        if walk.is_slot_into::<L>(words, address, car) {
            *first = Some(earlier_of(cars, *first, address));
        }
        looked += 1;
        from = address + 1;
    }
    looked
}

/// What a survey of a train finds.
#[derive(Clone, Copy, Debug, PartialEq, Eq)]
pub struct Findings {
    /// The address of the first slot of other trains that holds an object of the train, if there is one.
    pub first: Option<u32>,
    /// How many pairs the train's cars have.
    pub looked: u32,
}

/// Surveys the cars of the first train, one after another.
pub fn survey_train<R: RememberedSet, L: Layout, C: Cars>(
    words: &[u32; 8192],
    set: &R,
    cars: &C,
    train: &[u32],
) -> Findings
    requires numbers { All (λ n. n < 64) train.now }
    requires few { length train.now ≤ 64 }
    ensures looked { result.looked ≡ sum_by (pairs_of (R.has set.now)) train.now }
    ensures first { (at : ℕ → ℕ) (t : Train) (n : ℕ) (ts : Trains) → car_numbers t ≡ train.now → AllByRecursion (AddressTells at) t
        → AllByRecursion (CarStands L.table L.code at words.now) (cars_of ts)
        → AreTold (C.outside cars.now) (C.filled_words cars.now) (C.later cars.now) (cars_of ts)
        → AllByRecursion (λ c. ArePaired (R.has set.now) c (slots L.table n ts)) t
        → result.first ≡ first_into (train_objects t) (slots L.table n ts) }
{
    let mut first = None;
    let mut looked = 0;
    for car in train {
        looked += survey::<R, L, C>(&mut first, words, set, cars, *car);
    }
    Findings { first, looked }
}
