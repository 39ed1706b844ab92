//! The first train ends, since no reference comes to it from outside.

ghost use Rattle.std.specs.Prelude.{◌≡◌, ℕ, ◌*◌, ◌<◌, ◌≤◌, None, ◌∷◌, length, map, reverse, sum_by};
ghost use Rattle.std.specs.List.{All, AllByRecursion};
ghost use Rattle.remembered.specs.Leads.{Leads};
ghost use Rattle.remembered.specs.declared.Update.TheVariants.{Forget};
ghost use Rattle.model.specs.Calls.{History};
ghost use Rattle.model.specs.Trains.{Car, Train, Trains as CarTrains, words_of, car_numbers, train_objects};
ghost use Rattle.model.specs.Space.{space_of, free_train, looked as pairs_looked_at};
ghost use Rattle.model.specs.Step.{first_to, outside};
ghost use Rattle.objects.specs.Lies.{CarStands};
ghost use Rattle.trains.specs.Orders.{filled_of};
ghost use Rattle.memory.specs.Stands.{Stands, Known};
ghost use Rattle.steps.specs.Steps.{Steps};

use calls::{Report, StepKind};
use layout::Layout;
use memory::Memory;
use remembered::RememberedSet;
use trains::{CAR_WORDS, Trains};

// How many objects a car has, of which so many words are filled.
pub(crate) fn objects_in<L: Layout>(words: &[u32; 8192], car: u32, filled: u32) -> u32
    requires car { car < 64 }
    requires filled { filled ≤ 128 }
    ensures objects { (at : ℕ → ℕ) (c : Car) → CarStands L.table L.code at words.now c → c.number ≡ car → words_of c.objects ≡ filled
        → result ≡ length c.objects }
    ensures few { result ≤ 128 }
{
    let mut address = CAR_WORDS * car;
    let end = address + filled;
    let mut objects = 0;
    while address < end {
        address = address.saturating_add(L::size(words[address as usize]));
        objects += 1;
    }
    objects
}

// What is in cars: how many objects, and how many words they take.
#[derive(Clone, Copy)]
struct Contents {
    objects: u32,
    words: u32,
}

// What is in these cars.
fn contents_of<L: Layout>(words: &[u32; 8192], trains: &Trains, cars: &[u32]) -> Contents
    requires numbers { All (λ n. n < 64) cars.now }
    requires filled { All (λ n. filled_of n trains.now ≤ 128) cars.now }
    requires few { length cars.now ≤ 64 }
    ensures objects { (at : ℕ → ℕ) (t : Train) → car_numbers t ≡ cars.now → AllByRecursion (CarStands L.table L.code at words.now) t
        → AllByRecursion (λ c. filled_of c.number trains.now ≡ words_of c.objects) t → result.objects ≡ length (train_objects t) }
    ensures words { result.words ≡ sum_by (λ n. filled_of n trains.now) cars.now }
    ensures few { result.objects ≤ 8192 }
{
    let mut objects = 0;
    let mut filled_words = 0;
    for car in cars {
        let filled = trains.filled(*car);
        objects += objects_in::<L>(words, *car, filled);
        filled_words += filled;
    }
    Contents {
        objects,
        words: filled_words,
    }
}

// The set forgets these cars, in order.
fn forget_cars<R: RememberedSet>(set: &mut R, cars: &[u32])
    ensures { Leads R.has R.says set.old (reverse (map Forget cars.now)) set.new }
{
    for car in cars {
        set.forget(*car);
    }
}

/// The first train ends: all its objects are lost, and the set forgets its cars, in order. A mark goes with it. So many pairs
/// were looked at.
pub(crate) fn free_train<R: RememberedSet, L: Layout>(
    memory: &mut Memory,
    set: &mut R,
    looked: u32,
) -> Report
    requires known { Known L.table L.code memory.old }
    requires train { 0 < length memory.old.trains.trains }
    ensures { (h : History) (t : Train) (ts : CarTrains) → Stands L.table L.code (space_of L.table h) memory.old → (space_of L.table h).trains ≡ t ∷ ts
        → first_to (train_objects t) (outside (space_of L.table h).roots (t ∷ ts) ts) ≡ None → looked ≡ pairs_looked_at (R.has set.old) t
        → Steps L.table L.code R.has R.says (free_train t ts (space_of L.table h)) result memory.new set.old set.new }
{
    let cars = memory.trains.train(0);
    let freed = contents_of::<L>(&memory.words, &memory.trains, cars);
    let count = cars.len() as u8;
    forget_cars(set, cars);
    memory.trains.free_first_train();
    memory.mark = None;
    memory.used -= freed.words;
    Report {
        kind: StepKind::Train,
        out: 0,
        back: 0,
        copied: 0,
        lost: freed.objects as u16,
        looked,
        cars: count,
    }
}
