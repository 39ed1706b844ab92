//! What goes out of the first car: the slots that lead into it, and the claims on its objects.

ghost use Rattle.std.specs.Prelude.{◌≡◌, ℕ, ◌+◌, ◌*◌, ◌<◌, ◌≤◌, Option, List, [], ◌∷◌, ◌++◌, length, slice_index, option_map};
ghost use Rattle.std.specs.List.{All, AllByRecursion};
ghost use Rattle.arrayvec.specs.ArrayVec.{array_vec_len};
ghost use Rattle.remembered.specs.Updates.{Pairs};
ghost use Rattle.model.specs.Bodies.{held};
ghost use Rattle.model.specs.Calls.{History};
ghost use Rattle.model.specs.Claims.{MoveRequest, ref_requests};
ghost use Rattle.model.specs.Notes.{Slot, train_slots, slots as slots_of};
ghost use Rattle.model.specs.Remembered.{slots_into};
ghost use Rattle.model.specs.Space.{space_of, carried};
ghost use Rattle.model.specs.Step.{mark_requests};
ghost use Rattle.model.specs.Trains.{Car, Train, Trains as CarTrains, words_of, car_numbers, arrival as arrival_in};
ghost use Rattle.objects.specs.Lies.{CarStands, HoldsItsOwn, word_of};
ghost use Rattle.objects.specs.Locate.{locate};
ghost use Rattle.objects.specs.Stand.{TrainsStand, EachCar};
ghost use Rattle.objects.specs.Words.{HasItsWord};
ghost use Rattle.slots.specs.Slots.{addresses, AddressTells, ArePaired};
ghost use Rattle.trains.specs.Fills.{cars_of};
ghost use Rattle.trains.specs.Orders.{rank_of, filled_of, cars_before};
ghost use Rattle.claims.specs.Claimed.{Claimed, claim_of};
ghost use Rattle.memory.specs.declared.Mark.{Mark as MarkAt};
ghost use Rattle.memory.specs.Stands.{halted};
ghost use Rattle.steps.specs.Claiming.{FirstCar, KnownCar, inner_slots, outer_slots, slot_requests, ClaimedFor};

use arrayvec::ArrayVec;
use claims::Claims;
use layout::Layout;
use memory::{Mark, Memory};
use remembered::RememberedSet;
use slots::gather;
use trains::{CAR_WORDS, Trains};

// Gathers the slots of these cars that hold an object of the emptied car, car by car.
fn gather_cars<R: RememberedSet, L: Layout>(
    out: &mut ArrayVec<u32, 8192>,
    words: &[u32; 8192],
    trains: &Trains,
    set: &R,
    emptied: u32,
    cars: &[u32],
)
    requires emptied { emptied < 64 }
    requires numbers { All (λ n. n < 64) cars.now }
    requires room { array_vec_len out.old + 128 * length cars.now ≤ 8192 }
    ensures slots { (at : ℕ → ℕ) (f : Car) (n : ℕ) (t : Train) → AddressTells at f → f.number ≡ emptied → car_numbers t ≡ cars.now
        → AllByRecursion (CarStands L.table L.code at words.now) t → AllByRecursion (λ c. filled_of c.number trains.now ≡ words_of c.objects) t
        → ArePaired (R.has set.now) f (train_slots L.table n t)
        → out.new.items ≡ out.old.items ++ addresses (slots_into f (train_slots L.table n t)) }
    ensures few { array_vec_len out.new ≤ array_vec_len out.old + 128 * length cars.now }
{
    for car in cars {
        let filled = trains.filled(*car).min(CAR_WORDS);
        gather::<R, L>(out, words, set, emptied, *car, filled);
    }
}

// Gathers the slots of all trains but the first that hold an object of the emptied car, train by train.
fn gather_outer<R: RememberedSet, L: Layout>(
    out: &mut ArrayVec<u32, 8192>,
    words: &[u32; 8192],
    trains: &Trains,
    set: &R,
    emptied: u32,
)
    requires emptied { emptied < 64 }
    requires few { cars_of trains.now.trains ≤ 64 }
    requires room { array_vec_len out.old ≤ 128 * cars_before 1 trains.now.trains }
    ensures { (at : ℕ → ℕ) (f : Car) (t : Train) (ts : CarTrains) → AddressTells at f → f.number ≡ emptied → trains.now ≡ halted (t ∷ ts)
        → TrainsStand L.table L.code at words.now ts → EachCar (λ c. filled_of c.number trains.now ≡ words_of c.objects) ts
        → ArePaired (R.has set.now) f (slots_of L.table (length t) ts)
        → out.new.items ≡ out.old.items ++ addresses (slots_into f (slots_of L.table (length t) ts)) }
{
    for rank in 1..trains.count() {
        gather_cars::<R, L>(out, words, trains, set, emptied, trains.train(rank));
    }
}

// Claims for a train what the words of roots lead to, root by root.
fn claim_roots<L: Layout>(
    claims: &mut Claims,
    words: &[u32; 8192],
    roots: &[u32],
    car: u32,
    rank: u32,
)
    requires { car < 64 }
    ensures { (at : ℕ → ℕ) (f : Car) (hs : List (Option ℕ)) (ws : List MoveRequest) → CarStands L.table L.code at words.now f → HoldsItsOwn at f
        → car ≡ f.number → length hs ≡ length roots.now → ((r : ℕ) → r < length hs → slice_index roots.now r ≡ word_of at (held hs r))
        → ClaimedFor at f ws claims.old → ClaimedFor at f (ws ++ ref_requests rank hs) claims.new }
{
    for root in roots {
        claims.claim::<L>(words, car, *root, rank);
    }
}

// Claims the object that is marked.
fn claim_mark<L: Layout>(claims: &mut Claims, words: &[u32; 8192], mark: Option<Mark>, car: u32)
    requires { car < 64 }
    ensures { (at : ℕ → ℕ) (f : Car) (mk : Option MoveRequest) (ws : List MoveRequest) → CarStands L.table L.code at words.now f → HoldsItsOwn at f
        → car ≡ f.number → mark ≡ option_map (λ w. record { object = at w.who; rank = w.rank }) mk
        → ClaimedFor at f ws claims.old → ClaimedFor at f (ws ++ mark_requests mk) claims.new }
{
    if let Some(mark) = mark {
        claims.claim::<L>(words, car, mark.object, mark.rank);
    }
}

// Claims what slots lead to, slot by slot, each for the train that the slot lies in.
fn claim_slots<L: Layout>(
    claims: &mut Claims,
    words: &[u32; 8192],
    trains: &Trains,
    slots: &[u32],
    car: u32,
)
    requires car { car < 64 }
    requires inside { All (λ a. a < 8192) slots.now }
    ensures { (at : ℕ → ℕ) (f : Car) (ss : List Slot) (ws : List MoveRequest) → CarStands L.table L.code at words.now f → HoldsItsOwn at f
        → car ≡ f.number → addresses ss ≡ slots.now → AllByRecursion (HasItsWord at words.now) ss
        → ClaimedFor at f ws claims.old → ClaimedFor at f (ws ++ slot_requests (λ n. rank_of n trains.now.trains) ss) claims.new }
{
    for slot in slots {
        let rank = trains.rank(*slot / CAR_WORDS);
        claims.claim::<L>(words, car, words[*slot as usize], rank);
    }
}

// Gathers the slots of other cars that hold an object of the first car: those of its own train, and then those of other trains.
// Answers how many are of its own train.
fn gather_all<R: RememberedSet, L: Layout>(
    out: &mut ArrayVec<u32, 8192>,
    memory: &Memory,
    set: &R,
    car: u32,
) -> usize
    requires empty { out.old.items ≡ [] }
    requires known { KnownCar L.table L.code memory.now (R.has set.now) car }
    ensures slots { (h : History) (f : Car) (cs : Train) (ts : CarTrains) → FirstCar L.table L.code memory.now (R.has set.now) h f cs ts → car ≡ f.number
        → out.new.items ≡ addresses (inner_slots L.table f cs) ++ addresses (outer_slots L.table f cs ts) }
    ensures inner { (h : History) (f : Car) (cs : Train) (ts : CarTrains) → FirstCar L.table L.code memory.now (R.has set.now) h f cs ts → car ≡ f.number
        → result ≡ length (addresses (inner_slots L.table f cs)) }
    ensures inside { All (λ a. a < 8192) out.new.items }
    ensures within { result ≤ array_vec_len out.new }
{
    let cars = memory.trains.train(0);
    gather_cars::<R, L>(out, &memory.words, &memory.trains, set, car, &cars[1..]);
    let inner = out.len();
    gather_outer::<R, L>(out, &memory.words, &memory.trains, set, car);
    inner
}

// Claims what roots, the mark, slots of other trains and slots of the first train's other cars ask for, in this order.
fn claim_requests<L: Layout>(
    claims: &mut Claims,
    memory: &Memory,
    inner: &[u32],
    outer: &[u32],
    car: u32,
    arrival: u32,
)
    requires car { car < 64 }
    requires inner { All (λ a. a < 8192) inner.now }
    requires outer { All (λ a. a < 8192) outer.now }
    ensures { (P : Pairs) (h : History) (f : Car) (cs : Train) (ts : CarTrains) → FirstCar L.table L.code memory.now P h f cs ts → car ≡ f.number
        → arrival ≡ arrival_in ((f ∷ cs) ∷ ts) → claims.old ≡ [] → inner.now ≡ addresses (inner_slots L.table f cs) → outer.now ≡ addresses (outer_slots L.table f cs ts)
        → Claimed (locate (space_of L.table h).trains) f (carried f cs ts (space_of L.table h)).taken (carried f cs ts (space_of L.table h)).left claims.new }
{
    claim_roots::<L>(claims, &memory.words, &memory.roots, car, arrival);
    claim_mark::<L>(claims, &memory.words, memory.mark, car);
    claim_slots::<L>(claims, &memory.words, &memory.trains, outer, car);
    claim_slots::<L>(claims, &memory.words, &memory.trains, inner, car);
}

/// What goes out of the first car: gathers the slots of other cars that hold an object of it, and claims its objects for the
/// roots, for the mark, for slots of other trains, and for slots of the first train, in this order.
pub(crate) fn claim_all<R: RememberedSet, L: Layout>(
    memory: &Memory,
    set: &R,
    claims: &mut Claims,
    slots: &mut ArrayVec<u32, 8192>,
    car: u32,
    arrival: u32,
)
    requires unclaimed { claims.old ≡ [] }
    requires empty { slots.old.items ≡ [] }
    requires known { KnownCar L.table L.code memory.now (R.has set.now) car }
    ensures claims { (h : History) (f : Car) (cs : Train) (ts : CarTrains) → FirstCar L.table L.code memory.now (R.has set.now) h f cs ts → car ≡ f.number
        → arrival ≡ arrival_in ((f ∷ cs) ∷ ts)
        → Claimed (locate (space_of L.table h).trains) f (carried f cs ts (space_of L.table h)).taken (carried f cs ts (space_of L.table h)).left claims.new }
    ensures slots { (h : History) (f : Car) (cs : Train) (ts : CarTrains) → FirstCar L.table L.code memory.now (R.has set.now) h f cs ts → car ≡ f.number
        → slots.new.items ≡ addresses (slots_into f (train_slots L.table 1 cs ++ slots_of L.table (length (f ∷ cs)) ts)) }
{
    let inner = gather_all::<R, L>(slots, memory, set, car);
    let found = slots.as_slice();
    claim_requests::<L>(
        claims,
        memory,
        &found[..inner],
        &found[inner..],
        car,
        arrival,
    );
}
