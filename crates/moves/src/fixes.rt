//! Correcting references and roots that held a moved object. A table tells by an object's old place where it is now.

ghost use Rattle.std.specs.Prelude.{◌≡◌, ℕ, ◌+◌, ◌*◌, ◌<◌, map};
ghost use Rattle.std.specs.List.{AllByRecursion};
ghost use Rattle.layout.specs.Coding.{size_of};
ghost use Rattle.moves.specs.Fixes.{fixed, fix_at, fix_each, references, moved_references, IsOutside};

use crate::CAR_WORDS;
use claims::Claims;
use layout::Layout;

/// What the word of a reference or a root becomes: one that leads into the car is looked up in the table.
pub fn fixed_word(forward: &[u32; 128], car: u32, word: u32) -> u32
    ensures { result ≡ fixed car forward.now word }
{
    if word / CAR_WORDS == car {
        forward[(word % CAR_WORDS) as usize]
    } else {
        word
    }
}

// Fixes the word at an address.
fn fix_word(words: &mut [u32; 8192], forward: &[u32; 128], car: u32, address: u32)
    requires { address < 8192 }
    ensures { words.new ≡ fix_at car forward.now address words.old }
{
    words[address as usize] = fixed_word(forward, car, words[address as usize]);
}

/// Fixes the slots at these addresses.
pub fn fix_slots(words: &mut [u32; 8192], forward: &[u32; 128], car: u32, slots: &[u32])
    requires { AllByRecursion (λ a. a < 8192) slots.now }
    ensures { words.new ≡ fix_each car forward.now slots.now words.old }
{
    for slot in slots {
        fix_word(words, forward, car, *slot);
    }
}

/// Fixes what the roots hold.
pub fn fix_roots(roots: &mut [u32; 32], forward: &[u32; 128], car: u32)
    ensures { roots.new ≡ map (fixed car forward.now) roots.old }
{
    for root in roots.iter_mut() {
        *root = fixed_word(forward, car, *root);
    }
}

// Fixes the references of an object that stands at an address now; the header tells of them.
fn fix_object<L: Layout>(
    words: &mut [u32; 8192],
    forward: &[u32; 128],
    car: u32,
    header: u32,
    object: u32,
)
    requires { AllByRecursion (λ a. a < 8192) (references (L.decoded header) object) }
    ensures { words.new ≡ fix_each car forward.now (references (L.decoded header) object) words.old }
{
    for i in 0..L::references(header) {
        if let Some(offset) = L::reference_offset(header, i) {
            fix_word(words, forward, car, object + offset);
        }
    }
}

/// Fixes the references of all claimed objects, which were moved, in the order of the claims. An object's header is read
/// where it stood, since nothing is written there.
pub fn fix_moved<L: Layout>(
    words: &mut [u32; 8192],
    forward: &[u32; 128],
    car: u32,
    claims: &Claims,
)
    requires car { car < 64 }
    requires outside { AllByRecursion (IsOutside car) (moved_references L.decoded words.old forward.now car claims.now) }
    ensures { words.new ≡ fix_each car forward.now (moved_references L.decoded words.old forward.now car claims.now) words.old }
{
    for claim in claims.as_slice() {
        let header = words[(CAR_WORDS * car + claim.place) as usize];
        fix_object::<L>(words, forward, car, header, forward[claim.place as usize]);
    }
}
