//! How objects stand in memory words: finding their words, reading them, writing and copying whole objects.
//!
//! Every call takes any words of memory. What it promises of an object it promises wherever one stands, by
//! what the object has inside; where no object stands, it only keeps within memory.
#![tactic(auto)]

ghost use Rattle.std.specs.Prelude.{◌≡◌, ℕ, ◌+◌, ◌<◌, ◌≤◌, length, Some, IfSome, ◌⊎◌};
ghost use Rattle.layout.specs.declared.Shape.{Shape};
ghost use Rattle.layout.specs.Coding.{Nth, size_of};
ghost use Rattle.layout.specs.ShapeTable.{Lawful, Offsets, ShapeTable};
ghost use Rattle.model.specs.Bodies.{Body, fresh, size};
ghost use Rattle.model.specs.Notes.{ref_offset};
ghost use Rattle.objects.specs.Lies.{Lies};
ghost use Rattle.objects.specs.Words.{OfObject, SameOutside, Copied, FillsFront, word_offset};

use layout::Layout;

/// How many words memory has.
pub const MEMORY_WORDS: u32 = 8192;

/// The word of a reference or a root that holds no object: no address.
pub const NOTHING: u32 = 8192;

// The address so far behind the object's header, or none where memory has no such address.
fn address_behind(object: u32, offset: u32) -> Option<u32>
    ensures inside { IfSome result (λ a. a < 8192) }
    ensures sum { object + offset < 8192 → result ≡ Some (object + offset) }
{
    object.checked_add(offset).filter(|&a| a < MEMORY_WORDS)
}

/// Where reference `i` of the object stands, or none if it has no such reference.
pub fn reference_address<L: Layout>(words: &[u32; 8192], object: u32, i: u32) -> Option<u32>
    requires { object < 8192 }
    ensures inside { IfSome result (λ a. a < 8192) }
    ensures of_object { OfObject L.table L.code words.now object
        (λ b. Nth (length b.refs) (λ k. object + ref_offset L.table b.shape k) i result) }
{
    address_behind(object, L::reference_offset(words[object as usize], i)?)
}

/// Where data word `j` of the object stands, or none if it has no such data word.
pub fn data_address<L: Layout>(words: &[u32; 8192], object: u32, j: u32) -> Option<u32>
    requires { object < 8192 }
    ensures inside { IfSome result (λ a. a < 8192) }
    ensures of_object { OfObject L.table L.code words.now object
        (λ b. Nth (length b.values) (λ k. object + word_offset L.table b.shape k) j result) }
{
    address_behind(object, L::word_offset(words[object as usize], j)?)
}

/// Copies the data words of the object to the buffer's first places, in their order, and answers how many
/// they are; none, and nothing is written, if the buffer is shorter.
pub fn copy_out<L: Layout>(words: &[u32; 8192], object: u32, buffer: &mut [u32]) -> Option<u32>
    requires { object < 8192 }
    ensures { OfObject L.table L.code words.now object
        (λ b. FillsFront b.values buffer.old buffer.new result) }
{
    let count = L::data_words(words[object as usize]);
    if buffer.len() < count as usize {
        return None;
    }
    for j in 0..count {
        buffer[j as usize] = words[data_address::<L>(words, object, j)? as usize];
    }
    Some(count)
}

/// Writes a new object with this header: its references hold nothing, and its data words are 0.
pub fn write_new<L: Layout>(words: &mut [u32; 8192], object: u32, header: u32)
    requires { object + size_of (L.decoded header) ≤ 8192 }
    ensures stands { (s : Shape) (o : Offsets) (at : ℕ → ℕ) → L.table.offsets s ≡ Some o → L.code s ≡ header
        → Lies L.table L.code at words.new object (fresh s o) }
    ensures frame { SameOutside words.old words.new object (size_of (L.decoded header)) }
{
    words[object as usize] = header;
    for offset in 1..L::size(header) {
        words[(object + offset) as usize] = match L::reference_at(header, offset) {
            Some(_) => NOTHING,
            None => 0,
        };
    }
}

/// Copies an object of so many words: it stands at both places afterwards.
pub fn copy_object(words: &mut [u32; 8192], from: u32, to: u32, count: u32)
    requires from { from + count ≤ 8192 }
    requires to { to + count ≤ 8192 }
    requires apart { (from + count ≤ to) ⊎ (to + count ≤ from) }
    ensures copied { Copied words.old words.new from to count }
    ensures frame { SameOutside words.old words.new to count }
    ensures stands { (M : ShapeTable) (code : Shape → ℕ) (at : ℕ → ℕ) (b : Body) → Lawful M
        → Lies M code at words.old from b → size b ≤ count
        → Lies M code at words.new from b × Lies M code at words.new to b }
{
    words.copy_within(from as usize..(from + count) as usize, to as usize);
}

#[cfg(test)]
mod tests;
