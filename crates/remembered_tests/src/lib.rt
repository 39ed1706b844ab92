//! Two sets of another maker, and lists of cases with the answers expected of each remembered set.

#![tactic(auto)]

ghost use Rattle.std.specs.Prelude.{◌≡◌};
ghost use Rattle.remembered.specs.Laws.{in_range};

#[cfg(test)]
mod cases;
pub mod flag_set;
pub mod full_set;
#[cfg(test)]
mod tests;

// How many cars there are, and how many addresses.
const CARS: u32 = 64;

const ADDRESSES: u32 = 8192;

// Whether a car and an address can be paired.
fn is_in_range(car: u32, address: u32) -> bool
    ensures { result ≡ in_range car address }
{
    car < CARS && address < ADDRESSES
}
