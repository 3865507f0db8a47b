// Places and numbers: modes, actors and processors have numbers from 1 in a table and in what is printed; in a list that has one place for each of them,
// the one with number n stands at place n - 1.
ghost use Rattle.std.specs.Prelude.{◌≡◌, ◌^◌, ◌<◌, ◌≤◌};
ghost use Rattle.terms.specs.Place.{number_of, place_of};

// The number of what stands at a place.
pub fn number_of(place: usize) -> u64
    requires { number_of place < 2 ^ 64 }
    ensures { result ≡ number_of place }
{
    place as u64 + 1
}

// The place of what has a number.
pub fn place_of(number: u64) -> usize
    requires { 1 ≤ number }
    ensures { result ≡ place_of number }
{
    number as usize - 1
}
