// The greatest of some numbers.
ghost use Rattle.numbers.specs.Extreme.{GreatestIn};

// The greatest of some numbers and 0, so that no numbers have one too: it has always had an answer, so it hands on no Option.
pub fn greatest(numbers: &[usize]) -> usize
    ensures { GreatestIn numbers.now result }
{
    numbers.iter().copied().max().unwrap_or(0)
}
