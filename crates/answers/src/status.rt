ghost use Rattle.std.specs.Prelude.{◌≡◌};
ghost use Rattle.refusals.specs.Numbers.{status};

use refusals::refusal::Refusal;

// An answer as a number, which the calls for C return: 0 where no question refused, else that of the one that did.
pub fn status_of<T: Copy>(answer: Result<T, Refusal>) -> u32
    ensures { result ≡ status answer }
{
    match answer {
        Ok(_) => 0,
        Err(refusal) => u32::from(refusal),
    }
}
