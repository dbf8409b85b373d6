// How an answer goes out to C: a refusal as a number, and a value through a place that is lent for it.
ghost use Rattle.std.specs.Prelude.{◌≡◌, MatchResult};
ghost use Rattle.refusal.specs.Told.{told};
ghost use Rattle.capi.specs.Answers.{code_of};

use refusal::Refusal;

// A refusal as the number that C gets.
pub fn refused(why: Refusal) -> u32
    ensures { result ≡ code_of (told why) }
{
    why.number() as u32 + 65536 * (why.place() as u32)
}

// An answer's value, put to the place, and 0; or a refusal's number, and the place as it was.
pub fn note<T: Copy>(answer: Result<T, Refusal>, place: &mut T) -> u32
    ensures { MatchResult answer (λ value. (result ≡ 0) × (place.new ≡ value)) (λ why. (result ≡ code_of (told why)) × (place.new ≡ place.old)) }
{
    match answer {
        Ok(value) => {
            *place = value;
            0
        }
        Err(why) => refused(why),
    }
}
