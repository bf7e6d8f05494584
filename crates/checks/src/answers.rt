// What a call answers to the verdict of its checks.
ghost use Rattle.std.specs.Prelude.{◌≡◌};
ghost use Rattle.tables.specs.Answer.{refusal, answer_to};

use tables::{Answer, Fault, Verdict};

// A refusal.
pub fn refusal(why: Fault, place: usize) -> Answer
    ensures { result ≡ refusal why place }
{
    Answer {
        code: why as u16,
        value: place,
    }
}

// The answer to a verdict: the refusal, or code 0 with this value.
pub fn answer(verdict: Verdict, value: usize) -> Answer
    ensures { result ≡ answer_to verdict value }
{
    match verdict {
        Verdict::Sound => Answer { code: 0, value },
        Verdict::Refused(why, place) => refusal(why, place),
    }
}
