// The answer that most calls give: an element, none, or a refusal.
ghost use Rattle.std.specs.Prelude.{◌≡◌};
ghost use Rattle.meaning.specs.Refusals.{Number};
ghost use Rattle.loftsplice.specs.Scan.{says_answer};
ghost use Rattle.c_forms.specs.Flat.{form};
ghost use Rattle.c_forms.specs.Answer.{flat_answer};

use loftsplice::refusal::number;
use meaning::Answer;

// A refusal's number or 0; 1 and the element, or 0 and 0.
#[repr(C)]
#[derive(Clone, Copy)]
pub struct FlatAnswer {
    pub refusal: u32,
    pub found: u32,
    pub value: i64,
}

pub fn flat_answer(answer: Answer) -> FlatAnswer
    ensures { result ≡ flat_answer (says_answer answer) }
{
    match answer {
        Answer::Value(value) => FlatAnswer {
            refusal: 0,
            found: 1,
            value,
        },
        Answer::None => FlatAnswer {
            refusal: 0,
            found: 0,
            value: 0,
        },
        Answer::Refused(why) => FlatAnswer {
            refusal: number(why),
            found: 0,
            value: 0,
        },
    }
}

// 100 FORM, as an answer.
pub fn bad_form() -> FlatAnswer
    ensures { result ≡ flat_answer (Number form) }
{
    FlatAnswer {
        refusal: 100,
        found: 0,
        value: 0,
    }
}
