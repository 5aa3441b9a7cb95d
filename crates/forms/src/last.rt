// The last line of a job and of a listing.
ghost use Rattle.std.specs.Prelude.{◌≡◌, ◌+◌, ◌<◌, ◌^◌};
ghost use Rattle.common.specs.Fault.{handed};
ghost use Rattle.figures.specs.Line.{lines_of};
ghost use Rattle.forms.specs.Due.{last_line};

use crate::Form;
use common::{Fault, Refusal};

// `(end)`, and nothing after it. Ground 10: "Bytes follow `(end)`; the line is the one after it."
pub fn last_line(text: &[u8], number: u32) -> Result<(), Refusal>
    requires { number < u32.MAX }
    ensures { result ≡ handed (λ o. o) (last_line number (lines_of text.now)) }
{
    let read = crate::end_line(text, number);
    let Form::End = read.form else {
        return Err(crate::refusal_of(read.form, number));
    };
    if !read.rest.is_empty() {
        return Err(Fault::BytesFollow.at(number + 1));
    }
    Ok(())
}
