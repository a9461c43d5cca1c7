//! Lines at the front of a text, each read in one pass over its bytes: the two kinds that long scripts have many of. `None`
//! leaves the line to its words: it is of another kind, ends with no line feed, has other spaces, or has a fault.

ghost use Rattle.std.specs.Prelude.{ℕ, IfSome};
ghost use Rattle.job_script.specs.LineViews.{set_up_line_said};
ghost use Rattle.job_script.specs.Lines.{LeadingSays};
ghost use Rattle.job_script.specs.Said.{says_excp, says_set_up};

use super::{ExcpLine, SetUpLine};
use crate::command::DcbName;
use device_port::Fault;
use io_images::{SubStatus, UnitStatus};
use script_words::{after_name, decimal_in_until, decimal_until, hexadecimal_until};

/// `fault U ORDINAL UU SS XXXX`, and the text after it.
#[inline(always)]
pub fn fault(text: &[u8]) -> Option<(SetUpLine, &[u8])>
    ensures { IfSome result (λ x. (number : ℕ) → LeadingSays number text.now (says_set_up (set_up_line_said x.0)) x.1.now) }
{
    let rest = after_name(text, b"fault")?;
    let (unit, rest) = decimal_in_until(rest, 0, 63, b' ')?;
    let (ordinal, rest) = decimal_until(rest, b' ')?;
    let (status, rest) = hexadecimal_until(rest, 2, b' ')?;
    let (sub, rest) = hexadecimal_until(rest, 2, b' ')?;
    let (sense, rest) = hexadecimal_until(rest, 4, b'\n')?;
    let fault = Fault {
        ordinal,
        unit: UnitStatus::new(status as u8),
        sub: SubStatus::new(sub as u8),
        sense: sense as u16,
    };
    Some((SetUpLine::Fault(unit, fault), rest))
}

/// `excp T U DCB IOB A SHOW LEN`, and the text after it.
#[inline(always)]
pub fn excp(number: usize, text: &[u8]) -> Option<(ExcpLine, &[u8])>
    ensures { IfSome result (λ x. LeadingSays number text.now (says_excp x.0) x.1.now) }
{
    let rest = after_name(text, b"excp")?;
    let (task, rest) = decimal_in_until(rest, 0, 63, b' ')?;
    let (unit, rest) = decimal_in_until(rest, 0, 63, b' ')?;
    let (dcb, rest) = decimal_in_until(rest, 1, 65535, b' ')?;
    let (iob, rest) = hexadecimal_until(rest, 6, b' ')?;
    let (area, rest) = decimal_until(rest, b' ')?;
    let (show, rest) = hexadecimal_until(rest, 6, b' ')?;
    let (len, rest) = decimal_until(rest, b'\n')?;
    let line = ExcpLine {
        line: number,
        task,
        dcb: DcbName { unit, number: dcb },
        iob,
        area,
        show,
        len,
    };
    Some((line, rest))
}
