// The writes of the sheet. No contract can say what is written: what a write came to is a value that only this module makes, so whoever
// needs one has to hand over the sheet, whole.
ghost use Rattle.std.specs.Prelude.{true, false, ◌≡◌};
ghost use Rattle.sheetfile.specs.Format.{encode};
ghost use Rattle.sheetlines.specs.Lines.{month_text};
ghost use Rattle.sheet.specs.Program.{no_sheet, written_status, PrintedOf};

use crate::Gathering;
use std::io::Write;
use stream::Status;

// Of what, as bytes or as text, and whether all of it was taken.
#[derive(Clone, Copy)]
pub struct Printed {
    gathering: Gathering,
    raw: bool,
    whole: bool,
}

impl Printed {
    pub fn gathering(self) -> Gathering
        ensures { result ≡ self.gathering }
    {
        self.gathering
    }

    // 1 where it could not be written.
    pub fn status(self) -> Status
        ensures { result ≡ written_status self.whole }
    {
        if self.whole {
            Status::Done
        } else {
            Status::Failed
        }
    }
}

// The text of a month.
pub fn write_text<W: Write>(output: &mut W, gathering: Gathering, text: &[u8]) -> Printed
    requires { (text.now ≡ month_text gathering.month) × ¬ (gathering.status ≡ no_sheet) }
    ensures { PrintedOf false gathering result }
{
    let whole = output.write_all(text).is_ok();
    Printed {
        gathering,
        raw: false,
        whole,
    }
}

// Its bytes.
pub fn write_bytes<W: Write>(output: &mut W, gathering: Gathering, bytes: &[u8]) -> Printed
    requires { (bytes.now ≡ encode gathering.month) × ¬ (gathering.status ≡ no_sheet) }
    ensures { PrintedOf true gathering result }
{
    let whole = output.write_all(bytes).is_ok();
    Printed {
        gathering,
        raw: true,
        whole,
    }
}

// Where something was no sheet, nothing.
pub fn write_nothing(raw: bool, gathering: Gathering) -> Printed
    requires { gathering.status ≡ no_sheet }
    ensures { PrintedOf raw gathering result }
{
    Printed {
        gathering,
        raw,
        whole: true,
    }
}
