//! `Form`: of which of the two versions a report is.

ghost use Rattle.std.specs.Prelude.{◌≡◌};
ghost use Rattle.report_reading.specs.Forms.{first_line};

/// Of which version a report is.
#[derive(Clone, Copy)]
pub enum Form {
    /// Version 1: each item stands in it.
    Whole,
    /// Version 2: only some of the entries do, and its head tells how many items the whole history has.
    Trimmed { items: u32 },
}

impl Form {
    /// The number of the first line behind the head.
    pub fn first_line(self) -> u32
        ensures { result ≡ first_line self }
    {
        match self {
            Form::Whole => 3,
            Form::Trimmed { .. } => 4,
        }
    }
}
